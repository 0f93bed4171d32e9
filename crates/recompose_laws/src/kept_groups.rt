// Laws of the groups that a frame keeps, by which a later frame may skip calls and keep cells.
ghost use Rattle.recompose_laws.specs.CalculatedCells.{KeptCellsAreCalculated, PureCalculationsAreBySite};
ghost use Rattle.recompose_laws.specs.MadeCalls.{KeptCallsAreMade};

/// Law: if each function calls only earlier functions, each call among the kept groups contains what its function
/// makes in the map of the last frame, except for node numbers.
pub fn kept_calls_are_made()
    ensures { KeptCallsAreMade }
{}

/// Law: if the values of all calculations follow from their sites and keys, each kept cell has that value. A cell
/// with equal keys can keep its value (`remember`).
pub fn kept_cells_are_calculated()
    ensures { KeptCellsAreCalculated }
{}

/// Law: the value of a calculation that reads no state follows from its site and keys, if no other calculation has
/// that site.
pub fn pure_calculations_are_by_site()
    ensures { PureCalculationsAreBySite }
{}
