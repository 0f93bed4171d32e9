// Laws of numbered programs without faults.
ghost use Rattle.checked_laws.specs.CheckedPrograms.{CalculationsAreBySite, ProgramIsOrdered, ReadsAreOfStates};

/// Law: each function of a checked program calls only functions before it, by number. A rule of this project.
pub fn program_is_ordered()
    ensures { ProgramIsOrdered }
{}

/// Law: the value of each calculation (`remember`) of a checked program depends only on its site and its keys, and no
/// calculation reads a state. So a cell at the same site with equal keys keeps its value.
pub fn calculations_are_by_site()
    ensures { CalculationsAreBySite }
{}

/// Law: composing a checked program reads only objects that are states of the program.
pub fn reads_are_of_states()
    ensures { ReadsAreOfStates }
{}
