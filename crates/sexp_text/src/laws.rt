// Laws of the grammar, each the contract of a function that does nothing.
ghost use Rattle.std.specs.Prelude.{◌≡◌, ℕ, List};
ghost use Rattle.sexp_text.specs.Forest.{Forest};
ghost use Rattle.sexp_text.specs.Grammar.{Spells};
ghost use Rattle.sexp_text.specs.Layout.{CanBeSpelled};

/// Source text has at most one forest, offsets included.
///
/// A rule of this project. The function does nothing: its contract is the law.
pub fn spells_one_forest()
    ensures { (bytes : List ℕ) → (f : Forest) → (g : Forest) → Spells bytes f → Spells bytes g →
        f ≡ g }
{}

/// The forest of a source text can be printed.
///
/// A rule of this project. The function does nothing: its contract is the law.
pub fn spelled_can_be_spelled()
    ensures { (bytes : List ℕ) → (f : Forest) → Spells bytes f → CanBeSpelled f }
{}
