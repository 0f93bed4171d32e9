// Faults of a program, and the one that is reported.
ghost use Rattle.std.specs.Prelude.{◌≡◌};
ghost use Rattle.lang_checks.specs.FaultOrder.{pass, before, least_fault_with, least_fault_from, fault_unless};

/// The kind of a fault, by the pass that finds it. The passes run in this order, a rule of this project.
#[derive(Clone, Copy, Debug, PartialEq, Eq)]
pub enum CheckKind {
    /// A name that is taken already: a second state, function, parameter, attribute or key of that name, or a variable
    /// in scope. The offset is that of the later name.
    Double,
    /// A variable, a state or a function that does not exist, at its use; or no function `root`, at the header.
    Unknown,
    /// A call of the function itself or of a later one, at the call; or a chain of more than 32 calls, at the function.
    Order,
    /// Values of the wrong types for an operator, a statement, a call or a state, at the operator's list, the
    /// statement, the call or the state; or a `root` with parameters, at the function.
    Type,
    /// A calculation that reads a state or a variable that is not a key, at the read.
    Remember,
}

/// A fault, with its offset in the source text in bytes.
#[derive(Clone, Copy, Debug, PartialEq, Eq)]
pub struct ProgramFault {
    pub kind: CheckKind,
    pub at: usize,
}

// Returns the number of the pass that finds a kind, from 0.
fn pass_of(kind: CheckKind) -> usize
    ensures { result ≡ pass kind }
{
    match kind {
        CheckKind::Double => 0,
        CheckKind::Unknown => 1,
        CheckKind::Order => 2,
        CheckKind::Type => 3,
        CheckKind::Remember => 4,
    }
}

// Returns whether `a` is reported rather than `b`.
fn is_before(a: ProgramFault, b: ProgramFault) -> bool
    ensures { result ≡ before a b }
{
    pass_of(a.kind) < pass_of(b.kind) || (pass_of(a.kind) == pass_of(b.kind) && a.at < b.at)
}

// Returns the fault that is reported of two.
#[tactic(auto, unfolding(crate::specs::FaultOrder::least_fault_with))]
fn note_fault(least: Option<ProgramFault>, fault: ProgramFault) -> Option<ProgramFault>
    ensures { result ≡ least_fault_with least fault }
{
    match least {
        None => Some(fault),
        Some(kept) => {
            if is_before(fault, kept) {
                Some(fault)
            } else {
                Some(kept)
            }
        }
    }
}

/// Updates `least` with a fault of `kind` at `at` unless `holds`.
pub fn fault_unless(
    holds: bool,
    kind: CheckKind,
    at: usize,
    least: Option<ProgramFault>,
) -> Option<ProgramFault>
    ensures { result ≡ least_fault_from least (fault_unless holds kind at) }
{
    if holds {
        least
    } else {
        note_fault(least, ProgramFault { kind, at })
    }
}
