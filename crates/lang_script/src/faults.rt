// Faults of scripts, and their order.
ghost use Rattle.std.specs.Prelude.{◌≡◌, ℕ, Bool, Option, Some, None};
ghost use Rattle.lang_script.specs.ScriptFaults.{pass_of, offset_of, goes_before, first_fault, fault_if, first_of_faults};

use rt_values::NoMemory;
use thiserror::Error;

/// Why a script is rejected, with the offset in the source text. The kinds are in the order in which they are checked.
/// A rule of this project.
#[derive(Clone, Copy, Debug, PartialEq, Eq, Error)]
pub enum ScriptStop {
    /// A token exceeds its limit, a `do` form has a ninth actor or the 65,537th step, or the number of a repeat is less
    /// than 1 or more than 1,000. `at` is the offset of the token, the form or the repeat.
    #[error("the script exceeds a limit at offset {at}")]
    Limit { at: usize },
    /// A step names an undeclared state, or a snapshot without an earlier take of that name.
    #[error("the name in the step at offset {at} is unknown")]
    Unknown { at: usize },
    /// A step adds to a state that is not an Int.
    #[error("the state in the step at offset {at} is not an Int")]
    Type { at: usize },
    /// With threads: a step names or takes a snapshot name that another actor takes first, or a frame is not of the
    /// actor of the first frame.
    #[error("the step at offset {at} depends on another actor")]
    Actor { at: usize },
    /// Out of memory.
    #[error("out of memory")]
    NoMemory,
}

impl From<NoMemory> for ScriptStop {
    ghost use Rattle.std.specs.Prelude.{◌≡◌};
    ghost use Rattle.lang_script.specs.declared.faults.ScriptStop.TheVariants.{NoMemory as no_memory};

    ghost from_gives = { λ _ e. e ≡ no_memory };

    fn from(_: NoMemory) -> Self {
        ScriptStop::NoMemory
    }
}

// Returns the number of the pass that finds the fault.
fn pass_of(fault: ScriptStop) -> u8
    ensures { result ≡ pass_of fault }
{
    match fault {
        ScriptStop::Limit { .. } => 0,
        ScriptStop::Unknown { .. } => 1,
        ScriptStop::Type { .. } => 2,
        ScriptStop::Actor { .. } => 3,
        ScriptStop::NoMemory => 4,
    }
}

// Returns the offset of the fault.
fn offset_of(fault: ScriptStop) -> usize
    ensures { result ≡ offset_of fault }
{
    match fault {
        ScriptStop::Limit { at } => at,
        ScriptStop::Unknown { at } => at,
        ScriptStop::Type { at } => at,
        ScriptStop::Actor { at } => at,
        ScriptStop::NoMemory => 0,
    }
}

// Whether `fault` goes before `other`.
fn goes_before(fault: ScriptStop, other: ScriptStop) -> bool
    ensures { result ≡ goes_before fault other }
{
    let (one, two) = (pass_of(fault), pass_of(other));
    one < two || (one == two && offset_of(fault) < offset_of(other))
}

// Returns the fault that goes first, of an earlier one and a new one.
#[tactic(auto, unfolding(crate::specs::ScriptFaults::first_fault))]
pub fn first_fault(least: Option<ScriptStop>, fault: ScriptStop) -> Option<ScriptStop>
    ensures { result ≡ first_fault least fault }
{
    match least {
        None => Some(fault),
        Some(kept) => {
            if goes_before(fault, kept) {
                Some(fault)
            } else {
                Some(kept)
            }
        }
    }
}

// Updates `least` with a fault if `is_fault`.
pub fn first_fault_if(
    least: Option<ScriptStop>,
    is_fault: bool,
    fault: ScriptStop,
) -> Option<ScriptStop>
    ensures { result ≡ first_of_faults least (fault_if is_fault fault) }
{
    if is_fault {
        first_fault(least, fault)
    } else {
        least
    }
}
