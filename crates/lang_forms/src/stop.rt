// The refusals of the parser.
use rt_values::NoMemory;
use std::alloc::{AllocError, AllocFailed};
use thiserror::Error;

/// Why trees are no program with a script. A rule of this project.
#[derive(Clone, Copy, Debug, PartialEq, Eq, Error)]
pub enum FormStop {
    /// The first top form that is wrong or out of order is at `at`, or the input ends at `at` without a header.
    #[error("the form at offset {at} is wrong")]
    Form { at: usize },
    /// The forms are right, and `at` is the first offset of the program that exceeds a limit.
    #[error("the program exceeds a limit at offset {at}")]
    Limit { at: usize },
    /// Memory ran out.
    #[error("out of memory")]
    NoMemory,
}

/// Why trees are no part of a program.
#[derive(Clone, Copy, Debug, PartialEq, Eq)]
pub enum ParseStop {
    /// The trees do not have the form.
    NoForm,
    /// Memory ran out.
    NoMemory,
}

impl From<NoMemory> for FormStop {
    ghost use Rattle.std.specs.Prelude.{◌≡◌};
    ghost use Rattle.lang_forms.specs.declared.stop.FormStop.TheVariants.{NoMemory as no_memory};

    ghost from_gives = { λ _ e. e ≡ no_memory };

    fn from(_: NoMemory) -> Self {
        FormStop::NoMemory
    }
}

impl From<AllocError> for ParseStop {
    ghost use Rattle.std.specs.Prelude.{◌≡◌};
    ghost use Rattle.lang_forms.specs.declared.stop.ParseStop.TheVariants.{NoMemory};

    ghost from_gives = { λ _ e. e ≡ NoMemory };

    fn from(_: AllocError) -> Self {
        ParseStop::NoMemory
    }
}

impl<T: Drop> From<AllocFailed<T>> for ParseStop {
    ghost use Rattle.std.specs.Prelude.{◌≡◌};
    ghost use Rattle.lang_forms.specs.declared.stop.ParseStop.TheVariants.{NoMemory};

    ghost from_gives = { λ _ e. e ≡ NoMemory };

    fn from(_: AllocFailed<T>) -> Self {
        ParseStop::NoMemory
    }
}

impl From<NoMemory> for ParseStop {
    ghost use Rattle.std.specs.Prelude.{◌≡◌};
    ghost use Rattle.lang_forms.specs.declared.stop.ParseStop.TheVariants.{NoMemory as no_memory};

    ghost from_gives = { λ _ e. e ≡ no_memory };

    fn from(_: NoMemory) -> Self {
        ParseStop::NoMemory
    }
}
