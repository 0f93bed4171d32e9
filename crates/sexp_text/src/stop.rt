// The refusals of the parser.
ghost use Rattle.std.specs.Prelude.{◌≡◌};

use rt_values::NoMemory;
use std::alloc::{AllocError, AllocFailed};
use thiserror::Error;

/// The reason why bytes are no source text, with the offset in bytes from 0.
///
/// A rule of this project. Bytes that are not UTF-8 are refused for that, whatever else is wrong.
#[derive(Clone, Copy, Debug, PartialEq, Eq, Error)]
pub enum TextStop {
    /// The bytes are not UTF-8. `at` is the length of the longest prefix that is UTF-8.
    #[error("the bytes from offset {at} on are not UTF-8")]
    NotUtf8 { at: usize },
    /// No source text has this byte at `at` after the bytes before it, or the text ends there too
    /// early.
    #[error("the byte at offset {at} fits nowhere")]
    Bad { at: usize },
    /// The parenthesis at `at` opens a list inside 100 others.
    #[error("the list at offset {at} is nested too deep")]
    TooDeep { at: usize },
    /// Memory ran out.
    #[error("out of memory")]
    NoMemory,
}

impl From<AllocError> for TextStop {
    ghost use Rattle.sexp_text.specs.declared.stop.TextStop.TheVariants.{NoMemory};

    ghost from_gives = { λ _ e. e ≡ NoMemory };

    fn from(_: AllocError) -> Self {
        TextStop::NoMemory
    }
}

impl<T: Drop> From<AllocFailed<T>> for TextStop {
    ghost use Rattle.sexp_text.specs.declared.stop.TextStop.TheVariants.{NoMemory};

    ghost from_gives = { λ _ e. e ≡ NoMemory };

    fn from(_: AllocFailed<T>) -> Self {
        TextStop::NoMemory
    }
}

impl From<NoMemory> for TextStop {
    ghost use Rattle.sexp_text.specs.declared.stop.TextStop.TheVariants.{NoMemory as no_memory};

    ghost from_gives = { λ _ e. e ≡ no_memory };

    fn from(_: NoMemory) -> Self {
        TextStop::NoMemory
    }
}
