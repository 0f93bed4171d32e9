// The errors of an application.

use lang_checks::CheckStop;
use lang_forms::FormStop;
use recomposer::FrameStop;
use rt_values::NoMemory;
use sexp_text::TextStop;
use snap_api::Refusal;
use thiserror::Error;

/// Why a text is no program. Each case has its kind and its offset in bytes, or says that memory ran out.
#[derive(Clone, Copy, Debug, PartialEq, Eq, Error)]
pub enum OpenStop {
    /// The text is not a sequence of atoms, strings and lists.
    #[error("{0}")]
    Text(#[from] TextStop),
    /// A form is wrong, or something exceeds a limit.
    #[error("{0}")]
    Form(#[from] FormStop),
    /// The program has a fault: a name, an order or a type is wrong.
    #[error("{0}")]
    Program(#[from] CheckStop),
}

/// Why a state was not read or written.
#[derive(Clone, Copy, Debug, PartialEq, Eq, Error)]
pub enum StateStop {
    /// The program has no state with this name.
    #[error("the program has no state with this name")]
    NoState,
    /// The world refused the call.
    #[error("{0}")]
    Refused(Refusal),
}

/// Any error of this crate. All others convert to it by `?`.
#[derive(Clone, Copy, Debug, PartialEq, Eq, Error)]
pub enum AppStop {
    /// The text is no program.
    #[error("{0}")]
    Open(#[from] OpenStop),
    /// A state was not read or written.
    #[error("{0}")]
    State(#[from] StateStop),
    /// The world refused a take, an apply or a dispose.
    #[error("{0}")]
    Refused(#[from] Refusal),
    /// A frame did not happen.
    #[error("{0}")]
    Frame(#[from] FrameStop),
    /// Out of memory.
    #[error("{0}")]
    NoMemory(#[from] NoMemory),
}
