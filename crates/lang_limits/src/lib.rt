//! The limits of programs and scripts: how long names, numbers, strings and lists of numbers may be, how many parts a
//! program may have, and how deep its parts may nest.
//!
//! `specs/Tokens.antt` and `specs/Sizes.antt` list the offsets of all that exceeds a limit. An oversized token is no
//! fault of the forms: `clamped_trees` clamps each to its limit, and the forms are parsed from the clamped trees. The
//! parser of programs calls all three functions. Compose has no source text and no such limits. They are rules of this
//! project, so that parsing, checking and composing have bounded depth. Each function returns the least offset, and
//! `clamped_trees` changes nothing if no token is oversized.
#![tactic(auto)]

mod clamping;
mod laws;
mod least;
mod lengths;
mod numbers;
mod sizes;
mod tokens;

pub use clamping::clamped_trees;
pub use laws::{least_is_least, no_least_no_offset, small_trees_stay};
pub use sizes::{MOST_FORMS, size_limit};
pub use tokens::{TokenLimits, token_limits};
