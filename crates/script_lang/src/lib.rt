//! The lines that a run prints of the calls of a script and of its frames.
//!
//! `specs/Lines.antt` defines what is printed of a history, with the reports and trees of frames, `specs/TreeJson.antt`
//! the JSON of a tree. Scripts themselves are those of `lang_script`, which this crate exports too. Lines are rules of
//! this project; they replace test code over `Snapshot` and `Recomposer`.
//! Promise: each function that appends a line appends the bytes of its definition.
#![tactic(auto)]

mod flags;
mod laws;
mod line;
mod op_lines;
mod tree;
mod tree_json;

pub use flags::Flags;
pub use lang_script::{
    NEVER_TAKEN, NameTable, Script, ScriptStop, index_of, script_of, sequential_is_spelled,
};
pub use laws::{groups_tell_the_json, groups_tell_the_tree};
pub use line::{add_line, add_reply_line, add_request_line};
pub use op_lines::add_op;
pub use tree::{OpenGroups, add_count, add_refused, add_report};
pub use tree_json::TreeWriter;
