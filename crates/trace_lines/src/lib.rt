//! The lines of a trace: a program, its calls and its frames, each as one object of JSON.
//!
//! A trace shows what a script does to a world and why each call of a frame ran. The first line is the program
//! (`put_program`). Every other line is a call (`put_call`) or a frame (`put_good_frame`, `put_refused_frame`). Each
//! function appends the tokens of one line to a `json::Writer`, and the caller adds LF. Compose has no such lines; they
//! are a rule of this project.
//! Promises: each function appends exactly the tokens of its definition (`specs/TraceLines.antt` and
//! `specs/ProgramLine.antt`), and reading a line gives its tokens back (`specs/LineLaws.antt`).
#![tactic(auto)]

mod call_line;
mod frame_line;
mod group_line;
mod laws;
mod program_line;
mod tokens;

pub use call_line::put_call;
pub use frame_line::{FrameHead, GoodFrame, put_good_frame, put_refused_frame};
pub use laws::lines_read_back;
pub use program_line::put_program;
