// Commands.

use script_lang::Flags;

/// What the program is asked to do.
#[derive(Clone, Copy, Debug, PartialEq, Eq)]
pub enum Command {
    /// `run`, with its flags: runs the script of the input on its program, and writes each line when it is made.
    Run(Flags),
    /// `threads`, with its flags: runs each actor on a thread of its own, and then writes the lines of all calls.
    Threads(Flags),
    /// `check`: writes the canonical text of the input's program and script.
    Check,
    /// `gen`: runs the program and the script that are generated from `number` with `size` rows, and writes a summary.
    /// The size is from 1 to 1,000.
    Gen { number: u32, size: u32 },
}
