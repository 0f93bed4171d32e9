// Flags of the command line.

/// What a run prints of each good frame besides its report. Without a flag this is one line for each node. A rule of
/// this project.
#[derive(Clone, Copy, Debug, PartialEq, Eq)]
pub struct Flags {
    /// `--json`: the tree is one line of JSON.
    pub json: bool,
    /// `--ops`: before the tree, each call on an applier has a line.
    pub ops: bool,
}
