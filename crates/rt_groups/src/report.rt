// The report of a frame.

/// The report of a frame: how many calls count as run, how many remembered values count as calculated, how many reads
/// those calls made (at most 2^64 - 1), and how many groups and nodes the composition has.
#[derive(Clone, Copy, Debug, PartialEq, Eq)]
pub struct Report {
    pub ran: u64,
    pub calculated: u64,
    pub reads: u64,
    pub groups: u64,
    pub nodes: u64,
}
