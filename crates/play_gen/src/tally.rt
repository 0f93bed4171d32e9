// The counts of a summary.
ghost use Rattle.std.specs.Prelude.{◌≡◌};
ghost use Rattle.play_gen.specs.Tallies.{no_counts, refusal_counted, reply_counted, report_counted, option_counted};

use rt_groups::Report;
use snap_api::{Refusal, Reply};

/// The counts of a run: the replies to the calls outside frames, the frames, and what their reports say. Each count
/// stops at 2^64 - 1.
#[derive(Clone, Copy, Debug, PartialEq, Eq)]
pub struct Tally {
    /// The snapshots taken.
    pub taken: u64,
    /// The values read.
    pub read: u64,
    /// The writes that changed their state.
    pub changed: u64,
    /// The writes that changed nothing.
    pub same: u64,
    /// The snapshots applied.
    pub applied: u64,
    /// The applies that were refused because of a conflict.
    pub conflicts: u64,
    /// The calls that were refused for another reason.
    pub refused: u64,
    /// The frames with a report.
    pub frames: u64,
    /// The sum of the calls that ran in frames.
    pub ran: u64,
    /// The sum of the values calculated in frames.
    pub calculated: u64,
    /// The sum of the reads of frames.
    pub reads: u64,
    /// The groups of the last frame.
    pub groups: u64,
    /// The nodes of the last frame.
    pub nodes: u64,
}

impl Tally {
    /// Returns the counts of an empty run. A rule of this project.
    pub fn new() -> Self
        ensures { result ≡ no_counts }
    {
        Tally {
            taken: 0,
            read: 0,
            changed: 0,
            same: 0,
            applied: 0,
            conflicts: 0,
            refused: 0,
            frames: 0,
            ran: 0,
            calculated: 0,
            reads: 0,
            groups: 0,
            nodes: 0,
        }
    }

    // Counts a refusal.
    fn count_refusal(&mut self, refusal: &Refusal)
        ensures { self.new ≡ refusal_counted self.old refusal.now }
    {
        match refusal {
            Refusal::Conflict { .. } => self.conflicts = self.conflicts.saturating_add(1),
            _ => self.refused = self.refused.saturating_add(1),
        }
    }

    /// Counts the reply to a call outside frames. A rule of this project.
    pub fn count_reply(&mut self, reply: &Reply)
        ensures { self.new ≡ reply_counted self.old reply.now }
    {
        match reply {
            Reply::Taken(_) => self.taken = self.taken.saturating_add(1),
            Reply::Got(_) => self.read = self.read.saturating_add(1),
            Reply::Wrote { changed: true } => self.changed = self.changed.saturating_add(1),
            Reply::Wrote { changed: false } => self.same = self.same.saturating_add(1),
            Reply::Applied => self.applied = self.applied.saturating_add(1),
            Reply::Refused(refusal) => self.count_refusal(refusal),
            Reply::TakenFor(..) => {}
            Reply::Disposed => {}
        }
    }

    // Counts the report of a frame.
    fn count_report(&mut self, report: &Report)
        ensures { self.new ≡ report_counted self.old report.now }
    {
        self.frames = self.frames.saturating_add(1);
        self.ran = self.ran.saturating_add(report.ran);
        self.calculated = self.calculated.saturating_add(report.calculated);
        self.reads = self.reads.saturating_add(report.reads);
        self.groups = report.groups;
        self.nodes = report.nodes;
    }

    /// Counts the report of a frame, if it has one. A rule of this project.
    pub fn count_frame(&mut self, report: &Option<Report>)
        ensures { self.new ≡ option_counted self.old report.now }
    {
        if let Some(report) = report {
            self.count_report(report);
        }
    }
}
