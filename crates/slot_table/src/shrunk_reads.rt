// The reads of a new frame that shrinks its table.
ghost use Rattle.std.specs.Prelude.{◌≡◌, ◌≤◌, ◌∷◌, [], List, length, map, MatchOption};
ghost use Rattle.rt_groups.specs.declared.groups.Group.{Group as group_data};
ghost use Rattle.slot_table.specs.KeptRuns.{patched, gaps, AreInside};

use crate::runs::KeptRun;
use crate::storage::TableBuilder;
use crate::table::Table;
use rt_values::ObjectNo;
use std::marker::Model;

/// The reads of the groups of a new frame that shrinks its table, in preorder.
#[derive(Drop)]
pub struct ShrunkReads<'c> {
    table: &'c Table,
    fresh: &'c TableBuilder,
    // The index of the next new group.
    at: usize,
    // What is left of the current run.
    run: KeptRun,
    // The runs after the current run.
    runs: &'c [KeptRun],
}

impl<'c> Model for ShrunkReads<'c> {
    ghost use Rattle.std.specs.Prelude.{ℕ, ◌+◌, ◌≤◌, ◌∷◌, List, length, map, drop};
    ghost use Rattle.slot_table.specs.KeptRuns.{patched, gaps, AreInside};

    ghost Value = { List (List ℕ) };

    ghost view = { λ s.
        map (λ g. g.reads) (patched s.table.now.groups (drop s.at s.fresh.now) (s.run ∷ s.runs.now)) };

    ghost invariant = { λ s. AreInside s.table.now.groups (s.run ∷ s.runs.now)
        × (s.at + gaps (s.run ∷ s.runs.now) ≤ length s.fresh.now) };
}

impl<'c> ShrunkReads<'c> {
    // Returns the reads of the groups of `runs` in `table`, and of the new groups before, between and after the runs.
    pub(crate) fn new(table: &'c Table, fresh: &'c TableBuilder, runs: &'c [KeptRun]) -> Self
        requires inside { AreInside table.now.groups runs.now }
        requires gaps { gaps runs.now ≤ length fresh.now }
        ensures { result ≡ map (λ g. g.reads) (patched table.now.groups fresh.now runs.now) }
    {
        let run = KeptRun {
            gap: 0,
            from: 0,
            to: 0,
        };
        ShrunkReads {
            table,
            fresh,
            at: 0,
            run,
            runs,
        }
    }

    /// Returns the reads of the next group, or `None` after the last group. Takes no memory, and constant time, apart
    /// from the time of passing kept runs without groups. A rule of this project.
    pub fn next(&mut self) -> Option<&'c [ObjectNo]>
        ensures { MatchOption result (self.old ≡ []) (λ reads. self.old ≡ reads.now ∷ self.new) }
    {
        let (run, runs) = pass_empty_runs(self.run, self.runs);
        self.run = run;
        self.runs = runs;
        if run.gap == 0 && run.from < run.to {
            let reads = self.table.reads(run.from);
            self.run.from += 1;
            return Some(reads);
        }
        if self.at == self.fresh.len() {
            return None;
        }
        let reads = self.fresh.reads(self.at);
        // The new groups after the last run have no gap.
        self.run.gap = run.gap.saturating_sub(1);
        self.at += 1;
        Some(reads)
    }
}

// Returns the first of `run` and `runs` that has groups or a gap, or the last run if there is no such run, and the runs
// after it.
fn pass_empty_runs<'c>(run: KeptRun, runs: &'c [KeptRun]) -> (KeptRun, &'c [KeptRun])
    ensures groups { (olds fresh : List group_data) →
        patched olds fresh (result.0 ∷ result.1.now) ≡ patched olds fresh (run ∷ runs.now) }
    ensures gaps { gaps (result.0 ∷ result.1.now) ≡ gaps (run ∷ runs.now) }
    ensures inside { (olds : List group_data) → AreInside olds (run ∷ runs.now) →
        AreInside olds (result.0 ∷ result.1.now) }
    ensures last { result.0.gap ≡ 0 → result.0.to ≤ result.0.from → result.1.now ≡ [] }
{
    let mut run = run;
    let mut left = runs;
    while run.gap == 0 && run.to <= run.from {
        let Some((next, later)) = left.split_first() else {
            return (run, left);
        };
        run = *next;
        left = later;
    }
    (run, left)
}
