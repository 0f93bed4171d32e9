// What a composition keeps between frames, and the draft of the next frame.
ghost use Rattle.std.specs.Prelude.{◌≡◌, [], IfOk};
ghost use Rattle.rt_groups.specs.Frames.{no_last_frame};
ghost use Rattle.recompose_scopes.specs.Scopes.{AreScopesOf, own_reads};
ghost use Rattle.recompose_scopes.specs.Owed.{IsOwedList};
ghost use Rattle.composer.specs.FrameDrafts.{Holds, HaveScopes};

use crate::owed::Owed;
use recompose_scopes::{OwedCalls, RecomposeScopes};
use rt_groups::Report;
use rt_values::NoMemory;
use slot_table::{ChangeList, Preview, ReplacedGroups, Table};
use std::alloc::Global;
use std::cell::Cell;
use std::marker::Model;

/// What a composition keeps between frames: the groups of the last good frame with the scopes of their calls, and the
/// number of the next new node.
#[derive(Drop)]
pub struct Held {
    table: Table,
    scopes: RecomposeScopes,
    next: u64,
    // Nodes that earlier frames replaced, whose memory new nodes take.
    replaced: Cell<ReplacedGroups>,
}

impl Model for Held {
    ghost use Rattle.composer.specs.FrameDrafts.{HeldGroups};

    ghost Value = { HeldGroups };

    ghost view = { λ h. record { groups = h.table.groups; next = h.next; scopes = h.scopes } };

    ghost use Rattle.recompose_scopes.specs.Scopes.{AreScopesOf, own_reads};

    ghost invariant = { λ h. AreScopesOf (own_reads h.table.groups) h.scopes };
}

impl Held {
    /// Returns no groups. Node numbers begin at 1.
    pub fn new(alloc: Global) -> Self
        ensures { Holds result no_last_frame }
    {
        Held {
            table: Table::new(alloc),
            scopes: RecomposeScopes::new(alloc),
            next: 1,
            replaced: Cell::new(ReplacedGroups::none(alloc)),
        }
    }

    // Returns the nodes that earlier frames replaced, and keeps none of them.
    pub(crate) fn take_replaced(&self, alloc: Global) -> ReplacedGroups {
        self.replaced.replace(ReplacedGroups::none(alloc))
    }

    // Keeps nodes that earlier frames replaced, for the next frame.
    pub(crate) fn keep_replaced(&self, replaced: ReplacedGroups) {
        self.replaced.set(replaced);
    }

    /// Returns the groups of the last good frame.
    pub fn table(&self) -> &Table
        ensures { result.now.groups ≡ self.now.groups }
    {
        &self.table
    }

    /// Returns the number of the next new node.
    pub fn next(&self) -> u64
        ensures { result ≡ self.now.next }
    {
        self.next
    }

    /// Returns the scopes of the calls.
    pub fn scopes(&self) -> &RecomposeScopes
        ensures scopes { result.now ≡ self.now.scopes }
        ensures calls { AreScopesOf (own_reads self.now.groups) self.now.scopes }
    {
        &self.scopes
    }

    /// Returns the calls that have an owed object among their own reads.
    pub(crate) fn owed_calls(&self, alloc: Global, owed: &Owed) -> Result<OwedCalls, NoMemory>
        ensures { IfOk result (λ calls. IsOwedList (own_reads self.now.groups) owed.now.objects calls) }
    {
        if self.scopes.is_empty() {
            return Ok(self.scopes.no_calls(alloc));
        }
        let objects = owed.objects(alloc)?;
        self.scopes.owed_calls(alloc, &objects)
    }

    /// Changes the groups to those of the frame of `draft` (`applyChanges`). Takes no memory.
    pub fn apply(&mut self, draft: Draft)
        requires { draft.olds ≡ self.old.groups }
        ensures groups { self.new.groups ≡ draft.groups }
        ensures next { self.new.next ≡ draft.next }
        ensures scopes { AreScopesOf (own_reads self.new.groups) self.new.scopes }
    {
        let Draft {
            changes,
            scopes,
            next,
            report: _,
        } = draft;
        self.table.apply(changes, self.replaced.get_mut());
        match scopes {
            Some(scopes) => self.scopes = scopes,
            None => {}
        }
        self.next = next;
    }

    /// Keeps no groups after a frame whose applier failed. Node numbers go on after those of that frame. Takes no
    /// memory. A rule of this project.
    pub fn detach(&mut self, alloc: Global, draft: Draft)
        ensures groups { self.new.groups ≡ [] }
        ensures next { self.new.next ≡ draft.next }
        ensures scopes { AreScopesOf (own_reads self.new.groups) self.new.scopes }
    {
        self.table = Table::new(alloc);
        self.scopes = RecomposeScopes::new(alloc);
        self.next = draft.next;
    }
}

/// A frame that is composed and not yet applied.
#[derive(Drop)]
pub struct Draft {
    changes: ChangeList,
    // The scopes of the calls, unless each new group has the reads of the group before at its index.
    scopes: Option<RecomposeScopes>,
    next: u64,
    report: Report,
}

impl Model for Draft {
    ghost use Rattle.composer.specs.FrameDrafts.{DraftGroups};

    ghost Value = { DraftGroups };

    ghost view = { λ d. record {
      olds = d.changes.olds;
      groups = d.changes.news;
      next = d.next;
      report = d.report;
      scopes = d.scopes;
    } };

    ghost use Rattle.composer.specs.FrameDrafts.{HaveScopes};

    ghost invariant = { λ d. HaveScopes d.changes.olds d.changes.news d.scopes };
}

impl Draft {
    // Returns the draft with these changes of `table`.
    pub(crate) fn new(
        alloc: Global,
        table: &Table,
        changes: ChangeList,
        next: u64,
        report: Report,
    ) -> Result<Self, NoMemory>
        requires { changes.olds ≡ table.now.groups }
        ensures olds { IfOk result (λ d. d.olds ≡ changes.olds) }
        ensures groups { IfOk result (λ d. d.groups ≡ changes.news) }
        ensures next { IfOk result (λ d. d.next ≡ next) }
        ensures report { IfOk result (λ d. d.report ≡ report) }
        ensures scopes { IfOk result (λ d. HaveScopes d.olds d.groups d.scopes) }
    {
        let scopes = other_scopes(alloc, table, &changes)?;
        Ok(Draft {
            changes,
            scopes,
            next,
            report,
        })
    }

    /// Returns the groups of the frame, before `held` has them.
    pub fn preview<'d>(&'d self, alloc: Global, held: &Held) -> Result<Preview<'d>, NoMemory>
        requires { self.now.olds ≡ held.now.groups }
        ensures { IfOk result (λ p. p.groups ≡ self.now.groups) }
    {
        self.changes.preview(alloc, &held.table)
    }

    /// Returns the report of the frame.
    pub fn report(&self) -> Report
        ensures { result ≡ self.now.report }
    {
        self.report
    }
}

// Returns the scopes of the calls of the new groups, unless each new group has the reads of the group before at its
// index.
fn other_scopes(
    alloc: Global,
    table: &Table,
    changes: &ChangeList,
) -> Result<Option<RecomposeScopes>, NoMemory>
    requires { changes.now.olds ≡ table.now.groups }
    ensures { IfOk result (λ scopes. HaveScopes changes.now.olds changes.now.news scopes) }
{
    if changes.keeps_reads(table) {
        return Ok(None);
    }
    if let Some(reads) = changes.shrunk_reads(table) {
        return Ok(Some(RecomposeScopes::of_reads(alloc, reads)?));
    }
    let preview = changes.preview(alloc, table)?;
    Ok(Some(RecomposeScopes::of(alloc, preview.table())?))
}
