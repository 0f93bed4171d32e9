// Where composing is, and what it has made so far.
ghost use Rattle.std.specs.Prelude.{◌≡◌, []};
ghost use Rattle.rt_groups.specs.Paths.{GroupKey};
ghost use Rattle.composer.specs.OldSiblings.{found_siblings, IsFoundIn};
ghost use Rattle.composer.specs.Waiting.{waiting_siblings};

use crate::draft::Held;
use crate::last_groups::LastGroups;
use crate::old_groups::OldGroup;
use crate::pending::Pending;
use crate::spares::Spares;
use crate::writer::Writer;
use lang_ast::Function;
use lang_eval::Env;
use rt_groups::Deps;
use std::alloc::Global;
use std::mem;

/// Where statements are composed: the functions that their calls reach, the groups of the last frame with what is owed,
/// and the depth of the new groups.
#[derive(Clone, Copy)]
pub struct Level<'a> {
    pub alloc: Global,
    pub functions: &'a [Function],
    pub last: &'a LastGroups<'a>,
    pub depth: u32,
}

/// What composing has made so far: the variables in scope, the old siblings that are not matched yet, the reads of the
/// innermost call, the groups. `spares` has lists whose memory is used again.
#[derive(Drop)]
pub struct Progress<'a> {
    pub scope: Env,
    pub pending: Pending<'a>,
    pub reads: Deps,
    pub writer: Writer<'a>,
    pub spares: Spares,
}

/// What is in hand around the body of a call, while the body is composed: the variables in scope, the old siblings that
/// are not matched yet, and the reads of the call around it.
#[derive(Drop)]
pub struct Around<'a> {
    pub scope: Env,
    pub pending: Pending<'a>,
    pub reads: Deps,
}

impl<'a> Progress<'a> {
    /// Starts a frame next to the groups of `last`: nothing is made so far. The frame uses the memory that `held` keeps
    /// from earlier frames.
    pub fn new(alloc: Global, last: &'a LastGroups<'a>, held: &Held) -> Self
        ensures scope { result.scope ≡ [] }
        ensures pending { (s : GroupKey) → waiting_siblings result.pending s ≡ [] }
        ensures table { result.pending.table.now.groups ≡ last.now.groups }
        ensures reads { result.reads ≡ [] }
        ensures writer { result.writer ≡ record {
          olds = last.now.groups;
          groups = [];
          next = held.now.next;
          ran = 0;
          calculated = 0;
          reads = 0;
        } }
    {
        let mut spares = Spares::new(alloc, held.take_replaced(alloc));
        let writer = Writer::new(alloc, last.table(), held.next(), &mut spares);
        Progress {
            scope: Env::new(alloc),
            pending: Pending::none(last.table()),
            reads: Deps::new(alloc),
            writer,
            spares,
        }
    }

    /// Goes into the body of a call, whose variables are `scope`, next to the old groups inside `found`. Returns what
    /// is in hand around the body.
    #[inline(always)]
    pub fn enter_body(
        &mut self,
        level: &Level<'a>,
        found: &Option<OldGroup<'a>>,
        scope: Env,
    ) -> Around<'a>
        ensures around { result ≡ record {
          scope = self.old.scope;
          pending = self.old.pending;
          reads = self.old.reads;
        } }
        ensures scope { self.new.scope ≡ scope }
        ensures pending { (s : GroupKey) → waiting_siblings self.new.pending s ≡ found_siblings found.now s }
        ensures table { IsFoundIn level.now.last.now.groups found.now →
            self.new.pending.table.now.groups ≡ level.now.last.now.groups }
        ensures reads { self.new.reads ≡ [] }
        ensures writer { self.new.writer ≡ self.old.writer }
    {
        let pending = Pending::inside_found(level.last, found);
        let reads = self.spares.take_reads(level.alloc);
        Around {
            scope: mem::replace(&mut self.scope, scope),
            pending: mem::replace(&mut self.pending, pending),
            reads: mem::replace(&mut self.reads, reads),
        }
    }

    /// Leaves the body of a call. Returns the reads of the call.
    #[inline(always)]
    pub fn leave_body(&mut self, around: Around<'a>) -> Deps
        ensures own { result ≡ self.old.reads }
        ensures scope { self.new.scope ≡ around.entry.scope }
        ensures pending { self.new.pending ≡ around.entry.pending }
        ensures reads { self.new.reads ≡ around.entry.reads }
        ensures writer { self.new.writer ≡ self.old.writer }
    {
        let Around {
            scope,
            pending,
            reads,
        } = around;
        let variables = mem::replace(&mut self.scope, scope);
        self.spares.keep_scope(variables);
        self.pending = pending;
        mem::replace(&mut self.reads, reads)
    }

    /// Ends composing, and returns the writer. Gives `held` back the memory that earlier frames left.
    pub fn into_writer(self, held: &Held) -> Writer<'a>
        ensures { result ≡ self.entry.writer }
    {
        held.keep_replaced(self.spares.into_replaced());
        self.writer
    }
}
