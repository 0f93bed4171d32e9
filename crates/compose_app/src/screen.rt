// A composition with its world and its applier.
ghost use Rattle.std.specs.Prelude.{◌≡◌, ◌<◌, ◌↔◌, ℕ, [], length, None, IfOk, IfErr, Err};
ghost use Rattle.rt_groups.specs.Frames.{LastFrame, no_last_frame};
ghost use Rattle.rt_groups.specs.PreorderGroups.{preorder};
ghost use Rattle.rt_groups.specs.Nodes.{None as no_nodes};
ghost use Rattle.node_tree.specs.NodeTrees.{tree_at_root};
ghost use Rattle.snap_policy.specs.declared.policy.BuiltIn.{BuiltIn as built_in};
ghost use Rattle.snap_policy.specs.Table.{table};
ghost use Rattle.snap_api.specs.Calls.{Calls, taken_reply, apply_reply, dispose_reply};
ghost use Rattle.snap_api.specs.World.{World, start};
ghost use Rattle.lang_script.specs.StepCalls.{opening_world};
ghost use Rattle.recomposer.specs.AppliedFrames.{Mirrors};
ghost use Rattle.compose_app.specs.Programs.{state_names};
ghost use Rattle.compose_app.specs.Screens.{IsScreenAt, MakesScreenFrame};
ghost use Rattle.compose_app.specs.StateCalls.{CallsState, read_answer, write_answer};

use crate::framing::make_frame;
use crate::named::{read_state, write_state};
use crate::opening::open_world;
use crate::stops::StateStop;
use lang_checks::Checked;
use node_tree::{Applier, Ops};
use recomposer::{Composition, FrameStop};
use rt_groups::Report;
use rt_values::{Kind, Name, NoMemory, Steps, Value};
use slot_table::Table;
use snap_api::{Refusal, Request, Versions};
use snap_policy::BuiltIn;
use std::alloc::Global;
use std::marker::{Brand, Model};
use std::sync::ledger::{Blank, Ledger};

/// A composition of a program with the world of its states and an applier (`Composition`, `Recomposer`). The applier
/// sees a frame's changes when `frame` returns.
#[derive(Drop)]
pub struct Screen<'p, V: Versions<P = BuiltIn> + Drop, A: Applier + Drop> {
    program: &'p Checked,
    composition: Composition<'p>,
    world: V,
    applier: A,
}

impl<'p, V: Versions<P = BuiltIn> + Drop, A: Applier + Drop> Model for Screen<'p, V, A> {
    ghost use mir.Syntax.{named};
    ghost use Rattle.std.specs.Prelude.{[]};
    ghost use Rattle.lang_ast.specs.contracts.program.Program.{the_row as program_row};
    ghost use Rattle.recomposer.specs.contracts.composition.Composition.{the_row as composition_row};
    ghost use Rattle.compose_app.specs.Screens.{ScreenParts, screen_parts, IsReadyScreen};
    ghost use Rattle.compose_app.specs.ScreenCodes.{screen_code};

    ghost Value = { ScreenParts V A };

    ghost coded = { screen_code program_row.coded (composition_row (record { mir = named 0; lft = [] })).coded
        V.code A.code };

    ghost view = { λ s. screen_parts s.program.now s.composition s.world s.applier };

    ghost invariant = { λ s. IsReadyScreen V.stands A.tree
        (screen_parts s.program.now s.composition s.world s.applier) };
}

impl<'p, V: Versions<P = BuiltIn> + Drop, A: Applier + Drop> Screen<'p, V, A> {
    /// Returns a screen before its first frame, with the states of the program in the new world `world`. If the applier
    /// knows a tree, that tree is empty.
    pub fn new(
        alloc: Global,
        program: &'p Checked,
        mut world: V,
        applier: A,
    ) -> Result<Self, NoMemory>
        requires world { V.stands world (start 0) }
        requires tree { Mirrors (A.tree applier) no_last_frame }
        ensures { IfOk result (λ s. (s.program ≡ program.now) × (s.applier ≡ applier) × IsScreenAt V.stands A.tree s
            no_last_frame (opening_world program.now.states.items)) }
    {
        let watcher = open_world(alloc, program, &mut world)?;
        let composition = Composition::new(alloc, program, watcher)?;
        Ok(Screen {
            program,
            composition,
            world,
            applier,
        })
    }

    /// Returns the applier.
    pub fn applier(&self) -> &A
        ensures { result.now ≡ self.now.applier }
    {
        &self.applier
    }

    /// Returns the groups of the last good frame.
    pub fn tree(&self) -> &Table
        ensures { (k : LastFrame) (w : World built_in) → IsScreenAt V.stands A.tree self.now k w →
            result.now.groups ≡ preorder 0 k.trail }
    {
        self.composition.table()
    }

    /// Returns the calls on the applier that the last good frame made.
    pub fn ops(&self) -> &Ops
        ensures { result.now ≡ self.now.composition.ops }
    {
        self.composition.ops()
    }

    /// Reads the state `name` in the snapshot `snapshot`. The snapshot 0 is global.
    pub fn read(&mut self, alloc: Global, snapshot: Name, name: &str) -> Result<Value, StateStop>
        ensures call { CallsState (IsScreenAt V.stands A.tree self.old) (IsScreenAt V.stands A.tree self.new)
            (state_names self.old.program.states.items) name.now
            (λ x. Request.Read snapshot x) (read_answer result) }
        ensures applier { (self.new.applier ≡ self.old.applier) × (self.new.program ≡ self.old.program) }
    {
        read_state(alloc, self.program, &mut self.world, snapshot, name)
    }

    /// Writes the state `name` in the snapshot `snapshot`, and returns whether that changed it. The snapshot 0 is
    /// global.
    pub fn write(
        &mut self,
        alloc: Global,
        snapshot: Name,
        name: &str,
        value: Value,
    ) -> Result<bool, StateStop>
        ensures call { CallsState (IsScreenAt V.stands A.tree self.old) (IsScreenAt V.stands A.tree self.new)
            (state_names self.old.program.states.items) name.now
            (λ x. Request.Write snapshot x value) (write_answer result) }
        ensures applier { (self.new.applier ≡ self.old.applier) × (self.new.program ≡ self.old.program) }
    {
        write_state(alloc, self.program, &mut self.world, snapshot, name, value)
    }

    /// Takes a child of the snapshot `parent`, and returns its number.
    pub fn take(&mut self, alloc: Global, parent: Name, kind: Kind) -> Result<Name, Refusal>
        ensures call { (k : LastFrame) → Calls table (IsScreenAt V.stands A.tree self.old k)
            (IsScreenAt V.stands A.tree self.new k) 0 (Request.Take parent kind) (taken_reply result) }
        ensures applier { (self.new.applier ≡ self.old.applier) × (self.new.program ≡ self.old.program) }
    {
        self.world.take(alloc, 0, parent, kind)
    }

    /// Applies the changes of a snapshot to its parent.
    pub fn apply(&mut self, alloc: Global, snapshot: Name) -> Result<(), Refusal>
        ensures call { (k : LastFrame) → Calls table (IsScreenAt V.stands A.tree self.old k)
            (IsScreenAt V.stands A.tree self.new k) 0 (Request.Apply snapshot) (apply_reply result) }
        ensures applier { (self.new.applier ≡ self.old.applier) × (self.new.program ≡ self.old.program) }
    {
        self.world.apply(alloc, 0, snapshot)
    }

    /// Closes a snapshot. Changes that were not applied are lost.
    pub fn dispose(&mut self, snapshot: Name) -> Result<(), Refusal>
        ensures call { (k : LastFrame) → Calls table (IsScreenAt V.stands A.tree self.old k)
            (IsScreenAt V.stands A.tree self.new k) 0 (Request.Dispose snapshot) (dispose_reply result) }
        ensures applier { (self.new.applier ≡ self.old.applier) × (self.new.program ≡ self.old.program) }
    {
        self.world.dispose(0, snapshot)
    }

    /// Makes a frame: composes what changed in the values of the states, and changes the applier's tree (`recompose`).
    ///
    /// Fails with `Spent` if the world's clock is at its limit, with `TooManyGroups` if the program makes more than
    /// 1,000,000 groups, with `ApplierFault` if a call on the applier failed, or out of memory.
    pub fn frame<L: Ledger>(
        &mut self,
        alloc: Global,
        steps: &mut Steps<L>,
    ) -> Result<Report, FrameStop>
        ensures { MakesScreenFrame V.stands A.tree A.faults self.old self.new result }
    {
        make_frame(
            alloc,
            self.program,
            &mut self.composition,
            &mut self.world,
            &mut self.applier,
            steps,
        )
    }

    // Makes a frame with the ledger `blank` of steps, which nothing reads.
    fn frame_counting<L: Ledger>(
        &mut self,
        alloc: Global,
        blank: Blank,
    ) -> Result<Report, FrameStop>
        requires name { blank.name ≡ L.name }
        requires parts { blank.parts ≡ L.parts }
        requires some { 0 < L.parts }
        ensures { MakesScreenFrame V.stands A.tree A.faults self.old self.new result }
    {
        let (book, share) = blank.open();
        let mut steps: Steps<L> = Steps::new(book, share);
        self.frame(alloc, &mut steps)
    }

    /// Makes a frame without a count of steps. Fails like `frame`.
    pub fn frame_uncounted(&mut self, alloc: Global) -> Result<Report, FrameStop>
        ensures { MakesScreenFrame V.stands A.tree A.faults self.old self.new result }
    {
        self.frame_counting::<Brand>(alloc, Blank::new(1))
    }
}
