// The check of the names that steps use: states, snapshots, and with threads the owners of names.
ghost use Rattle.std.specs.Prelude.{◌≡◌, ℕ, Bool, List, [], ◌∷◌, None, Some, OnOk, IfOk, slice_get, if◌then◌else◌};
ghost use Rattle.lang_ast.specs.declared.program.State.{State as state_data};
ghost use Rattle.lang_script.specs.SnapshotNames.{NamedNumber, latest};
ghost use Rattle.lang_script.specs.ScriptFaults.{FirstUses, TextStep, CallStep, FrameStep, with_taker, with_framer, unknown_name, foreign_name, snapshot_faults, state_faults, add_faults, is_int, no_uses, uses_after_call, call_faults, frame_faults, text_calls, text_step, text_steps, text_form, text_forms, text_script, first_of_faults};
ghost use Rattle.lang_script.specs.NamesInMemory.{Holds};
ghost use Rattle.lang_script.specs.NameScans.{Scan, scan, scans, IsAt};

use crate::faults::{ScriptStop, first_fault_if};
use crate::limits::index_of;
use crate::names::NameTable;
use lang_ast::{CallForm, DoForm, ScriptForm, SnapshotRef, State, StepForm};
use rt_values::{Caller, NoMemory, ObjectNo, Ty, Word};
use std::alloc::Global;

// The state of the check before a step: the actor of the first take of each name, the actor of the first frame, and
// the fault so far that goes first.
#[derive(Drop)]
pub struct NameCheck<'a> {
    states: &'a [State],
    threads: bool,
    takers: NameTable,
    framer: Option<Caller>,
    pub least: Option<ScriptStop>,
}

// Updates `least` with the fault of a name without an earlier take.
fn unknown_fault(at: usize, taker: Option<Caller>, least: Option<ScriptStop>) -> Option<ScriptStop>
    ensures { result ≡ first_of_faults least (unknown_name at taker) }
{
    first_fault_if(least, taker.is_none(), ScriptStop::Unknown { at })
}

// Updates `least` with the fault of a name that another actor takes first.
fn foreign_fault(
    at: usize,
    actor: Caller,
    taker: Option<Caller>,
    least: Option<ScriptStop>,
) -> Option<ScriptStop>
    ensures { result ≡ first_of_faults least (foreign_name at actor taker) }
{
    match taker {
        None => least,
        Some(taker) => first_fault_if(least, taker != actor, ScriptStop::Actor { at }),
    }
}

// Whether a type is Int.
fn is_int(ty: Ty) -> bool
    ensures { result ≡ is_int ty }
{
    matches!(ty, Ty::Int)
}

// Updates `least` with the fault of an `add` on a state that is not an Int.
fn add_fault(
    states: &[State],
    at: usize,
    object: ObjectNo,
    least: Option<ScriptStop>,
) -> Option<ScriptStop>
    ensures { result ≡ first_of_faults least (add_faults at (slice_get states.now object)) }
{
    match states.get(object as usize) {
        None => least,
        Some(state) => first_fault_if(least, !is_int(state.ty), ScriptStop::Type { at }),
    }
}

impl<'a> NameCheck<'a> {
    /// Creates the state before the first step.
    pub fn new(alloc: Global, states: &'a [State], threads: bool, least: Option<ScriptStop>) -> Self
        ensures { IsAt threads states.now result (record { uses = no_uses; least = least }) }
    {
        NameCheck {
            states,
            threads,
            takers: NameTable::new(alloc),
            framer: None,
            least,
        }
    }

    // Updates `least` with the faults of the snapshot that a step is about.
    #[tactic(auto, using(crate::proofs::FirstFault::first_append))]
    fn snapshot_faults(
        &self,
        actor: Caller,
        at: usize,
        snapshot: &SnapshotRef,
        least: Option<ScriptStop>,
    ) -> Option<ScriptStop>
        ensures { (u : FirstUses) → Holds self.now.takers u.takers →
            result ≡ first_of_faults least (snapshot_faults self.now.threads u actor at snapshot.now) }
    {
        match snapshot {
            SnapshotRef::Global => least,
            SnapshotRef::Named(name) => {
                let taker = self.takers.get(name.text.bytes());
                let least = unknown_fault(at, taker, least);
                if self.threads {
                    foreign_fault(at, actor, taker, least)
                } else {
                    least
                }
            }
        }
    }

    // Updates `least` with the fault of a step that names an undeclared state.
    fn state_fault(
        &self,
        at: usize,
        object: ObjectNo,
        least: Option<ScriptStop>,
    ) -> Option<ScriptStop>
        ensures { result ≡ first_of_faults least (state_faults self.now.states.now at object) }
    {
        let is_unknown = object as usize >= self.states.len();
        first_fault_if(least, is_unknown, ScriptStop::Unknown { at })
    }

    // Updates `least` with the fault of a take of a name that another actor takes first.
    fn take_fault(
        &self,
        actor: Caller,
        at: usize,
        name: &Word,
        least: Option<ScriptStop>,
    ) -> Option<ScriptStop>
        ensures { (u : FirstUses) → Holds self.now.takers u.takers → let taker = latest u.takers name.now in
            result ≡ first_of_faults least (if self.now.threads then foreign_name at actor taker else []) }
    {
        if self.threads {
            foreign_fault(at, actor, self.takers.get(name.bytes()), least)
        } else {
            least
        }
    }

    // Updates `least` with the faults of a step without inner steps.
    #[tactic(auto, using(crate::proofs::FirstFault::first_append))]
    fn call_faults(
        &self,
        actor: Caller,
        call: &CallForm,
        least: Option<ScriptStop>,
    ) -> Option<ScriptStop>
        ensures { (u : FirstUses) → Holds self.now.takers u.takers →
            result ≡ first_of_faults least (call_faults self.now.threads self.now.states.now u actor call.now) }
    {
        match call {
            CallForm::Take {
                at,
                name,
                parent,
                ..
            } => {
                let least = self.snapshot_faults(actor, *at, parent, least);
                self.take_fault(actor, *at, &name.text, least)
            }
            CallForm::Read {
                at,
                snapshot,
                object,
                ..
            }
            | CallForm::Write {
                at,
                snapshot,
                object,
                ..
            } => {
                let least = self.snapshot_faults(actor, *at, snapshot, least);
                self.state_fault(*at, *object, least)
            }
            CallForm::Add {
                at,
                snapshot,
                object,
                ..
            } => {
                let least = self.snapshot_faults(actor, *at, snapshot, least);
                let least = self.state_fault(*at, *object, least);
                add_fault(self.states, *at, *object, least)
            }
            CallForm::Apply { at, snapshot } | CallForm::Dispose { at, snapshot } => {
                self.snapshot_faults(actor, *at, snapshot, least)
            }
        }
    }

    // Notes the actor of a take, if it is the first take of that name.
    fn note_taker(&mut self, alloc: Global, actor: Caller, call: &CallForm) -> Result<(), NoMemory>
        ensures takers { (u : FirstUses) → Holds self.old.takers u.takers →
            OnOk result (Holds self.new.takers (uses_after_call u actor call.now).takers) }
        ensures framer { OnOk result (self.new.framer ≡ self.old.framer) }
        ensures least { OnOk result (self.new.least ≡ self.old.least) }
        ensures threads { OnOk result (self.new.threads ≡ self.old.threads) }
        ensures states { OnOk result (self.new.states.now ≡ self.old.states.now) }
    {
        if let CallForm::Take { name, .. } = call {
            if self.takers.get(name.text.bytes()).is_none() {
                self.takers.put(alloc, name.text.bytes(), actor)?;
            }
        }
        Ok(())
    }

    // Checks a step without inner steps.
    fn check_call(&mut self, alloc: Global, actor: Caller, call: &CallForm) -> Result<(), NoMemory>
        ensures { (threads : Bool) (states : List state_data) (s : Scan) → IsAt threads states self.old s →
            OnOk result (IsAt threads states self.new (scan threads states s (CallStep actor call.now))) }
    {
        self.least = self.call_faults(actor, call, self.least);
        self.note_taker(alloc, actor, call)
    }

    // Checks a frame.
    fn check_frame(&mut self, actor: Caller, at: usize)
        ensures { (threads : Bool) (states : List state_data) (s : Scan) → IsAt threads states self.old s →
            IsAt threads states self.new (scan threads states s (FrameStep actor at)) }
    {
        if self.threads {
            self.least = foreign_fault(at, actor, self.framer, self.least);
        }
        if self.framer.is_none() {
            self.framer = Some(actor);
        }
    }

    // Checks steps without inner steps.
    fn check_calls(
        &mut self,
        alloc: Global,
        actor: Caller,
        calls: &[CallForm],
    ) -> Result<(), NoMemory>
        ensures { (threads : Bool) (states : List state_data) (s : Scan) → IsAt threads states self.old s →
            OnOk result (IsAt threads states self.new (scans threads states s (text_calls actor calls.now))) }
    {
        let mut rest = calls;
        while let Some((call, more)) = rest.split_first() {
            self.check_call(alloc, actor, call)?;
            rest = more;
        }
        Ok(())
    }

    // Checks a step that a repeat may contain.
    fn check_step(&mut self, alloc: Global, actor: Caller, step: &StepForm) -> Result<(), NoMemory>
        ensures { (threads : Bool) (states : List state_data) (s : Scan) → IsAt threads states self.old s →
            OnOk result (IsAt threads states self.new (scans threads states s (text_step actor step.now))) }
    {
        match step {
            StepForm::Call(call) => self.check_call(alloc, actor, call),
            StepForm::Frame { at } => {
                self.check_frame(actor, *at);
                Ok(())
            }
            StepForm::FrameDuring { at, during } => {
                self.check_frame(actor, *at);
                self.check_calls(alloc, actor, during.items())
            }
        }
    }

    // Checks the steps of a repeat.
    fn check_steps(
        &mut self,
        alloc: Global,
        actor: Caller,
        steps: &[StepForm],
    ) -> Result<(), NoMemory>
        ensures { (threads : Bool) (states : List state_data) (s : Scan) → IsAt threads states self.old s →
            OnOk result (IsAt threads states self.new (scans threads states s (text_steps actor steps.now))) }
    {
        let mut rest = steps;
        while let Some((step, more)) = rest.split_first() {
            self.check_step(alloc, actor, step)?;
            rest = more;
        }
        Ok(())
    }

    // Checks a step or a repeat.
    fn check_form(
        &mut self,
        alloc: Global,
        actor: Caller,
        form: &ScriptForm,
    ) -> Result<(), NoMemory>
        ensures { (threads : Bool) (states : List state_data) (s : Scan) → IsAt threads states self.old s →
            OnOk result (IsAt threads states self.new (scans threads states s (text_form actor form.now))) }
    {
        match form {
            ScriptForm::Once(step) => self.check_step(alloc, actor, step),
            ScriptForm::Repeat { steps, .. } => self.check_steps(alloc, actor, steps.items()),
        }
    }

    // Checks the steps of an actor.
    fn check_forms(
        &mut self,
        alloc: Global,
        actor: Caller,
        forms: &[ScriptForm],
    ) -> Result<(), NoMemory>
        ensures { (threads : Bool) (states : List state_data) (s : Scan) → IsAt threads states self.old s →
            OnOk result (IsAt threads states self.new (scans threads states s (text_forms actor forms.now))) }
    {
        let mut rest = forms;
        while let Some((form, more)) = rest.split_first() {
            self.check_form(alloc, actor, form)?;
            rest = more;
        }
        Ok(())
    }

    /// Checks the steps of all forms. `actors` are the names of the actors by number.
    pub fn check_script(
        &mut self,
        alloc: Global,
        actors: &[Word],
        forms: &[DoForm],
    ) -> Result<(), NoMemory>
        ensures { (threads : Bool) (states : List state_data) (s : Scan) → IsAt threads states self.old s →
            OnOk result (IsAt threads states self.new (scans threads states s (text_script actors.now forms.now))) }
    {
        let mut rest = forms;
        while let Some((form, more)) = rest.split_first() {
            let actor = index_of(form.actor.text.bytes(), actors) as u64;
            self.check_forms(alloc, actor, form.steps.items())?;
            rest = more;
        }
        Ok(())
    }
}
