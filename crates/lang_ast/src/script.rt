// Scripts as data: the steps of actors, as the source text has them.

use crate::Ident;
use rt_values::{Items, Kind, ObjectNo, Value};

/// The snapshot that a step is about.
#[derive(Drop)]
pub enum SnapshotRef {
    /// The global snapshot (`GlobalSnapshot`).
    Global,
    /// The snapshot that the latest take of this name gave.
    Named(Ident),
}

/// A step without inner steps. In each step, `object` is the number of the first state with the given name, or the
/// number of states if no state has it.
#[derive(Drop)]
pub enum CallForm {
    /// Takes a snapshot of `parent`, which the name represents from then on (`takeNestedSnapshot`).
    Take {
        at: usize,
        name: Ident,
        kind: Kind,
        parent: SnapshotRef,
    },
    /// Reads a state in a snapshot.
    Read {
        at: usize,
        snapshot: SnapshotRef,
        state: Ident,
        object: ObjectNo,
    },
    /// Writes a state in a snapshot.
    Write {
        at: usize,
        snapshot: SnapshotRef,
        state: Ident,
        object: ObjectNo,
        value: Value,
    },
    /// Reads a state in a snapshot. If the read gives a number, writes the sum of it and `amount`, wrapped to 64 bits.
    Add {
        at: usize,
        snapshot: SnapshotRef,
        state: Ident,
        object: ObjectNo,
        amount: i64,
    },
    /// Applies a snapshot to its parent (`MutableSnapshot.apply`).
    Apply {
        at: usize,
        snapshot: SnapshotRef,
    },
    /// Disposes a snapshot (`Snapshot.dispose`).
    Dispose {
        at: usize,
        snapshot: SnapshotRef,
    },
}

/// Steps without inner steps, in order.
pub type CallForms = Items<CallForm>;

/// A step that a `repeat` may contain.
#[derive(Drop)]
pub enum StepForm {
    /// A step without inner steps.
    Call(CallForm),
    /// A frame of the composition (`Recomposer`), without a `during` form.
    Frame { at: usize },
    /// A frame with the steps that are made after its snapshot is taken and before it is composed.
    FrameDuring { at: usize, during: CallForms },
}

/// Steps that a `repeat` may contain, in order.
pub type StepForms = Items<StepForm>;

/// A step of an actor.
#[derive(Drop)]
pub enum ScriptForm {
    /// A step that is made once.
    Once(StepForm),
    /// Steps that are made `times` times in a row. A number of less than 1 or more than 1,000 is a fault of the script.
    Repeat {
        at: usize,
        times: i64,
        steps: StepForms,
    },
}

/// The steps of an actor, in order.
pub type ScriptForms = Items<ScriptForm>;

/// A part of a script: the steps of one actor. A rule of this project: scripts take the place of test code.
#[derive(Drop)]
pub struct DoForm {
    /// The offset of the form.
    pub at: usize,
    /// The actor's name.
    pub actor: Ident,
    /// The actor's steps.
    pub steps: ScriptForms,
}

/// The script that follows a program in a source text, before it is checked.
#[derive(Drop)]
pub struct Rest {
    /// The `do` forms, in order. There may be none.
    pub forms: Vec<DoForm>,
    /// The offset of the first token of the script that exceeds a limit. The forms have a clamped token in its place,
    /// and the script is rejected.
    pub first_oversized: Option<usize>,
}
