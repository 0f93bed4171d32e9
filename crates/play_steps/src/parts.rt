// The parts of steps.

use lang_ast::SnapshotRef;
use rt_values::{Caller, Kind, ObjectNo, Value, Word};

/// A part of a step, which makes at most one call. An `add` is a read and a write of the sum. A frame is the take of
/// its snapshot, the inner steps and the dispose of that snapshot. A rule of this project.
#[derive(Clone, Copy)]
pub enum StepPart<'a> {
    /// Takes a snapshot of `parent`, which `name` represents from then on.
    Take {
        name: &'a Word,
        kind: Kind,
        parent: &'a SnapshotRef,
    },
    /// Reads an object in a snapshot.
    Read {
        snapshot: &'a SnapshotRef,
        object: ObjectNo,
    },
    /// Writes an object in a snapshot.
    Write {
        snapshot: &'a SnapshotRef,
        object: ObjectNo,
        value: &'a Value,
    },
    /// Writes the sum of `amount` and the value of the last read, if the read gave a number.
    WriteSum {
        snapshot: &'a SnapshotRef,
        object: ObjectNo,
        amount: i64,
    },
    /// Applies a snapshot to its parent.
    Apply {
        snapshot: &'a SnapshotRef,
    },
    /// Disposes a snapshot.
    Dispose {
        snapshot: &'a SnapshotRef,
    },
    /// Takes the snapshot of a frame.
    BeginFrame,
    /// Disposes the snapshot of the open frame, if there is one.
    EndFrame,
}

/// A part of a step, with the number of its actor.
#[derive(Clone, Copy)]
pub struct ActorStep<'a> {
    pub actor: Caller,
    pub part: StepPart<'a>,
}
