// Numbers of snapshots, state objects, watchers and callers, and the error `NoMemory`.
ghost use Rattle.std.specs.Prelude.{◌≡◌};
ghost use Rattle.rt_values.specs.Keywords.{kind_word};

use std::alloc::{AllocError, AllocFailed};
use thiserror::Error;

/// The number of a snapshot. The global snapshot is 0, and the others get 1, 2, .. in the order in which they are
/// taken. A name is a handle that never changes, unlike Compose's `SnapshotId`, which advances while a snapshot is
/// open.
pub type Name = u64;

/// The number of a state object, from 0 in the order in which the objects are created.
pub type ObjectNo = u64;

/// The number of a watcher, from 0. A watcher asks which objects changed since its last request, as the recomposer
/// does by its apply observer. Numbered watchers are a rule of this project.
pub type WatcherNo = u64;

/// The number of the actor that makes a call. Only the owner of a snapshot may use it, a rule of this project.
pub type Caller = u64;

/// The kind of a snapshot: whether it can be written (`MutableSnapshot` and `ReadonlySnapshot`).
#[derive(Clone, Copy, Debug, PartialEq, Eq)]
pub enum Kind {
    Mutable,
    Readonly,
}

impl Kind {
    /// Returns the keyword of the kind.
    pub fn word(self) -> &'static [u8]
        ensures { result.now ≡ kind_word self }
    {
        match self {
            Kind::Mutable => b"mutable",
            Kind::Readonly => b"readonly",
        }
    }
}

/// The error that an allocation failed.
#[derive(Clone, Copy, Debug, PartialEq, Eq, Error)]
#[error("out of memory")]
pub struct NoMemory;

impl From<AllocError> for NoMemory {
    fn from(_: AllocError) -> Self {
        NoMemory
    }
}

impl<T: Drop> From<AllocFailed<T>> for NoMemory {
    fn from(_: AllocFailed<T>) -> Self {
        NoMemory
    }
}
