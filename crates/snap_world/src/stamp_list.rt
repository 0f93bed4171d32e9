// The stamps that a watcher saw last.
ghost use Rattle.std.specs.Prelude.{◌≡◌, ◌<◌, Some, length, slice_set, IfOk};

use rt_values::{NoMemory, WatcherNo};
use std::alloc::Global;
use std::marker::Model;
use std::mem::replace;

/// A stamp for each object.
#[derive(Drop)]
pub struct StampList {
    stamps: Vec<u64>,
}

impl Model for StampList {
    ghost use Rattle.std.specs.Prelude.{List, ℕ};

    ghost Value = { List ℕ };

    ghost view = { λ s. s.stamps.items };
}

impl StampList {
    /// Returns a copy of `stamps` in the memory of `spare`.
    pub fn copy_into(spare: Vec<u64>, stamps: &[u64]) -> Result<Self, NoMemory>
        ensures { IfOk result (λ s. s ≡ stamps.now) }
    {
        let mut copy = spare;
        copy.clear();
        copy.extend_from_slice(stamps)?;
        Ok(StampList { stamps: copy })
    }

    /// Returns the stamps, in order.
    pub fn items(&self) -> &[u64]
        ensures { result.now ≡ self.now }
    {
        &self.stamps
    }

    /// Returns the memory of the list, with the stamps.
    pub fn into_items(self) -> Vec<u64>
        ensures { result.items ≡ self }
    {
        self.stamps
    }
}

/// Replaces the last stamps of a watcher. Returns the memory of those before.
pub fn replace_last(
    alloc: Global,
    lasts: &mut Vec<Option<StampList>>,
    watcher: WatcherNo,
    stamps: StampList,
) -> Vec<u64>
    requires { watcher < length lasts.old.items }
    ensures { lasts.new.items ≡ slice_set lasts.old.items watcher (Some stamps) }
{
    match replace(&mut lasts[watcher as usize], Some(stamps)) {
        Some(before) => before.into_items(),
        None => Vec::new(alloc),
    }
}
