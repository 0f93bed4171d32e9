// Runs of groups that stay, and lists that keep only the items of such runs.
ghost use Rattle.std.specs.Prelude.{◌≡◌, ◌≤◌, ◌+◌, ◌-◌, ◌++◌, length, take, drop};
ghost use Rattle.std.specs.Vec.Iter.{into_iter_items};
ghost use Rattle.slot_table.specs.KeptRuns.{patched, IsShrunk, HasBlocks, after_exchange};

use gap_buffer::GapBuf;
use std::alloc::Global;
use std::vec::IntoIter;

// Groups of the table that stay: those from index `from` to before index `to`.
#[derive(Clone, Copy)]
pub(crate) struct KeptRun {
    // The number of new groups between the previous run and this run.
    pub(crate) gap: usize,
    pub(crate) from: usize,
    pub(crate) to: usize,
}

// Two blocks of groups that follow each other and are exchanged: those from index `from` to before index `middle`, and
// those from index `middle` to before index `to`.
#[derive(Clone, Copy)]
pub(crate) struct Exchange {
    pub(crate) from: usize,
    pub(crate) middle: usize,
    pub(crate) to: usize,
}

// Keeps only the items of the runs, and puts the new items of each gap before its run and the other new items after
// the last run. `len` is the number of items afterwards. Takes no memory. Takes time linear in `len` and the number of
// items that are dropped.
pub(crate) fn shrink_items<T>(items: &mut GapBuf<T>, fresh: Vec<T>, runs: &[KeptRun], len: usize)
where
    T: Drop,
    requires { IsShrunk items.old.items fresh.items runs.now len }
    ensures { items.new.items ≡ patched items.old.items fresh.items runs.now }
{
    let mut fresh = fresh.into_iter();
    let mut at = 0;
    for run in runs {
        put_items(items, at, run.gap, &mut fresh);
        at += run.gap;
        move_items(items, at, run.from, run.to);
        at += run.to - run.from;
    }
    put_items(items, at, len - at, &mut fresh);
    items.truncate(len);
}

// Exchanges the two blocks of items. Takes no memory. Takes time linear in the number of their items.
pub(crate) fn exchange_items<T>(items: &mut GapBuf<T>, exchange: Exchange)
    requires { HasBlocks items.old.items exchange }
    ensures { items.new.items ≡ after_exchange exchange items.old.items }
{
    let Exchange { from, middle, to } = exchange;
    items.move_range(middle, from, to - middle);
}

// Puts the next `count` items of `fresh` at index `at` and the indexes after it.
fn put_items<T>(items: &mut GapBuf<T>, at: usize, count: usize, fresh: &mut IntoIter<T>)
where
    T: Drop,
    requires inside { at + count ≤ length items.old.items }
    requires enough { count ≤ length (into_iter_items fresh.old) }
    ensures long { length items.new.items ≡ length items.old.items }
    ensures before { take (at + count) items.new.items
        ≡ take at items.old.items ++ take count (into_iter_items fresh.old) }
    ensures after { drop (at + count) items.new.items ≡ drop (at + count) items.old.items }
    ensures rest { into_iter_items fresh.new ≡ drop count (into_iter_items fresh.old) }
{
    let _length = items.len();
    for i in 0..count {
        match fresh.next() {
            Some(item) => items.set(at + i, item),
            None => unreachable!(),
        }
    }
}

// Moves the items from index `from` to before index `to` down to index `at`. The items between change their order.
fn move_items<T>(items: &mut GapBuf<T>, at: usize, from: usize, to: usize)
where
    T: Drop,
    requires down { at ≤ from }
    requires order { from ≤ to }
    requires inside { to ≤ length items.old.items }
    ensures long { length items.new.items ≡ length items.old.items }
    ensures before { take (at + (to - from)) items.new.items
        ≡ take at items.old.items ++ take (to - from) (drop from items.old.items) }
    ensures after { drop to items.new.items ≡ drop to items.old.items }
{
    if at == from {
        return;
    }
    for i in from..to {
        items.swap(at + (i - from), i);
    }
}
