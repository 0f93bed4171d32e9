// Which form the changes of a table can take.
ghost use Rattle.std.specs.Prelude.{◌≡◌, ◌<◌, ◌+◌, ◌^◌, ◌∷◌, length, slice_index_or, true, IfSome};
ghost use Rattle.slot_table.specs.TableGroups.{group_at};
ghost use Rattle.slot_table.specs.KeptRuns.{HaveOwnIndexes, KeepDepths, MoveDown, AreExchanged, AreOutside};

use crate::runs::{Exchange, KeptRun};
use crate::storage::TableBuilder;
use crate::table::Table;

// Returns whether the changes can be made in place: there are as many groups as before, each kept group keeps its
// index, and each new group has the depth of the old group at its place. `len` is the number of groups of the new
// frame.
pub(crate) fn fits_in_place(
    table: &Table,
    fresh: &TableBuilder,
    places: &[usize],
    runs: &[KeptRun],
    len: usize,
) -> bool
    requires { length places.now ≡ length fresh.now }
    ensures size { result ≡ true → len ≡ length table.now.groups }
    ensures own { result ≡ true → HaveOwnIndexes 0 runs.now }
    ensures depths { result ≡ true → KeepDepths table.now.groups places.now fresh.now }
{
    len == table.len() && have_own_indexes(0, runs) && keep_depths(table, fresh, places)
}

// Returns whether each kept group has the same index in the new frame, if `at` groups are before the runs.
fn have_own_indexes(at: usize, runs: &[KeptRun]) -> bool
    ensures { result ≡ true → HaveOwnIndexes at runs.now }
{
    let mut at = at;
    for run in runs {
        if run.from < at || run.from - at != run.gap {
            return false;
        }
        at = run.to;
    }
    true
}

// Returns the exchange of two blocks that gives each kept group its index in the new frame, if there is any. Takes time
// linear in the number of runs.
pub(crate) fn find_exchange(runs: &[KeptRun]) -> Option<Exchange>
    ensures { IfSome result (λ e. AreExchanged 0 runs.now e) }
{
    let mut at = 0;
    let mut left = runs;
    while let Some((run, later)) = left.split_first() {
        if !starts_after(*run, at) {
            return exchange_of(at, *run, later);
        }
        at = run.to;
        left = later;
    }
    None
}

// Returns whether the run starts at index `at` plus its gap.
fn starts_after(run: KeptRun, at: usize) -> bool
    ensures { result ≡ true → run.from ≡ at + run.gap }
{
    at <= run.from && run.from - at == run.gap
}

// Returns the exchange of the groups of `run` and of the first run of `later`, if the exchange gives each group of the
// runs its index in the new frame. `at` groups of the new frame are before the gap of `run`.
fn exchange_of(at: usize, run: KeptRun, later: &[KeptRun]) -> Option<Exchange>
    ensures { IfSome result (λ e. AreExchanged at (run ∷ later.now) e) }
{
    let Some((next, others)) = later.split_first() else {
        return None;
    };
    let both = KeptRun {
        gap: run.gap,
        from: next.from,
        to: run.to,
    };
    if next.gap != 0 || next.to != run.from || !starts_after(both, at) {
        return None;
    }
    if next.to <= next.from || run.to <= run.from || !have_own_indexes(run.to, others) {
        return None;
    }
    Some(Exchange {
        from: next.from,
        middle: run.from,
        to: run.to,
    })
}

// Returns whether the changes can be made by putting each new group at its place and then exchanging the two blocks:
// there are as many groups as before, their number fits in 32 bits, and each new group is outside the blocks and has
// the depth of the old group at its place. `len` is the number of groups of the new frame.
pub(crate) fn fits_around(
    table: &Table,
    fresh: &TableBuilder,
    places: &[usize],
    exchange: Exchange,
    len: usize,
) -> bool
    requires { length places.now ≡ length fresh.now }
    ensures size { result ≡ true → len ≡ length table.now.groups }
    ensures small { result ≡ true → len < 2 ^ 32 }
    ensures outside { result ≡ true → AreOutside exchange places.now }
    ensures depths { result ≡ true → KeepDepths table.now.groups places.now fresh.now }
{
    len == table.len()
        && len <= u32::MAX as usize
        && are_outside(exchange, places)
        && keep_depths(table, fresh, places)
}

// Returns whether each place is outside the blocks of the exchange.
fn are_outside(exchange: Exchange, places: &[usize]) -> bool
    ensures { result ≡ true → AreOutside exchange places.now }
{
    for place in places {
        if exchange.from <= *place && *place < exchange.to {
            return false;
        }
    }
    true
}

// Returns whether each new group has the depth of the old group at its place.
fn keep_depths(table: &Table, fresh: &TableBuilder, places: &[usize]) -> bool
    requires { length places.now ≡ length fresh.now }
    ensures { result ≡ true → KeepDepths table.now.groups places.now fresh.now }
{
    for i in 0..fresh.len() {
        if !keeps_depth(table, places[i], fresh.depth(i)) {
            return false;
        }
    }
    true
}

// Returns whether there is a group at index `place` and has this depth.
fn keeps_depth(table: &Table, place: usize, depth: u32) -> bool
    ensures { result ≡ true → (place < length table.now.groups) × (depth ≡ (group_at table.now.groups place).depth) }
{
    place < table.len() && table.depth(place) == depth
}

// Returns whether the table can be shrunk: there are fewer groups than before, their number fits in 32 bits, and no
// kept group moves to a later index. `len` is the number of groups of the new frame.
pub(crate) fn shrinks(table: &Table, runs: &[KeptRun], len: usize) -> bool
    ensures fewer { result ≡ true → len < length table.now.groups }
    ensures small { result ≡ true → len < 2 ^ 32 }
    ensures down { result ≡ true → MoveDown 0 0 runs.now }
{
    len < table.len() && len <= u32::MAX as usize && move_down(runs)
}

// Returns whether no kept group moves to a later index, and each run is after the previous run in the table too.
fn move_down(runs: &[KeptRun]) -> bool
    ensures { result ≡ true → MoveDown 0 0 runs.now }
{
    let mut at = 0;
    let mut past = 0;
    for run in runs {
        if run.from < past || run.to < run.from || run.from - at < run.gap {
            return false;
        }
        at += run.gap + (run.to - run.from);
        past = run.to;
    }
    true
}
