// Records that may be overwritten.
ghost use Rattle.std.specs.Prelude.{◌≡◌, ◌≢◌, ◌<◌, ℕ, true, IsSome, IfSome, OnOk, OnErr, length};
ghost use Rattle.slab.specs.Slab.{get};
ghost use Rattle.snap_records.specs.Records.{AreApart};
ghost use Rattle.snap_records.specs.Chains.{keys_at, chain_of};
ghost use Rattle.rt_values.specs.Maps.{contains};
ghost use Rattle.snap_reuse.specs.Readers.{is_read_by, is_read, lower_record, IsLowestUnread, IsReusable, PutsKeeping};

use crate::{Readers, RecordReader};
use rt_values::{NoMemory, ObjectNo, Value};
use snap_records::{Chains, KeptIds, RecordNo};

// Returns whether the readable record of `reader` has this id.
fn is_read_by(chains: &Chains, x: ObjectNo, id: u64, reader: &RecordReader) -> bool
    requires { x < length chains.now.heads.items }
    ensures { result ≡ is_read_by (chain_of chains.now x) id reader.now }
{
    match chains.readable(x, reader.id, &reader.invalid) {
        Some(record) => chains.id(record) == id,
        None => false,
    }
}

/// Returns whether a reader reads the record of object `x` with this id.
pub fn is_read(chains: &Chains, x: ObjectNo, id: u64, readers: &Readers) -> bool
    requires { x < length chains.now.heads.items }
    ensures { result ≡ is_read (chain_of chains.now x) id readers.now }
{
    for reader in readers.items() {
        if is_read_by(chains, x, id, reader) {
            return true;
        }
    }
    false
}

// Returns `r` if no reader reads it and its id is lower than that of `best`, and else `best`.
fn lower_record(
    chains: &Chains,
    r: RecordNo,
    best: Option<RecordNo>,
    is_unread: bool,
) -> Option<RecordNo>
    requires there { IsSome (get chains.now.slots r.0) }
    requires behind { IfSome best (λ b. IsSome (get chains.now.slots b.0)) }
    ensures is { result ≡ lower_record chains.now r best is_unread }
    ensures there { IfSome result (λ b. IsSome (get chains.now.slots b.0)) }
{
    if !is_unread {
        return best;
    }
    match best {
        Some(other) if chains.id(other) <= chains.id(r) => best,
        _ => Some(r),
    }
}

// Returns the record of object `x` with the lowest id that no reader reads.
fn lowest_unread(chains: &Chains, x: ObjectNo, readers: &Readers) -> Option<RecordNo>
    requires { x < length chains.now.heads.items }
    ensures is { IsLowestUnread chains.now x readers.now (length (keys_at chains.now x)) result }
    ensures there { IfSome result (λ r. IsSome (get chains.now.slots r.0)) }
{
    let mut best = None;
    for i in 0..chains.count(x) {
        let r = chains.at(x, i);
        let is_unread = !is_read(chains, x, chains.id(r), readers);
        best = lower_record(chains, r, best, is_unread);
    }
    best
}

/// Returns a record of object `x` that may be overwritten: one with id 0, or else the one with the lowest id that no
/// reader reads. Takes no memory.
pub fn reusable(chains: &Chains, x: ObjectNo, readers: &Readers) -> Option<RecordNo>
    requires { x < length chains.now.heads.items }
    ensures is { IsReusable chains.now x readers.now result }
    ensures there { IfSome result (λ r. IsSome (get chains.now.slots r.0)) }
{
    match chains.find(x, 0) {
        Some(r) => Some(r),
        None => lowest_unread(chains, x, readers),
    }
}

/// Puts a record into the chain of object `x`, with an id that `kept` contains. The record takes the place of the one
/// with the same id, or else of one whose id is not in `kept`, or else is put before the others. The other records
/// whose ids are not in `kept` get id 0. After `NoMemory` all chains are unchanged.
pub fn put(
    chains: &mut Chains,
    x: ObjectNo,
    id: u64,
    value: Value,
    stamp: u64,
    kept: &KeptIds,
) -> Result<(), NoMemory>
    requires object { x < length chains.old.heads.items }
    requires own { contains id kept.now ≡ true }
    ensures ok { OnOk result (AreApart (chain_of chains.old x) → 0 < id
        → PutsKeeping (chain_of chains.old x) (chain_of chains.new x)
        (record { id = id; entry = record { value = value; stamp = stamp } }) kept.now) }
    ensures others { (y : ℕ) → y ≢ x → chain_of chains.new y ≡ chain_of chains.old y }
    ensures err { OnErr result ((y : ℕ) → chain_of chains.new y ≡ chain_of chains.old y) }
    ensures many { length chains.new.heads.items ≡ length chains.old.heads.items }
{
    match chains.keep(x, id, kept) {
        Some(r) => {
            chains.overwrite(r, id, value, stamp);
            Ok(())
        }
        None => match chains.prepend(x, id, value, stamp) {
            Ok(_) => Ok(()),
            Err(_) => Err(NoMemory),
        },
    }
}
