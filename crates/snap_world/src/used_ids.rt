// The ids of the records of all objects.
ghost use Rattle.std.specs.Prelude.{◌≡◌, ℕ, ◌<◌, true, length, OnOk};
ghost use Rattle.rt_values.specs.Maps.{contains};
ghost use Rattle.snap_records.specs.Chains.{chain_of};
ghost use Rattle.snap_records.specs.Records.{Rec, Has};

use rt_values::{NoMemory, ObjectNo};
use snap_ids::IdSet;
use snap_records::Chains;

// Adds the ids of the records of object `x` to `used`.
fn add_chain_ids(chains: &Chains, x: ObjectNo, used: &mut IdSet) -> Result<(), NoMemory>
    requires { x < length chains.now.heads.items }
    ensures more { OnOk result ((i : ℕ) → contains i used.old ≡ true → contains i used.new ≡ true) }
    ensures all { OnOk result ((p : Rec) → Has (chain_of chains.now x) p → contains p.id used.new ≡ true) }
{
    for i in 0..chains.count(x) {
        used.set(chains.id_at(x, i))?;
    }
    Ok(())
}

/// Adds the ids of the records of all objects to `used`. After `NoMemory` the set may have some of them.
pub fn add_record_ids(chains: &Chains, used: &mut IdSet) -> Result<(), NoMemory>
    ensures more { OnOk result ((i : ℕ) → contains i used.old ≡ true → contains i used.new ≡ true) }
    ensures all { OnOk result ((x : ℕ) (p : Rec) → Has (chain_of chains.now x) p → contains p.id used.new ≡ true) }
{
    for x in 0..chains.objects() {
        add_chain_ids(chains, x as u64, used)?;
    }
    Ok(())
}

/// Returns how many records the objects have.
pub fn count_records(chains: &Chains) -> u64 {
    let mut count: u64 = 0;
    for x in 0..chains.objects() {
        count = count.saturating_add(chains.count(x as u64) as u64);
    }
    count
}
