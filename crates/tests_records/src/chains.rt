// The readable record of a chain.
use rt_values::{NoMemory, Value};
use snap_ids::IdSet;
use snap_records::Chains;
use std::alloc::Global;
use std::test::Fail;

// Prepends a record to the chain of object 0. If `id` is 0, the record has the id 9 first, and is made invalid.
fn prepend(chains: &mut Chains, id: u64) -> Result<(), NoMemory> {
    if chains.objects() > 0 {
        let first_id = if id == 0 { 9 } else { id };
        let record = chains.prepend(0, first_id, Value::Int(1), first_id)?;
        if id == 0 {
            chains.invalidate(record);
        }
    }
    Ok(())
}

/// Makes the chain of object 0 of records with these ids, each of which is prepended to those before it. A record with
/// id 0 is invalid.
pub fn chain_of(alloc: Global, ids: &[u64]) -> Result<Chains, NoMemory> {
    let mut chains = Chains::new(alloc);
    chains.add_object(alloc)?;
    for id in ids {
        prepend(&mut chains, *id)?;
    }
    Ok(chains)
}

// Whether `id` reads the record of object 0 with the id `expected` if `invalid` is invalid, or none if that is `None`.
fn reads(alloc: Global, chains: &Chains, id: u64, invalid: u64, expected: Option<u64>) -> bool {
    match IdSet::of(alloc, invalid) {
        Ok(invalid) => {
            chains.objects() > 0
                && chains.readable(0, id, &invalid).map(|r| chains.id(r)) == expected
        }
        Err(_) => false,
    }
}

// The id, an invalid id, and the id of the readable record.
static READABLE: [(u64, u64, Option<u64>); 6] = [
    (6, 0, Some(5)),
    (6, 5, Some(2)),
    (1, 0, None),
    (9, 0, Some(7)),
    (2, 0, Some(2)),
    (2, 2, None),
];

#[test]
fn the_highest_valid_record_is_read(rt: HostRuntime) -> Result<(), Fail> {
    let chains = chain_of(rt.alloc(), &[5, 2, 7])?;
    for (id, invalid, expected) in READABLE.as_slice() {
        assert!(rt; reads(rt.alloc(), &chains, *id, *invalid, *expected));
    }
    Ok(())
}
