// Scopes that depend on objects.
use read_links::Links;
use rt_values::NoMemory;
use std::alloc::Global;
use std::test::Fail;

// Whether these are the scopes of the object of each row.
fn has_scopes(links: &Links, rows: &[(u64, &[usize])]) -> bool {
    for (object, scopes) in rows {
        if links.scopes_of(*object) != *scopes {
            return false;
        }
    }
    true
}

// Puts three scopes, reserves capacity after the first, and drops this one before the third.
fn put_reserved(alloc: Global, links: &mut Links) -> Result<(), NoMemory> {
    links.put(alloc, 1, &[7])?;
    links.reserve(alloc, 4)?;
    links.put(alloc, 2, &[7, 8])?;
    links.drop_scope(1);
    links.put(alloc, 3, &[7, 9])
}

#[test]
fn reserved_pairs_are_put(rt: HostRuntime) -> Result<(), Fail> {
    let alloc = rt.alloc();
    let mut links = Links::new(alloc);
    put_reserved(alloc, &mut links)?;
    assert!(rt; has_scopes(&links, &[(7, &[2, 3]), (8, &[2]), (9, &[3])]));
    Ok(())
}
