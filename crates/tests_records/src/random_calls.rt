// Random calls on both worlds, from a seeded generator.
use rt_values::{Kind, Name, NoMemory, Ty, Value};
use snap_api::{Reply, Request, Versions};
use snap_plain::PlainWorld;
use snap_policy::BuiltIn;
use snap_world::RecordWorld;
use std::alloc::Global;
use std::test::Fail;

const SEEDS: [u64; 10] = [1, 2, 3, 5, 8, 13, 21, 34, 55, 89];

const OBJECTS: u64 = 4;

const POLICIES: [BuiltIn; 4] = [
    BuiltIn::Structural,
    BuiltIn::Counter,
    BuiltIn::Largest,
    BuiltIn::Never,
];

// A linear congruential generator.
#[derive(Drop)]
struct Numbers {
    state: u64,
}

impl Numbers {
    // Returns a number below `bound`, which is not 0.
    fn below(&mut self, bound: u64) -> u64 {
        self.state = self
            .state
            .wrapping_mul(6364136223846793005)
            .wrapping_add(1442695040888963407);
        if bound == 0 {
            return 0;
        }
        (self.state >> 33) % bound
    }
}

// One of five numbers.
fn number(numbers: &mut Numbers) -> i64 {
    match numbers.below(5) {
        0 => 0,
        1 => 1,
        2 => 2,
        3 => 3,
        _ => -7,
    }
}

// A call on one of `names` snapshots. Most names are of the last six snapshots.
fn request(numbers: &mut Numbers, names: u64) -> Request {
    let recent = names.saturating_sub(numbers.below(6).saturating_add(1));
    let name = match numbers.below(4) {
        0 => 0,
        1 => numbers.below(names.saturating_add(1)),
        _ => recent,
    };
    let object = numbers.below(OBJECTS + 1);
    match numbers.below(14) {
        0 => Request::Take {
            parent: name,
            kind: Kind::Mutable,
        },
        1 => Request::Take {
            parent: name,
            kind: Kind::Readonly,
        },
        2 => Request::TakeFor {
            watcher: numbers.below(3),
        },
        3 | 4 => Request::Read { name, object },
        5 | 6 | 7 => Request::Write {
            name,
            object,
            value: Value::Int(number(numbers)),
        },
        8 | 9 => Request::Apply { name },
        _ => Request::Dispose { name },
    }
}

// Whether two replies are equal.
fn same(one: &Reply, other: &Reply) -> bool {
    match (one, other) {
        (Reply::Taken(name), Reply::Taken(second)) => name == second,
        (Reply::TakenFor(name, changed), Reply::TakenFor(second, objects)) => {
            name == second && changed.numbers() == objects.numbers()
        }
        (Reply::Got(value), Reply::Got(second)) => value.same(second),
        (Reply::Wrote { changed }, Reply::Wrote { changed: second }) => changed == second,
        (Reply::Applied, Reply::Applied) => true,
        (Reply::Disposed, Reply::Disposed) => true,
        (Reply::Refused(refusal), Reply::Refused(second)) => refusal == second,
        _ => false,
    }
}

// Makes the objects, all 0, and two watchers. Returns whether that succeeds.
fn make_objects<V: Versions<P = BuiltIn>>(alloc: Global, world: &mut V) -> bool {
    for policy in POLICIES {
        let is_made = world.objects() < 65536
            && world.make(alloc, Ty::Int, policy, Value::Int(0)).is_ok();
        if !is_made {
            return false;
        }
    }
    for _ in 0..2 {
        let is_made = world.watchers() < 65536 && world.watch(alloc).is_ok();
        if !is_made {
            return false;
        }
    }
    true
}

// The names of the first snapshot that may be open and of the next one.
#[derive(Drop)]
struct Names {
    first: Name,
    next: Name,
}

// Disposes all snapshots, for both callers. Returns whether the worlds reply alike.
fn dispose_all<V: Versions, W: Versions>(
    alloc: Global,
    plain: &mut V,
    records: &mut W,
    names: &mut Names,
) -> bool {
    for name in names.first..names.next {
        for caller in 0..2 {
            let copied = plain.call(alloc, caller, Request::Dispose { name });
            let reply = records.call(alloc, caller, Request::Dispose { name });
            if !same(&copied, &reply) {
                return false;
            }
        }
    }
    names.first = names.next;
    true
}

// Makes a random call. Returns whether the worlds reply alike.
fn call_both<V: Versions, W: Versions>(
    alloc: Global,
    plain: &mut V,
    records: &mut W,
    numbers: &mut Numbers,
    names: &mut Names,
) -> Result<bool, NoMemory> {
    let caller = numbers.below(8) / 7;
    let request = request(numbers, names.next);
    let copied = plain.call(alloc, caller, request.copy(alloc)?);
    let reply = records.call(alloc, caller, request);
    if let Reply::Taken(name) | Reply::TakenFor(name, _) = &reply {
        names.next = name.saturating_add(1);
    }
    Ok(same(&copied, &reply))
}

// Makes the objects and 10,000 random calls. All snapshots are disposed after each 50 calls, so that few are live at a
// time. Returns whether the worlds reply alike.
fn reply_alike<V: Versions<P = BuiltIn>, W: Versions<P = BuiltIn>>(
    alloc: Global,
    plain: &mut V,
    records: &mut W,
    seed: u64,
) -> Result<bool, NoMemory> {
    if !(make_objects(alloc, plain) && make_objects(alloc, records)) {
        return Ok(false);
    }
    let mut numbers = Numbers { state: seed };
    let mut names = Names { first: 1, next: 1 };
    for step in 0..10_000 {
        if !call_both(alloc, plain, records, &mut numbers, &mut names)? {
            return Ok(false);
        }
        if step % 50 == 0 && !dispose_all(alloc, plain, records, &mut names) {
            return Ok(false);
        }
    }
    Ok(true)
}

// Whether random calls get the replies of copied maps in a new world.
fn replies_as_copied_maps<W: Versions<P = BuiltIn>>(
    alloc: Global,
    records: &mut W,
    seed: u64,
) -> Result<bool, NoMemory> {
    let mut plain: PlainWorld<BuiltIn> = PlainWorld::new(alloc)?;
    reply_alike(alloc, &mut plain, records, seed)
}

// Whether random calls get equal replies in two new worlds.
fn seed_is_alike(alloc: Global, seed: u64) -> Result<bool, NoMemory> {
    let mut records: RecordWorld<BuiltIn> = RecordWorld::new(alloc)?;
    replies_as_copied_maps(alloc, &mut records, seed)
}

#[test]
fn random_calls_get_equal_replies(rt: HostRuntime) -> Result<(), Fail> {
    for seed in SEEDS {
        assert!(rt; seed_is_alike(rt.alloc(), seed)?, "seed {seed}");
    }
    Ok(())
}
