// A frame whose second read runs out of memory, and the frame after it.
ghost use Rattle.std.specs.Prelude.{◌≡◌, ◌<◌};

use crate::programs::checked_program;
use lang_checks::Checked;
use node_tree::UnitApplier;
use recomposer::{Composition, FrameStop};
use rt_groups::Report;
use rt_values::{Caller, Kind, Name, NoMemory, ObjectNo, Objects, Steps, Ty, Value, WatcherNo};
use snap_api::{OwnDesk, Refusal, Versions};
use snap_plain::PlainWorld;
use snap_policy::BuiltIn;
use std::alloc::Global;
use std::marker::Brand;
use std::sync::ledger::{Blank, Ledger};
use std::test::Fail;

// Two states in one node.
const PROGRAM: &str = "(compose 1)
(state a Int Structural 1)
(state b Int Structural 10)
(fun root () (node Pair ((a (get a)) (b (get b)))))";

// A world of which one read runs out of memory: the one after which `left` is 0.
#[derive(Drop)]
struct ShortReads<V: Drop> {
    world: V,
    left: u64,
}

impl<V: Versions + Drop> Versions for ShortReads<V> {
    type P = V::P;

    ghost stands = { λ s w. V.stands s.world w };

    ghost log = { λ s. V.log s.world };

    ghost object_count = { λ s. V.object_count s.world };

    ghost watcher_count = { λ s. V.watcher_count s.world };

    ghost counts = { λ s w h. V.counts s.world w h };

    fn objects(&self) -> usize {
        self.world.objects()
    }

    fn watchers(&self) -> usize {
        self.world.watchers()
    }

    fn make(
        &mut self,
        alloc: Global,
        ty: Ty,
        policy: V::P,
        value: Value,
    ) -> Result<ObjectNo, Refusal> {
        self.world.make(alloc, ty, policy, value)
    }

    fn watch(&mut self, alloc: Global) -> Result<WatcherNo, NoMemory> {
        self.world.watch(alloc)
    }

    fn take(
        &mut self,
        alloc: Global,
        caller: Caller,
        parent: Name,
        kind: Kind,
    ) -> Result<Name, Refusal> {
        self.world.take(alloc, caller, parent, kind)
    }

    fn take_for(
        &mut self,
        alloc: Global,
        caller: Caller,
        watcher: WatcherNo,
    ) -> Result<(Name, Objects), Refusal> {
        self.world.take_for(alloc, caller, watcher)
    }

    fn read(
        &mut self,
        alloc: Global,
        caller: Caller,
        name: Name,
        object: ObjectNo,
    ) -> Result<Value, Refusal> {
        if self.left == 1 {
            self.left = 0;
            return Err(Refusal::NoMemory);
        }
        if self.left > 0 {
            self.left -= 1;
        }
        self.world.read(alloc, caller, name, object)
    }

    fn write(
        &mut self,
        alloc: Global,
        caller: Caller,
        name: Name,
        object: ObjectNo,
        value: Value,
    ) -> Result<bool, Refusal> {
        self.world.write(alloc, caller, name, object, value)
    }

    fn apply(&mut self, alloc: Global, caller: Caller, name: Name) -> Result<(), Refusal> {
        self.world.apply(alloc, caller, name)
    }

    fn dispose(&mut self, caller: Caller, name: Name) -> Result<(), Refusal> {
        self.world.dispose(caller, name)
    }
}

// What a frame gave: how many states its take listed, its result, and the objects that it was asked for.
#[derive(Drop)]
struct Seen {
    changed: usize,
    result: Result<Report, FrameStop>,
    asked: Objects,
}

// Makes a frame. `blank` is the ledger of the steps, which no test reads.
fn frame_counting<V: Versions, L: Ledger>(
    alloc: Global,
    composition: &mut Composition,
    world: &mut V,
    blank: Blank,
) -> Result<Seen, Fail>
    requires name { blank.name ≡ L.name }
    requires parts { blank.parts ≡ L.parts }
    requires some { 0 < L.parts }
{
    let (book, share) = blank.open();
    let mut steps: Steps<L> = Steps::new(book, share);
    let mut asked = Objects::new(alloc);
    let mut changed = 0;
    let mut desk = OwnDesk::new(world, &mut asked, 0, None);
    let result = match composition.begin(alloc, &mut desk) {
        Ok(begun) => {
            changed = begun.changed.numbers().len();
            composition.finish(alloc, begun, &mut desk, &mut UnitApplier, &mut steps)
        }
        Err(stop) => Err(stop),
    };
    drop(desk);
    Ok(Seen {
        changed,
        result,
        asked,
    })
}

// Makes a frame.
fn frame<V: Versions>(
    alloc: Global,
    composition: &mut Composition,
    world: &mut V,
) -> Result<Seen, Fail> {
    frame_counting::<V, Brand>(alloc, composition, world, Blank::new(1))
}

// A plain world with the two states and one watcher, of which the second read runs out of memory.
fn short_world(alloc: Global) -> Result<ShortReads<PlainWorld<BuiltIn>>, Fail> {
    let mut world: PlainWorld<BuiltIn> = PlainWorld::new(alloc)?;
    let mut is_made = world.watchers() < 65536 && world.watch(alloc).is_ok();
    for n in [1, 10] {
        is_made = is_made
            && world.objects() < 65536
            && world
                .make(alloc, Ty::Int, BuiltIn::Structural, Value::Int(n))
                .is_ok();
    }
    let left = if is_made { 2 } else { 0 };
    Ok(ShortReads { world, left })
}

// The report of a first frame of the program.
const FIRST: Report = Report {
    ran: 1,
    calculated: 0,
    reads: 2,
    groups: 2,
    nodes: 1,
};

// Makes two frames, of which the first runs out of memory at its second read. Returns whether nothing of it is lost.
fn frame_is_made_again(alloc: Global, composition: &mut Composition) -> Result<bool, Fail> {
    let mut world = short_world(alloc)?;
    let first = frame(alloc, composition, &mut world)?;
    let is_short = first.changed == 2
        && matches!(first.result, Err(FrameStop::NoMemory))
        && first.asked.numbers() == [0].as_slice()
        && composition.next() == 1;
    let second = frame(alloc, composition, &mut world)?;
    Ok(
        is_short
            && second.changed == 0
            && second.result.is_ok_and(|report| report == FIRST)
            && second.asked.numbers() == [0, 1].as_slice()
            && composition.next() == 2,
    )
}

// Makes the two frames in a new composition.
fn frame_in_new(alloc: Global, program: &Checked) -> Result<bool, Fail> {
    let mut composition = Composition::new(alloc, program, 0)?;
    frame_is_made_again(alloc, &mut composition)
}

// A frame without memory for a read keeps all that it owes. The next one is a first frame.
#[test]
fn frame_without_memory_is_made_again(rt: HostRuntime) -> Result<(), Fail> {
    let program = checked_program(rt.alloc(), PROGRAM.as_bytes())?;
    assert!(rt; frame_in_new(rt.alloc(), &program)?);
    Ok(())
}
