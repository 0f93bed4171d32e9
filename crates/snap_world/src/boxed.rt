// A world on the heap.
ghost use Rattle.std.specs.Prelude.{◌≡◌, IfOk};
ghost use Rattle.snap_api.specs.World.{World};

use rt_values::{Caller, Kind, Name, NoMemory, ObjectNo, Objects, Ty, Value, WatcherNo};
use snap_api::{Refusal, Reply, Request, Versions};
use std::alloc::Global;

/// A world on the heap. Moving it costs as much as moving a pointer. Its calls are those of the world.
#[derive(Drop)]
pub struct BoxedWorld<V> {
    world: Box<V>,
}

impl<V: Versions + Drop> BoxedWorld<V> {
    /// Moves a world to the heap.
    pub fn new(alloc: Global, world: V) -> Result<Self, NoMemory>
        ensures stands { IfOk result (λ b. (w : World V.P) → V.stands world w
            → ⟦<BoxedWorld<V> as Versions>⟧.stands b w) }
        ensures log { IfOk result (λ b. ⟦<BoxedWorld<V> as Versions>⟧.log b ≡ V.log world) }
    {
        match Box::new(alloc, world) {
            Ok(world) => Ok(BoxedWorld { world }),
            Err(_) => Err(NoMemory),
        }
    }
}

impl<V: Versions> Versions for BoxedWorld<V> {
    type P = V::P;

    ghost stands = { λ s w. V.stands s.world.value w };

    ghost log = { λ s. V.log s.world.value };

    ghost object_count = { λ s. V.object_count s.world.value };

    ghost watcher_count = { λ s. V.watcher_count s.world.value };

    ghost counts = { λ s w h. V.counts s.world.value w h };

    fn objects(&self) -> usize {
        self.world.objects()
    }

    fn watchers(&self) -> usize {
        self.world.watchers()
    }

    fn make(
        &mut self,
        alloc: Global,
        ty: Ty,
        policy: V::P,
        value: Value,
    ) -> Result<ObjectNo, Refusal> {
        self.world.make(alloc, ty, policy, value)
    }

    fn watch(&mut self, alloc: Global) -> Result<WatcherNo, NoMemory> {
        self.world.watch(alloc)
    }

    fn take(
        &mut self,
        alloc: Global,
        caller: Caller,
        parent: Name,
        kind: Kind,
    ) -> Result<Name, Refusal> {
        self.world.take(alloc, caller, parent, kind)
    }

    fn take_for(
        &mut self,
        alloc: Global,
        caller: Caller,
        watcher: WatcherNo,
    ) -> Result<(Name, Objects), Refusal> {
        self.world.take_for(alloc, caller, watcher)
    }

    fn read(
        &mut self,
        alloc: Global,
        caller: Caller,
        name: Name,
        object: ObjectNo,
    ) -> Result<Value, Refusal> {
        self.world.read(alloc, caller, name, object)
    }

    fn write(
        &mut self,
        alloc: Global,
        caller: Caller,
        name: Name,
        object: ObjectNo,
        value: Value,
    ) -> Result<bool, Refusal> {
        self.world.write(alloc, caller, name, object, value)
    }

    fn apply(&mut self, alloc: Global, caller: Caller, name: Name) -> Result<(), Refusal> {
        self.world.apply(alloc, caller, name)
    }

    fn dispose(&mut self, caller: Caller, name: Name) -> Result<(), Refusal> {
        self.world.dispose(caller, name)
    }

    fn call(&mut self, alloc: Global, caller: Caller, request: Request) -> Reply {
        self.world.call(alloc, caller, request)
    }
}
