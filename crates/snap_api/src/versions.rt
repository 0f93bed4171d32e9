// Worlds of snapshots.
ghost use Rattle.std.specs.Prelude.{◌≡◌, ◌<◌, ℕ, List, Option, IfOk, IsOk, OnErr, length};
ghost use Rattle.snap_api.specs.World.{World, world_after_watch};
ghost use Rattle.snap_api.specs.Calls.{Calls, Logs, Makes, IsOwn, DisposesOwn, taken_reply, taken_for_reply, read_reply, write_reply, apply_reply, dispose_reply};
ghost use Rattle.snap_api.specs.declared.data.Entry.{Entry};

use crate::{Refusal, Reply, Request};
use rt_values::{Caller, Kind, Name, NoMemory, ObjectNo, Objects, Ty, Value, WatcherNo};
use snap_policy::Policy;
use std::alloc::Global;

/// A world of state objects and snapshots.
///
/// A value represents plain worlds (`specs/World.antt`). Each call gives the reply of each of them, with refusals
/// in the order of their tests, and leaves the value representing the worlds after the call. After `NoMemory` the
/// value represents each plain world that it represented before. A value may have a log of all calls so far with their
/// replies; it omits calls that ran out of memory.
pub trait Versions {
    /// The policies of the objects.
    type P: Policy;

    // The plain worlds that the value represents.
    ghost stands: { Self → World Self.P → Type 0 };

    // The calls so far with their replies, if the value has a log.
    ghost log: { Self → Option (List Entry) };

    // The number of objects.
    ghost object_count: { Self → ℕ };

    // The number of watchers.
    ghost watcher_count: { Self → ℕ };

    /// Returns the number of objects. Objects are numbered from 0.
    fn objects(&self) -> usize
        ensures count { result ≡ object_count self.now }
        ensures told { (w : World Self.P) → stands self.now w → result ≡ length w.objects };

    /// Returns the number of watchers. Watchers are numbered from 0.
    fn watchers(&self) -> usize
        ensures count { result ≡ watcher_count self.now }
        ensures told { (w : World Self.P) → stands self.now w → result ≡ length w.lasts };

    /// Makes an object with `value` in every snapshot (`mutableStateOf`), and returns its number. The limit on the
    /// number of objects is this project's own rule, and so is that earlier snapshots show the object at once.
    fn make(
        &mut self,
        alloc: Global,
        ty: Ty,
        policy: Self::P,
        value: Value,
    ) -> Result<ObjectNo, Refusal>
        requires { object_count self.old < 65536 }
        ensures made { Makes Self.P.rules (stands self.old) (stands self.new) ty policy value result }
        ensures log { log self.new ≡ log self.old };

    /// Makes a watcher without a last map, and returns its number, as a recomposer registers its apply observer.
    /// This project's own rule.
    fn watch(&mut self, alloc: Global) -> Result<WatcherNo, NoMemory>
        requires { watcher_count self.old < 65536 }
        ensures ok { IfOk result (λ n. (w : World Self.P) → stands self.old w
            → (n ≡ length w.lasts) × stands self.new (world_after_watch w)) }
        ensures err { OnErr result ((w : World Self.P) → stands self.old w → stands self.new w) }
        ensures log { log self.new ≡ log self.old };

    /// Takes a child of a live snapshot, owned by the caller (`Snapshot.takeNestedMutableSnapshot`,
    /// `takeNestedSnapshot`), and returns its number.
    fn take(
        &mut self,
        alloc: Global,
        caller: Caller,
        parent: Name,
        kind: Kind,
    ) -> Result<Name, Refusal>
        ensures call { Calls Self.P.rules (stands self.old) (stands self.new) caller (Request.Take parent kind)
            (taken_reply result) }
        ensures log { Logs (log self.old) (log self.new) caller (Request.Take parent kind) (taken_reply result) };

    /// Takes a readonly snapshot of global, and lists the objects that changed since the watcher's last take, in
    /// ascending order (`Snapshot.takeSnapshot`, with the changes that apply observers receive). Doing both in one
    /// step is this project's own rule.
    fn take_for(
        &mut self,
        alloc: Global,
        caller: Caller,
        watcher: WatcherNo,
    ) -> Result<(Name, Objects), Refusal>
        ensures call { Calls Self.P.rules (stands self.old) (stands self.new) caller (Request.TakeFor watcher)
            (taken_for_reply result) }
        ensures log { Logs (log self.old) (log self.new) caller (Request.TakeFor watcher) (taken_for_reply result) };

    /// Reads an object in a snapshot of the caller or in global (`StateObject`'s readable record).
    fn read(
        &mut self,
        alloc: Global,
        caller: Caller,
        name: Name,
        object: ObjectNo,
    ) -> Result<Value, Refusal>
        ensures call { Calls Self.P.rules (stands self.old) (stands self.new) caller (Request.Read name object)
            (read_reply result) }
        ensures log { Logs (log self.old) (log self.new) caller (Request.Read name object) (read_reply result) };

    /// Writes an object in a snapshot of the caller or in global, and returns whether that changed the object
    /// (`overwritable`). A value that the object's policy holds equivalent changes nothing.
    fn write(
        &mut self,
        alloc: Global,
        caller: Caller,
        name: Name,
        object: ObjectNo,
        value: Value,
    ) -> Result<bool, Refusal>
        ensures call { Calls Self.P.rules (stands self.old) (stands self.new) caller
            (Request.Write name object value) (write_reply result) }
        ensures log { Logs (log self.old) (log self.new) caller (Request.Write name object value)
            (write_reply result) };

    /// Applies a snapshot's changes to its parent (`MutableSnapshot.apply`). Fails with `Conflict` for the least
    /// object that both changed and whose policy does not merge the changes.
    fn apply(&mut self, alloc: Global, caller: Caller, name: Name) -> Result<(), Refusal>
        ensures call { Calls Self.P.rules (stands self.old) (stands self.new) caller (Request.Apply name)
            (apply_reply result) }
        ensures log { Logs (log self.old) (log self.new) caller (Request.Apply name) (apply_reply result) };

    /// Closes a snapshot (`Snapshot.dispose`). Changes that were not applied are lost. A snapshot that is closed
    /// already stays the same. Closing the caller's own live snapshot takes no memory and never fails.
    fn dispose(&mut self, caller: Caller, name: Name) -> Result<(), Refusal>
        ensures call { Calls Self.P.rules (stands self.old) (stands self.new) caller (Request.Dispose name)
            (dispose_reply result) }
        ensures log { Logs (log self.old) (log self.new) caller (Request.Dispose name) (dispose_reply result) }
        ensures own { (w : World Self.P) → stands self.old w → IsOwn w caller name → IsOk result };

    /// Makes one of the six calls. Disposing the caller's own live snapshot takes no memory and never fails.
    fn call(&mut self, alloc: Global, caller: Caller, request: Request) -> Reply
        ensures call { Calls Self.P.rules (stands self.old) (stands self.new) caller request result }
        ensures log { Logs (log self.old) (log self.new) caller request result }
        ensures own { DisposesOwn (stands self.old) caller request result }
    {
        match request {
            Request::Take { parent, kind } => match self.take(alloc, caller, parent, kind) {
                Ok(name) => Reply::Taken(name),
                Err(refusal) => Reply::Refused(refusal),
            },
            Request::TakeFor { watcher } => match self.take_for(alloc, caller, watcher) {
                Ok((name, changed)) => Reply::TakenFor(name, changed),
                Err(refusal) => Reply::Refused(refusal),
            },
            Request::Read { name, object } => match self.read(alloc, caller, name, object) {
                Ok(value) => Reply::Got(value),
                Err(refusal) => Reply::Refused(refusal),
            },
            Request::Write {
                name,
                object,
                value,
            } => {
                match self.write(alloc, caller, name, object, value) {
                    Ok(changed) => Reply::Wrote { changed },
                    Err(refusal) => Reply::Refused(refusal),
                }
            }
            Request::Apply { name } => match self.apply(alloc, caller, name) {
                Ok(()) => Reply::Applied,
                Err(refusal) => Reply::Refused(refusal),
            },
            Request::Dispose { name } => match self.dispose(caller, name) {
                Ok(()) => Reply::Disposed,
                Err(refusal) => Reply::Refused(refusal),
            },
        }
    }

    // The counts are those of each plain world that the value represents.
    ghost counts: { (s : Self) (w : World Self.P) → stands s w
        → (object_count s ≡ length w.objects) × (watcher_count s ≡ length w.lasts) };
}
