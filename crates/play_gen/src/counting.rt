// Calls and frames whose replies and reports are counted in place of printed. The one actor has the number 0.
ghost use Rattle.std.specs.Prelude.{◌≡◌, ◌≢◌, ◌<◌, ◌≤◌, List, ℕ, [], ◌∷◌, Option, Some, None, IfOk, OnOk, pos, codes};
ghost use Rattle.std.specs.Option.{option_map};
ghost use Rattle.lang_ast.specs.Terms.{Func};
ghost use Rattle.lang_ast.specs.declared.script.SnapshotRef.TheVariants as snapshot_ref;
ghost use Rattle.snap_policy.specs.declared.policy.BuiltIn.{BuiltIn as built_in};
ghost use Rattle.snap_policy.specs.Table.{table};
ghost use Rattle.snap_api.specs.World.{World, call};
ghost use Rattle.rt_values.specs.declared.names.Kind.TheVariants as kind_data;
ghost use Rattle.rt_values.specs.declared.value.Value.{Value as value_data};
ghost use Rattle.lang_script.specs.StepCalls.{Part, Take, Read, Write, WriteSum, Apply, BeginFrame, EndFrame, request_of};
ghost use Rattle.play_run.specs.RunOutput.{Run, parts_after};
ghost use Rattle.play_steps.specs.PartLists.{parts_of};
ghost use Rattle.play_run.specs.RunState.{IsPlain, RunFacts};
ghost use Rattle.play_gen.specs.GeneratedScript.{named_g};
ghost use Rattle.play_gen.specs.Counting.{CountsAt, CountsParts};

use crate::tally::Tally;
use play_run::{RunMemory, compose, note_frame, sum_request};
use play_steps::{WATCHER, number_taken};
use rt_values::{Kind, Name, NoMemory, ObjectNo, Value};
use script_lang::Flags;
use snap_api::{Reply, Request, Versions};
use snap_policy::BuiltIn;
use std::alloc::Global;
use std::marker::Brand;
use std::sync::ledger::Blank;

/// What a counted run keeps between calls.
#[derive(Drop)]
pub struct Counting<'p> {
    pub memory: RunMemory<'p>,
    pub tally: Tally,
}

// Makes a call. After an error the world may have made the call.
fn make_call<V: Versions<P = BuiltIn>>(
    alloc: Global,
    request: Request,
    world: &mut V,
) -> Result<Reply, NoMemory>
    ensures reply { (w : World built_in) → V.stands world.old w →
        IfOk result (λ r. r ≡ (call table w 0 request).1) }
    ensures left { (w : World built_in) → V.stands world.old w →
        OnOk result (V.stands world.new (call table w 0 request).0) }
{
    let reply = world.call(alloc, 0, request);
    if reply.is_no_memory() {
        return Err(NoMemory);
    }
    Ok(reply)
}

// Makes the call of a part outside frames, and counts the reply.
fn count_call<V: Versions<P = BuiltIn>>(
    alloc: Global,
    request: Request,
    counting: &mut Counting,
    world: &mut V,
) -> Result<Reply, NoMemory>
    ensures counts { (functions : List Func) (r : Run) (p : Part) → IsPlain p → request_of r.notes p ≡ Some request →
        RunFacts functions V.stands world.old counting.old.memory.composition 0 None r →
        OnOk result
        (CountsAt functions V.stands (parts_of 0 (p ∷ [])) world.new counting.new None counting.old.tally r) }
    ensures reply { (w : World built_in) → V.stands world.old w →
        IfOk result (λ r. r ≡ (call table w 0 request).1) }
{
    let reply = make_call(alloc, request, world)?;
    counting.tally.count_reply(&reply);
    Ok(reply)
}

// Makes the call of a part outside frames, counts the reply and drops it.
fn count_request<V: Versions<P = BuiltIn>>(
    alloc: Global,
    request: Request,
    counting: &mut Counting,
    world: &mut V,
) -> Result<(), NoMemory>
    ensures { (functions : List Func) (r : Run) (p : Part) → IsPlain p → request_of r.notes p ≡ Some request →
        RunFacts functions V.stands world.old counting.old.memory.composition 0 None r →
        OnOk result
        (CountsAt functions V.stands (parts_of 0 (p ∷ [])) world.new counting.new None counting.old.tally r) }
{
    count_call(alloc, request, counting, world)?;
    Ok(())
}

/// Adds `amount` to the state `object` in the global snapshot. A rule of this project.
pub fn count_add<V: Versions<P = BuiltIn>>(
    alloc: Global,
    object: ObjectNo,
    amount: i64,
    counting: &mut Counting,
    world: &mut V,
) -> Result<(), NoMemory>
    ensures { let parts = Read snapshot_ref.Global object ∷ WriteSum snapshot_ref.Global object amount ∷ [] in
        CountsParts V.stands (parts_of 0 parts) world.old world.new counting.old counting.new None None result }
{
    let reply = count_call(alloc, Request::Read { name: 0, object }, counting, world)?;
    match sum_request(0, object, amount, &reply) {
        Some(request) => count_request(alloc, request, counting, world),
        None => Ok(()),
    }
}

/// Writes `value` to the state `object` in the global snapshot. A rule of this project.
pub fn count_write<V: Versions<P = BuiltIn>>(
    alloc: Global,
    object: ObjectNo,
    value: Value,
    counting: &mut Counting,
    world: &mut V,
) -> Result<(), NoMemory>
    ensures { CountsParts V.stands (parts_of 0 (Write snapshot_ref.Global object value ∷ [])) world.old world.new
        counting.old counting.new None None result }
{
    let request = Request::Write {
        name: 0,
        object,
        value,
    };
    count_request(alloc, request, counting, world)
}

/// Writes `value` to the state `object` in a snapshot with the name `g`, and applies it. A rule of this project.
pub fn count_raise<V: Versions<P = BuiltIn>>(
    alloc: Global,
    object: ObjectNo,
    value: Value,
    counting: &mut Counting,
    world: &mut V,
) -> Result<(), NoMemory>
    ensures { let parts =
        Take (codes "g") kind_data.Mutable snapshot_ref.Global ∷ Write named_g object value ∷ Apply named_g ∷ [] in
        CountsParts V.stands (parts_of 0 parts) world.old world.new counting.old counting.new None None result }
{
    let take = Request::Take {
        parent: 0,
        kind: Kind::Mutable,
    };
    let name = number_taken(&count_call(alloc, take, counting, world)?);
    let write = Request::Write {
        name,
        object,
        value,
    };
    count_request(alloc, write, counting, world)?;
    count_request(alloc, Request::Apply { name }, counting, world)
}

// Takes a frame's snapshot, and marks what changed since the last frame as owed. Returns the number of the snapshot, or
// `None` if the take was refused.
fn begin_frame<V: Versions<P = BuiltIn>>(
    alloc: Global,
    counting: &mut Counting,
    world: &mut V,
) -> Result<Option<Name>, NoMemory>
    ensures { (functions : List Func) (r : Run) →
        RunFacts functions V.stands world.old counting.old.memory.composition 0 None r →
        IfOk result (λ frame. CountsAt functions V.stands (parts_of 0 (BeginFrame ∷ [])) world.new counting.new frame
        counting.old.tally r) }
{
    let request = Request::TakeFor { watcher: WATCHER };
    let reply = make_call(alloc, request, world)?;
    Ok(note_frame(reply, &mut counting.memory.composition))
}

// Composes the program in the frame's snapshot, disposes the snapshot and counts the report.
fn end_frame<V: Versions<P = BuiltIn>>(
    alloc: Global,
    name: Name,
    counting: &mut Counting,
    world: &mut V,
) -> Result<(), NoMemory>
    ensures { CountsParts V.stands (parts_of 0 (EndFrame ∷ [])) world.old world.new counting.old counting.new
        (Some name) None result }
{
    let flags = Flags {
        json: false,
        ops: false,
    };
    let memory = &mut counting.memory;
    let composed = compose::<V, Brand>(alloc, flags, 0, name, memory, world, Blank::new(1));
    make_call(alloc, Request::Dispose { name }, world)?;
    match composed {
        Ok(report) => {
            counting.tally.count_frame(&report);
            Ok(())
        }
        Err(_) => Err(NoMemory),
    }
}

/// Makes a frame and counts its report. If its take is refused, the take is all of the frame. A rule of this project.
pub fn count_frame<V: Versions<P = BuiltIn>>(
    alloc: Global,
    counting: &mut Counting,
    world: &mut V,
) -> Result<(), NoMemory>
    ensures { CountsParts V.stands (parts_of 0 (BeginFrame ∷ EndFrame ∷ [])) world.old world.new counting.old
        counting.new None None result }
{
    match begin_frame(alloc, counting, world)? {
        Some(name) => end_frame(alloc, name, counting, world),
        None => Ok(()),
    }
}
