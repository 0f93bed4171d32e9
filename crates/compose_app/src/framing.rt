// A frame over the parts of a screen.
ghost use Rattle.std.specs.Prelude.{◌≡◌, ◌<◌, ℕ, Some, IfOk, IfErr, OnErr};
ghost use Rattle.rt_values.specs.Maps.{Map};
ghost use Rattle.rt_groups.specs.Frames.{LastFrame};
ghost use Rattle.snap_policy.specs.declared.policy.BuiltIn.{BuiltIn as built_in};
ghost use Rattle.snap_policy.specs.Table.{table};
ghost use Rattle.snap_api.specs.Calls.{Calls};
ghost use Rattle.snap_api.specs.ShownMap.{ShownMap};
ghost use Rattle.snap_api.specs.World.{World};
ghost use Rattle.recomposer.specs.AppliedFrames.{MayCall, FaultHasCause, UnlessFault};
ghost use Rattle.recomposer.specs.Compositions.{IsAt, OwesNoCall};
ghost use Rattle.recomposer.specs.FrameContracts.{ComposesShown, DrivesApplier};
ghost use Rattle.compose_app.specs.Screens.{screen_parts, IsReadyScreen, MakesScreenFrame};

use lang_checks::Checked;
use node_tree::Applier;
use recomposer::{Begun, Composition, FrameStop};
use rt_groups::Report;
use rt_values::{Objects, Steps};
use snap_api::{OwnDesk, Refusal, Reply, Request, Versions};
use snap_policy::BuiltIn;
use std::alloc::Global;
use std::sync::ledger::Ledger;

// Composes in the open snapshot of a frame, disposes it, and changes the applier's tree.
fn finish_frame<V: Versions<P = BuiltIn>, A: Applier, L: Ledger>(
    alloc: Global,
    begun: Begun,
    composition: &mut Composition,
    world: &mut V,
    applier: &mut A,
    steps: &mut Steps<L>,
) -> Result<Report, FrameStop>
    requires tree { MayCall (A.tree applier.old) (λ k. (m : Map) × IsAt composition.old k (Some m)
        × ShownMap table (V.stands world.old) 0 (Some begun.name) m) }
    ensures frame { ComposesShown composition.old composition.new
        (ShownMap table (V.stands world.old) 0 (Some begun.name)) result }
    ensures applier { DrivesApplier A.tree A.faults applier.old applier.new composition.old composition.new
        (ShownMap table (V.stands world.old) 0 (Some begun.name)) result }
    ensures world { (m : Map) → ShownMap table (V.stands world.old) 0 (Some begun.name) m → 0 < begun.name →
        Calls table (V.stands world.old) (V.stands world.new) 0 (Request.Dispose begun.name) Reply.Disposed }
{
    let mut asked = Objects::new(alloc);
    let mut desk = OwnDesk::new(world, &mut asked, 0, Some(begun.name));
    composition.finish(alloc, begun, &mut desk, applier, steps)
}

/// Makes a frame over the parts of a screen: takes its snapshot, composes in it, disposes it, and changes the applier's
/// tree.
pub fn make_frame<V: Versions<P = BuiltIn>, A: Applier, L: Ledger>(
    alloc: Global,
    program: &Checked,
    composition: &mut Composition,
    world: &mut V,
    applier: &mut A,
    steps: &mut Steps<L>,
) -> Result<Report, FrameStop>
    requires { IsReadyScreen V.stands A.tree
        (screen_parts program.now composition.old world.old applier.old) }
    ensures { MakesScreenFrame V.stands A.tree A.faults
        (screen_parts program.now composition.old world.old applier.old)
        (screen_parts program.now composition.new world.new applier.new) result }
{
    let (name, changed) = match world.take_for(alloc, 0, 0) {
        Ok(taken) => taken,
        Err(Refusal::Spent) => return Err(FrameStop::Spent),
        Err(_) => return Err(FrameStop::NoMemory),
    };
    composition.note(changed.numbers());
    finish_frame(
        alloc,
        Begun { name, changed },
        composition,
        world,
        applier,
        steps,
    )
}
