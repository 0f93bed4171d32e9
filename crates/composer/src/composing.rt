// Composing again next to the groups of the last frame.
ghost use Rattle.std.specs.Prelude.{◌≡◌, ◌<◌, ◌++◌, ◌∷◌, [], false, length, drop, take, IfOk, OnOk};
ghost use Rattle.rt_values.specs.Maps.{Map};
ghost use Rattle.rt_groups.specs.PreorderGroups.{preorder};
ghost use Rattle.rt_groups.specs.Frames.{LastFrame};
ghost use Rattle.lang_ast.specs.Terms.{If};
ghost use Rattle.lang_ast.specs.SyntaxView.{expr_view, exprs_view, head_view, stmt_view, stmts_view};
ghost use Rattle.lang_ast.specs.Evaluation.{new_binding, eval_all};
ghost use Rattle.compose_model.specs.Composing.{forest_after};
ghost use Rattle.recompose_laws.specs.CalculatedCells.{StmtCalculates, StmtsCalculate};
ghost use Rattle.composer.specs.WrittenGroups.{Drafts, arguments_of, AreArguments};
ghost use Rattle.composer.specs.FrameDrafts.{Holds, IsOwing, ComposesFrame, root_of};
ghost use Rattle.lang_ast.specs.Programs.{functions_of};
ghost use Rattle.composer.specs.OldSiblings.{IsFoundIn, old_group};
ghost use Rattle.composer.specs.Recomposes.{Recomposes, Continues, RanInside, StaysIn, Writes, HasRoom, HasRoomToWrite, FitsIn, is_call_kept, statement_at, block_at, body_at, call_at, loop_at, BodyRan, GroupSkipped, GroupsSkipped, FrameWritten, any_calculation};
ghost use Rattle.composer.specs.EntersBlock.{HeadCalculates};

use crate::blocks::{Entered, enter_block};
use crate::compared::{call_is_run, meet};
use crate::draft::{Draft, Held};
use crate::entering::{keep_group, push_name};
use crate::last_groups::LastGroups;
use crate::old_groups::OldGroup;
use crate::owed::Owed;
use crate::pending::Pending;
use crate::progress::{Level, Progress};
use crate::runs::{is_end, next_call, quiet_call_end};
use crate::stop::ComposeStop;
use crate::writer::{CallArguments, Writer};
use group_keys::SiblingKey;
use lang_ast::{Expression, Function, Head, Ident, Statement};
use lang_checks::Checked;
use lang_eval::{bind, eval_noting, evaluate_all};
use rt_groups::{GroupKind, Values};
use rt_values::{Steps, Value, View};
use std::alloc::Global;
use std::mem;
use std::sync::ledger::Ledger;

// Composes statements in order.
#[cycle(again)]
fn run_all<'a, V: View, L: Ledger>(
    level: &Level<'a>,
    body: &[Statement],
    made: &mut Progress<'a>,
    view: &mut V,
    steps: &mut Steps<L>,
) -> Result<(), ComposeStop>
    requires { HasRoom level.now made.old }
    ensures { Recomposes V.shows V.asked V.keeps level.now
        (body_at level.now (stmts_view body.now) made.old.scope) (λ calc. StmtsCalculate calc (stmts_view body.now))
        view.old view.new made.old made.new result }
{
    for statement in body {
        run_one(level, statement, made, view, steps)?;
    }
    Ok(())
}

// Composes one statement.
#[cycle(again)]
fn run_one<'a, V: View, L: Ledger>(
    level: &Level<'a>,
    statement: &Statement,
    made: &mut Progress<'a>,
    view: &mut V,
    steps: &mut Steps<L>,
) -> Result<(), ComposeStop>
    requires { HasRoom level.now made.old }
    ensures { Recomposes V.shows V.asked V.keeps level.now
        (statement_at level.now (stmt_view statement.now) made.old.scope)
        (λ calc. StmtCalculates calc (stmt_view statement.now))
        view.old view.new made.old made.new result }
{
    match statement {
        Statement::Call {
            site,
            function,
            arguments,
            ..
        } => run_arguments(level, *site, *function, arguments, made, view, steps),
        Statement::If {
            condition,
            then_branch,
            else_branch,
            ..
        } => run_if(
            level,
            condition,
            then_branch,
            else_branch,
            made,
            view,
            steps,
        ),
        Statement::Block {
            site,
            head,
            body,
            ..
        } => run_block(level, *site, head, body, made, view, steps),
    }
}

// Composes a block: enters it, and composes its body inside its group, with a variable, or once for each number.
#[cycle(again)]
fn run_block<'a, V: View, L: Ledger>(
    level: &Level<'a>,
    site: u32,
    head: &Head,
    body: &[Statement],
    made: &mut Progress<'a>,
    view: &mut V,
    steps: &mut Steps<L>,
) -> Result<(), ComposeStop>
    requires { HasRoom level.now made.old }
    ensures { Recomposes V.shows V.asked V.keeps level.now
        (block_at level.now site (head_view head.now) (stmts_view body.now) made.old.scope)
        (λ calc. HeadCalculates calc site (head_view head.now) × StmtsCalculate calc (stmts_view body.now))
        view.old view.new made.old made.new result }
{
    match enter_block(level, site, head, made, view)? {
        Entered::Inside(found) => run_inside(level, &found, body, made, view, steps),
        Entered::Bound(name, value) => run_bound(level, name, value, body, made, view, steps),
        Entered::Turns(name, list) => run_turns(level, name, list.items(), body, made, view, steps),
    }
}

// Composes the statements inside a node or a key that was matched with `found`, next to the old groups inside it.
#[cycle(again)]
#[inline(always)]
fn run_inside<'a, V: View, L: Ledger>(
    level: &Level<'a>,
    found: &Option<OldGroup<'a>>,
    body: &[Statement],
    made: &mut Progress<'a>,
    view: &mut V,
    steps: &mut Steps<L>,
) -> Result<(), ComposeStop>
    requires deep { level.now.depth < length made.old.writer.groups }
    requires stays { StaysIn level.now made.old }
    requires found { IsFoundIn level.now.last.now.groups found.now }
    ensures part { Continues V.shows V.asked V.keeps level.now view.old view.new made.old made.new result }
    ensures pending { OnOk result (made.new.pending ≡ made.old.pending) }
    ensures ran { (m : Map) → V.shows view.old m → RanInside level.now found.now
        (body_at level.now (stmts_view body.now) made.old.scope) (λ calc. StmtsCalculate calc (stmts_view body.now)) m
        (V.asked view.old) (V.asked view.new) made.old made.new result }
{
    if body.is_empty() {
        return Ok(());
    }
    let inside = Level {
        alloc: level.alloc,
        functions: level.functions,
        last: level.last,
        depth: level.depth + 1,
    };
    let within = Pending::inside_found(level.last, found);
    let around = mem::replace(&mut made.pending, within);
    run_all(&inside, body, made, view, steps)?;
    made.pending = around;
    Ok(())
}

// Evaluates the condition and composes one of two lists of statements.
#[cycle(again)]
fn run_if<'a, V: View, L: Ledger>(
    level: &Level<'a>,
    condition: &Expression,
    then_branch: &[Statement],
    else_branch: &[Statement],
    made: &mut Progress<'a>,
    view: &mut V,
    steps: &mut Steps<L>,
) -> Result<(), ComposeStop>
    requires { HasRoom level.now made.old }
    ensures { Recomposes V.shows V.asked V.keeps level.now
        (statement_at level.now
        (If 0 0 (expr_view condition.now) (stmts_view then_branch.now) (stmts_view else_branch.now)) made.old.scope)
        (λ calc. StmtsCalculate calc (stmts_view then_branch.now) × StmtsCalculate calc (stmts_view else_branch.now))
        view.old view.new made.old made.new result }
{
    let condition = eval_noting(level.alloc, condition, &made.scope, view, &mut made.reads)?;
    if condition.is_true() {
        return run_all(level, then_branch, made, view, steps);
    }
    run_all(level, else_branch, made, view, steps)
}

// Composes statements with a new variable in scope, which is removed afterwards.
#[cycle(again)]
#[inline(always)]
fn run_bound<'a, V: View, L: Ledger>(
    level: &Level<'a>,
    name: &Ident,
    value: Value,
    body: &[Statement],
    made: &mut Progress<'a>,
    view: &mut V,
    steps: &mut Steps<L>,
) -> Result<(), ComposeStop>
    requires { HasRoom level.now made.old }
    ensures { Recomposes V.shows V.asked V.keeps level.now
        (body_at level.now (stmts_view body.now) (made.old.scope ++ new_binding name.now.text value ∷ []))
        (λ calc. StmtsCalculate calc (stmts_view body.now))
        view.old view.new made.old made.new result }
{
    push_name(name, value, &mut made.scope)?;
    run_all(level, body, made, view, steps)?;
    made.scope.pop();
    Ok(())
}

// Composes statements once for each number, in order, with a variable of this value.
#[cycle(again)]
fn run_turns<'a, V: View, L: Ledger>(
    level: &Level<'a>,
    name: &Ident,
    items: &[i64],
    body: &[Statement],
    made: &mut Progress<'a>,
    view: &mut V,
    steps: &mut Steps<L>,
) -> Result<(), ComposeStop>
    requires { HasRoom level.now made.old }
    ensures { Recomposes V.shows V.asked V.keeps level.now
        (loop_at level.now name.now.text (stmts_view body.now) made.old.scope items.now)
        (λ calc. StmtsCalculate calc (stmts_view body.now))
        view.old view.new made.old made.new result }
{
    for item in items {
        run_bound(level, name, Value::Int(*item), body, made, view, steps)?;
    }
    Ok(())
}

// Composes a call: evaluates its arguments, which its caller reads, and then the call itself.
#[cycle(again)]
fn run_arguments<'a, V: View, L: Ledger>(
    level: &Level<'a>,
    site: u32,
    function: usize,
    arguments: &[Expression],
    made: &mut Progress<'a>,
    view: &mut V,
    steps: &mut Steps<L>,
) -> Result<(), ComposeStop>
    requires { HasRoom level.now made.old }
    ensures { Recomposes V.shows V.asked V.keeps level.now
        (λ m. forest_after (eval_all m (exprs_view arguments.now) made.old.scope)
        (λ vs. call_at level.now site function vs m)) any_calculation
        view.old view.new made.old made.new result }
{
    let all = made.spares.take_values(level.alloc, arguments.len())?;
    let arguments = evaluate_all(
        level.alloc,
        all,
        arguments,
        &made.scope,
        view,
        &mut made.reads,
    )?;
    run_call(level, site, function, arguments, made, view, steps)
}

// Composes a call. It runs if it has no old group, its arguments differ, or its own reads include an owed object. Else
// it is skipped (`skipToGroupEnd`).
#[cycle(again)]
fn run_call<'a, V: View, L: Ledger>(
    level: &Level<'a>,
    site: u32,
    function: usize,
    arguments: Values,
    made: &mut Progress<'a>,
    view: &mut V,
    steps: &mut Steps<L>,
) -> Result<(), ComposeStop>
    requires { HasRoom level.now made.old }
    ensures { Recomposes V.shows V.asked V.keeps level.now
        (call_at level.now site function arguments) any_calculation
        view.old view.new made.old made.new result }
{
    let found = made
        .pending
        .take(level.alloc, &SiblingKey::new(site, None))?;
    if call_is_run(level.last, &found, function, arguments.items()) {
        return run_body(
            level,
            site,
            function,
            CallArguments::New(arguments),
            &found,
            made,
            view,
            steps,
        );
    }
    if function >= level.functions.len() {
        let call = GroupKind::Call {
            function,
            arguments,
        };
        made.writer
            .enter_call(level.alloc, level.depth, site, call, false)?;
        return Ok(());
    }
    made.spares.keep_values(arguments);
    match &found {
        Some(old) => skip_call(level, site, old, made, view, steps),
        None => Err(ComposeStop::NoMemory), // A call without an old group runs.
    }
}

// Composes a call that runs next to the old groups inside `found`: its group with its own reads, and the body of its
// function. A call of a function that is not an earlier one makes an empty group.
#[cycle(again)]
fn run_body<'a, V: View, L: Ledger>(
    level: &Level<'a>,
    site: u32,
    function: usize,
    arguments: CallArguments,
    found: &Option<OldGroup<'a>>,
    made: &mut Progress<'a>,
    view: &mut V,
    steps: &mut Steps<L>,
) -> Result<(), ComposeStop>
    requires room { HasRoomToWrite level.now made.old.writer }
    requires found { IsFoundIn level.now.last.now.groups found.now }
    requires arguments { AreArguments function arguments found.now }
    ensures { Writes V.shows V.asked V.keeps level.now.last.now.groups view.old view.new made.old made.new result
        (λ m. BodyRan level.now m site function (arguments_of arguments.entry) found.now (V.asked view.old)
        (V.asked view.new) made.old.writer made.new.writer result) }
{
    if function >= level.functions.len() {
        made.writer
            .enter_empty(level.alloc, level.depth, site, function, arguments, found)?;
        return Ok(());
    }
    let callee = &level.functions[function];
    let place = made.writer.len();
    let first = arguments.first_reads(found);
    let room = made.spares.take_scope(level.alloc);
    let scope = bind(level.alloc, room, &callee.parameters, arguments.values())?;
    made.writer
        .enter_running(level.alloc, level.depth, site, function, arguments, found)?;
    let around = made.enter_body(level, found, scope);
    let inside = Level {
        alloc: level.alloc,
        functions: &level.functions[..function],
        last: level.last,
        depth: level.depth + 1,
    };
    run_all(&inside, &callee.body, made, view, steps)?;
    let own = made.leave_body(around);
    made.writer
        .end_call(level.alloc, &mut made.spares, place, first, own)?;
    Ok(())
}

// Returns the functions before one, or all.
#[inline(always)]
fn front(functions: &[Function], count: usize) -> &[Function]
    ensures { result.now ≡ take count functions.now }
{
    if count < functions.len() {
        &functions[..count]
    } else {
        functions
    }
}

// Skips an old call. If no call is owed from it to the last group inside, all of them are kept at once.
#[cycle(again)]
#[inline(always)]
fn skip_call<'a, V: View, L: Ledger>(
    level: &Level<'a>,
    site: u32,
    old: &OldGroup<'a>,
    made: &mut Progress<'a>,
    view: &mut V,
    steps: &mut Steps<L>,
) -> Result<(), ComposeStop>
    requires room { HasRoomToWrite level.now made.old.writer }
    requires table { old.now.groups ≡ level.now.last.now.groups }
    ensures { Writes V.shows V.asked V.keeps level.now.last.now.groups view.old view.new made.old made.new result
        (λ m. GroupSkipped level.now m site old.now (V.asked view.old) (V.asked view.new) made.old.writer
        made.new.writer result) }
{
    if let Some(after) = quiet_call_end(level.last, level.depth, site, old) {
        steps.tick();
        made.writer.keep_run(old.index(), after)?;
        return Ok(());
    }
    skip_group(level, site, old, made, view, steps)
}

// Skips an old group that is an owed call or contains one. If it is owed itself it runs, else it is kept, and the groups
// inside are skipped.
#[cycle(again)]
#[inline(always)]
fn skip_group<'a, V: View, L: Ledger>(
    level: &Level<'a>,
    site: u32,
    old: &OldGroup<'a>,
    made: &mut Progress<'a>,
    view: &mut V,
    steps: &mut Steps<L>,
) -> Result<(), ComposeStop>
    requires room { HasRoomToWrite level.now made.old.writer }
    requires table { old.now.groups ≡ level.now.last.now.groups }
    ensures { Writes V.shows V.asked V.keeps level.now.last.now.groups view.old view.new made.old made.new result
        (λ m. GroupSkipped level.now m site old.now (V.asked view.old) (V.asked view.new) made.old.writer
        made.new.writer result) }
{
    steps.tick();
    match old.kind() {
        GroupKind::Call {
            function,
            arguments,
        } => {
            if meet(old.reads(), level.last) {
                let found = Some(old.copy());
                let arguments = CallArguments::Old(arguments);
                return run_body(level, site, *function, arguments, &found, made, view, steps);
            }
            keep_group(level, site, old, &mut made.writer)?;
            let inside = Level {
                alloc: level.alloc,
                functions: front(level.functions, *function),
                last: level.last,
                depth: level.depth + 1,
            };
            skip_all(&inside, old.first_inside(), made, view, steps)
        }
        GroupKind::Node { .. } => skip_inside(level, site, old, made, view, steps),
        GroupKind::Key(_) => skip_inside(level, site, old, made, view, steps),
        GroupKind::Cell { .. } => skip_inside(level, site, old, made, view, steps),
    }
}

// Keeps an old group that is no call, and skips the groups inside it.
#[cycle(again)]
fn skip_inside<'a, V: View, L: Ledger>(
    level: &Level<'a>,
    site: u32,
    old: &OldGroup<'a>,
    made: &mut Progress<'a>,
    view: &mut V,
    steps: &mut Steps<L>,
) -> Result<(), ComposeStop>
    requires room { HasRoomToWrite level.now made.old.writer }
    requires table { old.now.groups ≡ level.now.last.now.groups }
    ensures { is_call_kept (old_group old.now).what ≡ false
        → Writes V.shows V.asked V.keeps level.now.last.now.groups view.old view.new made.old made.new result
        (λ m. GroupSkipped level.now m site old.now (V.asked view.old) (V.asked view.new) made.old.writer
        made.new.writer result) }
{
    keep_group(level, site, old, &mut made.writer)?;
    let inside = Level {
        alloc: level.alloc,
        functions: level.functions,
        last: level.last,
        depth: level.depth + 1,
    };
    skip_all(&inside, old.first_inside(), made, view, steps)
}

// Skips the old groups from index `first` on, up to the first that is less deep. Groups between owed calls are kept all
// at once. A call that contains an owed one is skipped by itself, since the calls inside reach fewer functions. So is a
// group with several groups inside: the later ones are then passed over at once, if no call is owed there.
#[cycle(again)]
fn skip_all<'a, V: View, L: Ledger>(
    level: &Level<'a>,
    first: usize,
    made: &mut Progress<'a>,
    view: &mut V,
    steps: &mut Steps<L>,
) -> Result<(), ComposeStop>
    requires { HasRoomToWrite level.now made.old.writer }
    ensures { Writes V.shows V.asked V.keeps level.now.last.now.groups view.old view.new made.old made.new result
        (λ m. GroupsSkipped level.now m (drop first level.now.last.now.groups) (V.asked view.old) (V.asked view.new)
        made.old.writer made.new.writer result) }
{
    let last = level.last;
    let around = first.saturating_sub(1);
    let mut at = first;
    while at < last.len() {
        let stop = next_call(last, level.depth, around, at);
        made.writer.keep_run(at, stop)?;
        if is_end(last, level.depth, stop) {
            return Ok(());
        }
        let old = last.group(stop);
        let here = Level {
            alloc: level.alloc,
            functions: level.functions,
            last,
            depth: old.depth(),
        };
        if made.writer.len() < here.depth as usize {
            return Err(ComposeStop::NoMemory); // A group is after the groups that contain it.
        }
        skip_group(&here, old.site(), &old, made, view, steps)?;
        at = last.index_after(stop);
    }
    Ok(())
}

// Writes the groups of a frame: runs the root if everything is owed, else skips the old groups.
fn write_frame<'a, V: View, L: Ledger>(
    alloc: Global,
    program: &'a Checked,
    last: &'a LastGroups<'a>,
    made: &mut Progress<'a>,
    view: &mut V,
    steps: &mut Steps<L>,
) -> Result<(), ComposeStop>
    requires { FitsIn last.now.groups made.old.writer }
    ensures { Writes V.shows V.asked V.keeps last.now.groups view.old view.new made.old made.new result
        (λ m. FrameWritten program.now last.now m (V.asked view.old) (V.asked view.new) made.old.writer made.new.writer
        result) }
{
    let level = Level {
        alloc,
        functions: program.functions(),
        last,
        depth: 0,
    };
    if last.owes_all() {
        let root = program.root();
        return run_body(
            &level,
            0,
            root,
            CallArguments::New(Values::new(alloc)),
            &None,
            made,
            view,
            steps,
        );
    }
    skip_all(&level, 0, made, view, steps)
}

// Returns the draft of a frame after its groups were written. Fails like the writing that is given, or without memory
// for the draft.
fn draft_of(
    alloc: Global,
    written: Result<(), ComposeStop>,
    writer: Writer,
) -> Result<Draft, ComposeStop>
    ensures { Drafts writer.entry written result }
{
    written?;
    Ok(writer.into_draft(alloc)?)
}

// Composes a frame and returns its draft.
fn compose_draft<'a, V: View, L: Ledger>(
    alloc: Global,
    program: &'a Checked,
    last: &'a LastGroups<'a>,
    held: &Held,
    view: &mut V,
    steps: &mut Steps<L>,
) -> Result<Draft, ComposeStop>
    ensures keeps { V.keeps view.old view.new }
    ensures same { (m : Map) → V.shows view.old m → V.shows view.new m }
    ensures olds { IfOk result (λ d. d.olds ≡ last.now.groups) }
    ensures frame { (k : LastFrame) (m : Map) → V.shows view.old m → last.now.groups ≡ preorder 0 k.trail →
        held.now.next ≡ k.next →
        IsOwing (functions_of program.now) (root_of program.now) k.seen k.trail m last.now.owed →
        ComposesFrame (functions_of program.now) (root_of program.now) last.now.owed k m (V.asked view.old)
        (V.asked view.new) result }
{
    let mut made = Progress::new(alloc, last, held);
    let written = write_frame(alloc, program, last, &mut made, view, steps);
    draft_of(alloc, written, made.into_writer(held))
}

/// Composes a frame next to the groups of the last good frame (`recompose`), or everything before the first one
/// (`composeContent`).
///
/// A call runs if its path is new, its arguments differ, or its own reads include an owed object. In a call that runs,
/// a cell is calculated if its path is new or its keys differ. Everything else is kept with its node numbers. What is
/// held stays as it is: `Held::apply` takes the draft. Fails if there are more than 1,000,000 groups, or out of memory.
/// The view was then asked for a first part of the reads.
pub fn compose<V: View, L: Ledger>(
    alloc: Global,
    program: &Checked,
    held: &Held,
    owed: &Owed,
    view: &mut V,
    steps: &mut Steps<L>,
) -> Result<Draft, ComposeStop>
    ensures keeps { V.keeps view.old view.new }
    ensures same { (m : Map) → V.shows view.old m → V.shows view.new m }
    ensures olds { IfOk result (λ d. d.olds ≡ held.now.groups) }
    ensures frame { (k : LastFrame) (m : Map) → V.shows view.old m → Holds held.now k →
        IsOwing (functions_of program.now) (root_of program.now) k.seen k.trail m owed.now →
        ComposesFrame (functions_of program.now) (root_of program.now) owed.now k m (V.asked view.old)
        (V.asked view.new) result }
{
    let last = LastGroups::new(alloc, held, owed)?;
    compose_draft(alloc, program, &last, held, view, steps)
}
