// Composing from scratch.
ghost use Rattle.std.specs.Prelude.{List, ◌≡◌, ◌+◌, ◌≤◌, ◌<◌, ◌++◌, ◌∷◌, [], Err, length, IfOk, OnOk, OnErr};
ghost use Rattle.rt_values.specs.Maps.{Map};
ghost use Rattle.rt_values.specs.Views.{Grew};
ghost use Rattle.rt_groups.specs.declared.groups.Group.{Group as group_data};
ghost use Rattle.rt_groups.specs.declared.groups.GroupKind.TheVariants.{Call};
ghost use Rattle.rt_groups.specs.GroupForest.{asks, how_many};
ghost use Rattle.rt_groups.specs.PreorderGroups.{flat_group, preorder};
ghost use Rattle.rt_groups.specs.Frames.{most_groups};
ghost use Rattle.lang_ast.specs.Terms.{Node, Key, If};
ghost use Rattle.lang_ast.specs.SyntaxView.{expr_view, exprs_view, nameds_view, head_view, stmt_view, stmts_view, functions_view};
ghost use Rattle.lang_ast.specs.Evaluation.{new_binding, eval, eval_all, eval_named};
ghost use Rattle.compose_model.specs.Composing.{bind, forest_after, forest};
ghost use Rattle.lang_meaning.specs.ComposesForest.{Composes, HasRoom, statement_at, block_at, body_at, call_at, loop_at, head_at, cell_at};
ghost use Rattle.lang_meaning.specs.EntersBlock.{EntersBlock};

use lang_ast::{Expression, Function, Head, Ident, Named, Statement};
use lang_eval::{Env, bind, eval_noting, evaluate_all, evaluate_attributes, evaluate_keys};
use rt_groups::{Group, GroupKind, Groups, Values};
use rt_values::{NoMemory, Objects, Value, View};
use std::alloc::Global;
use std::mem;
use thiserror::Error;

/// Why a program was not composed.
#[derive(Clone, Copy, Debug, PartialEq, Eq, Error)]
pub enum ScratchStop {
    /// The composition has more than 1,000,000 groups.
    #[error("the composition has too many groups")]
    TooManyGroups,
    /// Out of memory.
    #[error("out of memory")]
    NoMemory,
}

// The maximum number of groups.
const MOST_GROUPS: usize = 1000000;

impl From<NoMemory> for ScratchStop {
    ghost use Rattle.std.specs.Prelude.{◌≡◌};
    ghost use Rattle.lang_meaning.specs.declared.composition.ScratchStop.TheVariants.{NoMemory as no_memory};

    ghost from_gives = { λ _ e. e ≡ no_memory };

    fn from(_: NoMemory) -> ScratchStop {
        ScratchStop::NoMemory
    }
}

// Appends `group`. Fails if there are 1,000,000 groups already.
fn add_group(groups: &mut Groups, group: Group) -> Result<(), ScratchStop>
    requires { length groups.old ≤ most_groups }
    ensures added { OnOk result (groups.new ≡ groups.old ++ group ∷ []) }
    ensures fits { OnOk result (length groups.new ≤ most_groups) }
    ensures full { result ≡ Err ScratchStop.TooManyGroups → length groups.old ≡ most_groups }
{
    if groups.len() >= MOST_GROUPS {
        return Err(ScratchStop::TooManyGroups);
    }
    groups.push(group)?;
    Ok(())
}

/// Where statements are composed: the functions that their calls reach, and the depth of their groups.
#[derive(Clone, Copy)]
pub struct Level<'a> {
    pub alloc: Global,
    pub functions: &'a [Function],
    pub depth: u32,
}

/// What composing has made so far: the variables in scope, the reads of the innermost call, and the groups.
#[derive(Drop)]
pub struct Progress {
    pub scope: Env,
    pub reads: Objects,
    pub groups: Groups,
}

impl Level<'_> {
    // Returns a group without reads at this depth.
    fn group(&self, site: u32, what: GroupKind) -> Group
        ensures { result ≡ flat_group self.now.depth site 0 what [] }
    {
        Group {
            depth: self.depth,
            site,
            number: 0,
            what,
            reads: Objects::new(self.alloc),
        }
    }
}

// Evaluates the attributes of a node, and appends its group without children.
fn add_node<V: View>(
    level: &Level,
    site: u32,
    kind: &Ident,
    attributes: &[Named],
    made: &mut Progress,
    view: &mut V,
) -> Result<(), ScratchStop>
    requires { HasRoom level.now made.old }
    ensures more { OnOk result (length made.new.groups ≡ length made.old.groups + 1) }
    ensures composed { Composes V.shows V.asked V.keeps level.now.depth
        (head_at site (Node kind.now (nameds_view attributes.now)) made.old.scope)
        view.old view.new made.old made.new result }
{
    let room = made
        .groups
        .take_spare_attributes(level.alloc, attributes.len())?;
    let attributes = evaluate_attributes(
        level.alloc,
        room,
        attributes,
        &made.scope,
        view,
        &mut made.reads,
    )?;
    let kind = kind.text.copy()?;
    let node = GroupKind::Node { kind, attributes };
    add_group(&mut made.groups, level.group(site, node))
}

// Evaluates a key, and appends its group without children.
fn add_key<V: View>(
    level: &Level,
    site: u32,
    key: &Expression,
    made: &mut Progress,
    view: &mut V,
) -> Result<(), ScratchStop>
    requires { HasRoom level.now made.old }
    ensures more { OnOk result (length made.new.groups ≡ length made.old.groups + 1) }
    ensures composed { Composes V.shows V.asked V.keeps level.now.depth
        (head_at site (Key (expr_view key.now)) made.old.scope)
        view.old view.new made.old made.new result }
{
    let key = eval_noting(level.alloc, key, &made.scope, view, &mut made.reads)?;
    add_group(&mut made.groups, level.group(site, GroupKind::Key(key)))
}

// Evaluates the keys and the value of a cell, and appends its group. Returns the value.
fn add_cell<V: View>(
    level: &Level,
    site: u32,
    keys: &[Named],
    value: &Expression,
    made: &mut Progress,
    view: &mut V,
) -> Result<Value, ScratchStop>
    requires { HasRoom level.now made.old }
    ensures value { (m : Map) → V.shows view.old m → IfOk result (λ v. v ≡
        (eval m (expr_view value.now) (eval_named m (nameds_view keys.now) made.old.scope).value).value) }
    ensures composed { Composes V.shows V.asked V.keeps level.now.depth
        (cell_at site (nameds_view keys.now) (expr_view value.now) made.old.scope)
        view.old view.new made.old made.new result }
{
    let room = Env::new(level.alloc);
    let keys = evaluate_keys(level.alloc, room, keys, &made.scope, view, &mut made.reads)?;
    let value = eval_noting(level.alloc, value, &keys, view, &mut made.reads)?;
    let keys = keys.into_values(level.alloc)?;
    let copy = value.copy(level.alloc)?;
    let cell = GroupKind::Cell { keys, value: copy };
    add_group(&mut made.groups, level.group(site, cell))?;
    Ok(value)
}

/// How the body of a block is composed after its head.
#[derive(Drop)]
pub enum Entered<'a> {
    /// Inside the group of the block.
    Inside,
    /// With a variable of this value.
    Bound(&'a Ident, Value),
    /// Once for each number of this list, with a variable of its value.
    Turns(&'a Ident, Value),
}

// Evaluates the head of a block, and appends the group that it makes.
fn enter_block<'a, V: View>(
    level: &Level,
    site: u32,
    head: &'a Head,
    made: &mut Progress,
    view: &mut V,
) -> Result<Entered<'a>, ScratchStop>
    requires { HasRoom level.now made.old }
    ensures { EntersBlock V.shows V.asked V.keeps level.now.depth site (head_view head.now)
        view.old view.new made.old made.new result }
{
    match head {
        Head::Node { kind, attributes } => {
            add_node(level, site, kind, attributes, made, view)?;
            Ok(Entered::Inside)
        }
        Head::Key { key } => {
            add_key(level, site, key, made, view)?;
            Ok(Entered::Inside)
        }
        Head::For { name, list } => {
            let list = eval_noting(level.alloc, list, &made.scope, view, &mut made.reads)?;
            Ok(Entered::Turns(name, list))
        }
        Head::Let { name, value } => {
            let value = eval_noting(level.alloc, value, &made.scope, view, &mut made.reads)?;
            Ok(Entered::Bound(name, value))
        }
        Head::Remember { name, keys, value } => {
            let value = add_cell(level, site, keys, value, made, view)?;
            Ok(Entered::Bound(name, value))
        }
    }
}

// Starts a call after `groups`: binds the parameters of its function, and appends the group of the call. `groups` has
// no meaning afterwards.
fn enter_call(
    level: &Level,
    site: u32,
    function: usize,
    callee: &Function,
    arguments: Values,
    groups: &mut Groups,
) -> Result<Progress, ScratchStop>
    requires { length groups.old ≤ most_groups }
    ensures scope { IfOk result (λ p. p.scope ≡ bind callee.now.parameters.items arguments) }
    ensures reads { IfOk result (λ p. p.reads ≡ []) }
    ensures groups { IfOk result (λ p.
        p.groups ≡ groups.old ++ flat_group level.now.depth site 0 (Call function arguments) [] ∷ []) }
    ensures fits { IfOk result (λ p. length p.groups ≤ most_groups) }
    ensures full { result ≡ Err ScratchStop.TooManyGroups → length groups.old ≡ most_groups }
{
    let room = Env::new(level.alloc);
    let scope = bind(level.alloc, room, &callee.parameters, &arguments)?;
    let mut inner = Progress {
        scope,
        reads: Objects::new(level.alloc),
        groups: mem::replace(groups, Groups::new(level.alloc)),
    };
    let call = GroupKind::Call {
        function,
        arguments,
    };
    add_group(&mut inner.groups, level.group(site, call))?;
    Ok(inner)
}

// Ends a call whose group is at index `place`: this group gets the reads of the call. Returns the groups.
fn leave_call(inner: Progress, place: usize) -> Groups
    requires { place < length inner.groups }
    ensures len { length result ≡ length inner.groups }
    ensures reads { (before after : List group_data) (g : group_data) →
        length before ≡ place → inner.groups ≡ before ++ (g ∷ after) →
        result ≡ before ++ (flat_group g.depth g.site g.number g.what inner.reads ∷ after) }
{
    let own_reads = inner.reads;
    let mut groups = inner.groups;
    groups.set_reads(place, own_reads);
    groups
}

// Composes statements in order.
#[cycle(run)]
fn run_all<V: View>(
    level: &Level,
    body: &[Statement],
    made: &mut Progress,
    view: &mut V,
) -> Result<(), ScratchStop>
    requires { HasRoom level.now made.old }
    ensures { Composes V.shows V.asked V.keeps level.now.depth
        (body_at level.now (stmts_view body.now) made.old.scope)
        view.old view.new made.old made.new result }
{
    for statement in body {
        run_one(level, statement, made, view)?;
    }
    Ok(())
}

// Composes one statement.
#[cycle(run)]
fn run_one<V: View>(
    level: &Level,
    statement: &Statement,
    made: &mut Progress,
    view: &mut V,
) -> Result<(), ScratchStop>
    requires { HasRoom level.now made.old }
    ensures { Composes V.shows V.asked V.keeps level.now.depth
        (statement_at level.now (stmt_view statement.now) made.old.scope)
        view.old view.new made.old made.new result }
{
    match statement {
        Statement::Call {
            site,
            function,
            arguments,
            ..
        } => run_arguments(level, *site, *function, arguments, made, view),
        Statement::If {
            condition,
            then_branch,
            else_branch,
            ..
        } => run_if(level, condition, then_branch, else_branch, made, view),
        Statement::Block {
            site,
            head,
            body,
            ..
        } => run_block(level, *site, head, body, made, view),
    }
}

// Composes a block: enters it, and composes its body inside its group, with a variable, or once for each number.
#[cycle(run)]
fn run_block<V: View>(
    level: &Level,
    site: u32,
    head: &Head,
    body: &[Statement],
    made: &mut Progress,
    view: &mut V,
) -> Result<(), ScratchStop>
    requires { HasRoom level.now made.old }
    ensures { Composes V.shows V.asked V.keeps level.now.depth
        (block_at level.now site (head_view head.now) (stmts_view body.now) made.old.scope)
        view.old view.new made.old made.new result }
{
    match enter_block(level, site, head, made, view)? {
        Entered::Inside => {
            let inside = Level {
                alloc: level.alloc,
                functions: level.functions,
                depth: level.depth + 1,
            };
            run_all(&inside, body, made, view)
        }
        Entered::Bound(name, value) => run_bound(level, name, value, body, made, view),
        Entered::Turns(name, list) => run_turns(level, name, list.items(), body, made, view),
    }
}

// Evaluates the condition and composes one of two lists of statements.
#[cycle(run)]
fn run_if<V: View>(
    level: &Level,
    condition: &Expression,
    then_branch: &[Statement],
    else_branch: &[Statement],
    made: &mut Progress,
    view: &mut V,
) -> Result<(), ScratchStop>
    requires { HasRoom level.now made.old }
    ensures { Composes V.shows V.asked V.keeps level.now.depth
        (statement_at level.now
        (If 0 0 (expr_view condition.now) (stmts_view then_branch.now) (stmts_view else_branch.now)) made.old.scope)
        view.old view.new made.old made.new result }
{
    let condition = eval_noting(level.alloc, condition, &made.scope, view, &mut made.reads)?;
    if condition.is_true() {
        return run_all(level, then_branch, made, view);
    }
    run_all(level, else_branch, made, view)
}

// Composes statements with a new variable in scope, which is removed afterwards.
#[cycle(run)]
fn run_bound<V: View>(
    level: &Level,
    name: &Ident,
    value: Value,
    body: &[Statement],
    made: &mut Progress,
    view: &mut V,
) -> Result<(), ScratchStop>
    requires { HasRoom level.now made.old }
    ensures { Composes V.shows V.asked V.keeps level.now.depth
        (body_at level.now (stmts_view body.now) (made.old.scope ++ new_binding name.now.text value ∷ []))
        view.old view.new made.old made.new result }
{
    let name = name.text.copy()?;
    made.scope.push(name, value)?;
    run_all(level, body, made, view)?;
    made.scope.pop();
    Ok(())
}

// Composes statements once for each number, in order, with a variable of this value.
#[cycle(run)]
fn run_turns<V: View>(
    level: &Level,
    name: &Ident,
    items: &[i64],
    body: &[Statement],
    made: &mut Progress,
    view: &mut V,
) -> Result<(), ScratchStop>
    requires { HasRoom level.now made.old }
    ensures { Composes V.shows V.asked V.keeps level.now.depth
        (loop_at level.now name.now.text (stmts_view body.now) made.old.scope items.now)
        view.old view.new made.old made.new result }
{
    for item in items {
        run_bound(level, name, Value::Int(*item), body, made, view)?;
    }
    Ok(())
}

// Composes a call: evaluates its arguments, which its caller reads, and composes the function with them.
#[cycle(run)]
fn run_arguments<V: View>(
    level: &Level,
    site: u32,
    function: usize,
    arguments: &[Expression],
    made: &mut Progress,
    view: &mut V,
) -> Result<(), ScratchStop>
    requires { HasRoom level.now made.old }
    ensures { Composes V.shows V.asked V.keeps level.now.depth
        (λ m. forest_after (eval_all m (exprs_view arguments.now) made.old.scope)
        (λ vs. call_at level.now site function vs m))
        view.old view.new made.old made.new result }
{
    let all = Values::new(level.alloc);
    let arguments = evaluate_all(
        level.alloc,
        all,
        arguments,
        &made.scope,
        view,
        &mut made.reads,
    )?;
    run_call(level, site, function, arguments, made, view)
}

// Appends the group of a call and composes the body of its function. The group gets the reads of the call itself. A
// call of a function that is not an earlier one makes an empty group.
#[cycle(run)]
fn run_call<V: View>(
    level: &Level,
    site: u32,
    function: usize,
    arguments: Values,
    made: &mut Progress,
    view: &mut V,
) -> Result<(), ScratchStop>
    requires { HasRoom level.now made.old }
    ensures { Composes V.shows V.asked V.keeps level.now.depth
        (call_at level.now site function arguments)
        view.old view.new made.old made.new result }
{
    if function >= level.functions.len() {
        let call = GroupKind::Call {
            function,
            arguments,
        };
        return add_group(&mut made.groups, level.group(site, call));
    }
    let callee = &level.functions[function];
    let place = made.groups.len();
    let mut inner = enter_call(level, site, function, callee, arguments, &mut made.groups)?;
    let inside = Level {
        alloc: level.alloc,
        functions: &level.functions[..function],
        depth: level.depth + 1,
    };
    run_all(&inside, &callee.body, &mut inner, view)?;
    made.groups = leave_call(inner, place);
    Ok(())
}

/// Composes a program from scratch (`Composer.composeContent` in an empty slot table). Returns the groups that a call
/// of the function `root` without arguments makes, in preorder, each call with its own reads. By a rule of this project
/// a call of a function that is not declared earlier makes nothing.
///
/// Fails if there are more than 1,000,000 groups, as soon as it would append the next one, or out of memory. The view
/// was then asked for a first part of the reads. `room` is a scratch buffer: its groups are discarded, and its capacity
/// is used.
pub fn scratch<V: View>(
    alloc: Global,
    functions: &[Function],
    root: usize,
    room: Groups,
    view: &mut V,
) -> Result<Groups, ScratchStop>
    ensures keeps { V.keeps view.old view.new }
    ensures same { (m : Map) → V.shows view.old m → V.shows view.new m }
    ensures groups { (m : Map) → V.shows view.old m →
        IfOk result (λ g. g ≡ preorder 0 (forest (functions_view functions.now) root m)) }
    ensures fits { (m : Map) → V.shows view.old m →
        OnOk result (how_many (forest (functions_view functions.now) root m) ≤ most_groups) }
    ensures many { (m : Map) → V.shows view.old m → result ≡ Err ScratchStop.TooManyGroups →
        most_groups < how_many (forest (functions_view functions.now) root m) }
    ensures asks { (m : Map) → V.shows view.old m →
        OnOk result (V.asked view.new ≡
        V.asked view.old ++ asks (forest (functions_view functions.now) root m)) }
    ensures part { (m : Map) → V.shows view.old m →
        OnErr result (Grew (V.asked view.old) (V.asked view.new)
        (asks (forest (functions_view functions.now) root m))) }
{
    let level = Level {
        alloc,
        functions,
        depth: 0,
    };
    let mut made = Progress {
        scope: Env::new(alloc),
        reads: Objects::new(alloc),
        groups: room,
    };
    made.groups.clear();
    let arguments = Values::new(alloc);
    run_call(&level, 0, root, arguments, &mut made, view)?;
    Ok(made.groups)
}
