// Entering a block: what its head evaluates, and the group that it makes.
ghost use Rattle.std.specs.Prelude.{◌≡◌, ◌+◌, [], Some, length, map, IfOk, OnOk, OnErr};
ghost use Rattle.rt_values.specs.declared.value.Value.{Value as value_data};
ghost use Rattle.rt_values.specs.Maps.{Map};
ghost use Rattle.rt_values.specs.Views.{Grew};
ghost use Rattle.lang_ast.specs.Terms.{Node, Key, Remember};
ghost use Rattle.lang_ast.specs.SyntaxView.{expr_view, nameds_view, head_view};
ghost use Rattle.lang_ast.specs.Evaluation.{eval};
ghost use Rattle.composer.specs.WrittenGroups.{kept_of, value_kept};
ghost use Rattle.composer.specs.Recomposes.{HasRoom};
ghost use Rattle.composer.specs.EntersBlock.{EntersBlock};

use crate::compared::kept_value;
use crate::entering::enter_group;
use crate::old_groups::OldGroup;
use crate::progress::{Level, Progress};
use crate::stop::ComposeStop;
use crate::writer::{CellValue, NewKind};
use group_keys::SiblingKey;
use lang_ast::{Expression, Head, Ident, Named};
use lang_eval::{Env, eval_noting, evaluate_attributes, evaluate_keys};
use rt_groups::Deps;
use rt_values::{NoMemory, Value, View};
use std::alloc::Global;

/// How the body of a block is composed after its head.
#[derive(Drop)]
pub enum Entered<'a, 'h> {
    /// Inside the group of the block, next to the old groups inside the old group that it was matched with.
    Inside(Option<OldGroup<'a>>),
    /// With a variable of this value.
    Bound(&'h Ident, Value),
    /// Once for each number of this list, with a variable of its value.
    Turns(&'h Ident, Value),
}

/// Evaluates the head of a block, and matches and appends the group that it makes.
#[inline(always)]
pub fn enter_block<'a, 'h, V: View>(
    level: &Level<'a>,
    site: u32,
    head: &'h Head,
    made: &mut Progress<'a>,
    view: &mut V,
) -> Result<Entered<'a, 'h>, ComposeStop>
    requires { HasRoom level.now made.old }
    ensures { EntersBlock V.shows V.asked V.keeps level.now site (head_view head.now)
        view.old view.new made.old made.new result }
{
    match head {
        Head::Node { kind, attributes } => enter_node(level, site, kind, attributes, made, view),
        Head::Key { key } => enter_key(level, site, key, made, view),
        Head::For { name, list } => {
            let list = eval_noting(level.alloc, list, &made.scope, view, &mut made.reads)?;
            Ok(Entered::Turns(name, list))
        }
        Head::Let { name, value } => {
            let value = eval_noting(level.alloc, value, &made.scope, view, &mut made.reads)?;
            Ok(Entered::Bound(name, value))
        }
        Head::Remember { name, keys, value } => {
            enter_cell(level, site, name, keys, value, made, view)
        }
    }
}

// Evaluates the attributes of a node, matches its group with an old sibling, and appends it.
fn enter_node<'a, 'h, V: View>(
    level: &Level<'a>,
    site: u32,
    kind: &'h Ident,
    attributes: &[Named],
    made: &mut Progress<'a>,
    view: &mut V,
) -> Result<Entered<'a, 'h>, ComposeStop>
    requires { HasRoom level.now made.old }
    ensures { EntersBlock V.shows V.asked V.keeps level.now site (Node kind.now (nameds_view attributes.now))
        view.old view.new made.old made.new result }
{
    let room = made.spares.take_attributes(level.alloc, attributes.len())?;
    let attributes = evaluate_attributes(
        level.alloc,
        room,
        attributes,
        &made.scope,
        view,
        &mut made.reads,
    )?;
    let node = NewKind::Node {
        kind: &kind.text,
        attributes,
    };
    let found = enter_group(
        level,
        site,
        node,
        &mut made.pending,
        &mut made.writer,
        &mut made.spares,
    )?;
    Ok(Entered::Inside(found))
}

// Evaluates a key, matches its group with an old sibling, and appends it.
fn enter_key<'a, 'h, V: View>(
    level: &Level<'a>,
    site: u32,
    key: &'h Expression,
    made: &mut Progress<'a>,
    view: &mut V,
) -> Result<Entered<'a, 'h>, ComposeStop>
    requires { HasRoom level.now made.old }
    ensures { EntersBlock V.shows V.asked V.keeps level.now site (Key (expr_view key.now))
        view.old view.new made.old made.new result }
{
    let key = eval_noting(level.alloc, key, &made.scope, view, &mut made.reads)?;
    let found = enter_group(
        level,
        site,
        NewKind::Key(key),
        &mut made.pending,
        &mut made.writer,
        &mut made.spares,
    )?;
    Ok(Entered::Inside(found))
}

// Returns the value of a cell: that of the old cell if its keys are equal, else the calculated value (`cache`).
fn remember<V: View>(
    alloc: Global,
    found: &Option<OldGroup>,
    env: &Env,
    value: &Expression,
    view: &mut V,
    reads: &mut Deps,
) -> Result<CellValue, NoMemory>
    ensures keeps { V.keeps view.old view.new }
    ensures same { (m : Map) → V.shows view.old m → V.shows view.new m }
    ensures value { (m : Map) (v : value_data) → V.shows view.old m →
        ((w : value_data) → kept_of found.now (map (λ b. b.value) env.now) ≡ Some w → w ≡ v) →
        (eval m (expr_view value.now) env.now).value ≡ v → IfOk result (λ w. w.value ≡ v) }
    ensures kept { IfOk result (λ w. kept_of found.now (map (λ b. b.value) env.now) ≡ value_kept w) }
    ensures asks { (m : Map) → V.shows view.old m → (eval m (expr_view value.now) env.now).reads ≡ [] →
        OnOk result (V.asked view.new ≡ V.asked view.old) }
    ensures reads { (m : Map) → V.shows view.old m → (eval m (expr_view value.now) env.now).reads ≡ [] →
        OnOk result (reads.new ≡ reads.old) }
    ensures part { (m : Map) → V.shows view.old m →
        OnErr result (Grew (V.asked view.old) (V.asked view.new) (eval m (expr_view value.now) env.now).reads) }
    ensures counted { (m : Map) → V.shows view.old m →
        OnOk result (length reads.new + length (V.asked view.old) ≡ length reads.old + length (V.asked view.new)) }
{
    match kept_value(alloc, found, env)? {
        Some(kept) => Ok(CellValue {
            value: kept,
            is_kept: true,
        }),
        None => Ok(CellValue {
            value: eval_noting(alloc, value, env, view, reads)?,
            is_kept: false,
        }),
    }
}

// Evaluates the keys of a cell, keeps or calculates its value, and appends its group.
fn enter_cell<'a, 'h, V: View>(
    level: &Level<'a>,
    site: u32,
    name: &'h Ident,
    keys: &[Named],
    value: &Expression,
    made: &mut Progress<'a>,
    view: &mut V,
) -> Result<Entered<'a, 'h>, ComposeStop>
    requires { HasRoom level.now made.old }
    ensures { EntersBlock V.shows V.asked V.keeps level.now site
        (Remember name.now (nameds_view keys.now) (expr_view value.now))
        view.old view.new made.old made.new result }
{
    let room = made.spares.take_scope(level.alloc);
    let env = evaluate_keys(level.alloc, room, keys, &made.scope, view, &mut made.reads)?;
    let found = made
        .pending
        .take(level.alloc, &SiblingKey::new(site, None))?;
    let remembered = remember(level.alloc, &found, &env, value, view, &mut made.reads)?;
    made.writer.enter_cell(
        level.alloc,
        &mut made.spares,
        level.depth,
        site,
        env,
        &remembered,
        &found,
    )?;
    Ok(Entered::Bound(name, remembered.value))
}
