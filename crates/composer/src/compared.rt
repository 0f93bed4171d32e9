// Comparisons of new groups with old ones, as the composer compares with the slot table.
ghost use Rattle.std.specs.Prelude.{◌≡◌, IfOk, map, true};
ghost use Rattle.std.specs.Option.{option_map};
ghost use Rattle.rt_values.specs.Values.{same_values};
ghost use Rattle.rt_groups.specs.declared.groups.GroupKind.TheVariants as kinds;
ghost use Rattle.rt_groups.specs.Frames.{meets};
ghost use Rattle.slot_table.specs.ReaderStates.{group_key};
ghost use Rattle.composer.specs.Comparisons.{same_attribute, same_attributes, same_call, call_runs};
ghost use Rattle.composer.specs.WrittenGroups.{kept_of};

use crate::last_groups::LastGroups;
use crate::old_groups::OldGroup;
use lang_eval::Env;
use rt_groups::{Attribute, GroupKind};
use rt_values::{NoMemory, ObjectNo, Value, Word};
use std::alloc::Global;

/// Returns the value of a key group.
pub fn key_of(what: &GroupKind) -> Option<&Value>
    ensures { option_map (λ v. v.now) result ≡ group_key what.now }
{
    match what {
        GroupKind::Key(value) => Some(value),
        _ => None,
    }
}

// Returns whether both lists have equal values in the same order.
fn same_lists(values: &[Value], others: &[Value]) -> bool
    ensures { result ≡ same_values values.now others.now }
{
    let mut rest = others;
    for value in values {
        let Some((other, more)) = rest.split_first() else {
            return false;
        };
        if !value.same(other) {
            return false;
        }
        rest = more;
    }
    rest.is_empty()
}

// Returns whether both attributes have equal names and values.
#[inline(always)]
fn is_same_attribute(attribute: &Attribute, other: &Attribute) -> bool
    ensures { result ≡ same_attribute attribute.now other.now }
{
    attribute.value.same(&other.value) && attribute.name.is(other.name.bytes())
}

// Returns whether both lists have equal attributes in the same order.
#[inline(always)]
fn same_attributes(attributes: &[Attribute], others: &[Attribute]) -> bool
    ensures { result ≡ same_attributes attributes.now others.now }
{
    let mut rest = others;
    for attribute in attributes {
        let Some((other, more)) = rest.split_first() else {
            return false;
        };
        if !is_same_attribute(attribute, other) {
            return false;
        }
        rest = more;
    }
    rest.is_empty()
}

// Returns whether both lists have equal values. Nodes that change mostly do so in a value, so this test comes before
// that of the names. Its answer decides about time alone.
#[inline(always)]
fn may_be_same(attributes: &[Attribute], others: &[Attribute]) -> bool {
    let mut rest = others;
    for attribute in attributes {
        let Some((other, more)) = rest.split_first() else {
            return false;
        };
        if !attribute.value.same(&other.value) {
            return false;
        }
        rest = more;
    }
    true
}

/// Returns whether it is a node with this kind and equal attributes.
#[inline(always)]
pub fn is_same_node(what: &GroupKind, kind: &Word, attributes: &[Attribute]) -> bool
    ensures { result ≡ true → what.now ≡ kinds.Node kind.now attributes.now }
{
    match what {
        GroupKind::Node {
            kind: word,
            attributes: others,
        } => {
            let olds = others.items();
            if !may_be_same(olds, attributes) || !word.is(kind.bytes()) {
                return false;
            }
            same_attributes(olds, attributes)
        }
        _ => false,
    }
}

/// Returns whether it is a key with an equal value.
pub fn is_same_key(what: &GroupKind, value: &Value) -> bool
    ensures { result ≡ true → what.now ≡ kinds.Key value.now }
{
    match what {
        GroupKind::Key(key) => key.same(value),
        _ => false,
    }
}

// Returns whether it is a call of this function with equal arguments.
fn is_same_call(what: &GroupKind, function: usize, arguments: &[Value]) -> bool
    ensures { result ≡ same_call what.now (kinds.Call function arguments.now) }
{
    match what {
        GroupKind::Call {
            function: callee,
            arguments: values,
        } => *callee == function && same_lists(values.items(), arguments),
        _ => false,
    }
}

/// Returns whether a call runs: it has no old group, its arguments differ, or its own reads include an owed object.
#[inline(always)]
pub fn call_is_run(
    last: &LastGroups,
    found: &Option<OldGroup>,
    function: usize,
    arguments: &[Value],
) -> bool
    ensures { result ≡ call_runs last.now.owed.objects found.now (kinds.Call function arguments.now) }
{
    let Some(old) = found else {
        return true;
    };
    !is_same_call(old.kind(), function, arguments) || meet(old.reads(), last)
}

/// Returns a copy of the value of an old cell if it was calculated for the values of these variables.
#[inline(always)]
pub fn kept_value(
    alloc: Global,
    found: &Option<OldGroup>,
    keys: &Env,
) -> Result<Option<Value>, NoMemory>
    ensures { IfOk result (λ o. o ≡ kept_of found.now (map (λ b. b.value) keys.now)) }
{
    let Some(old) = found else {
        return Ok(None);
    };
    match old.kind() {
        GroupKind::Cell { keys: kept, value } => {
            if keys.has_values(kept.items()) {
                return Ok(Some(value.copy(alloc)?));
            }
            Ok(None)
        }
        GroupKind::Call { .. } => Ok(None),
        GroupKind::Node { .. } => Ok(None),
        GroupKind::Key(_) => Ok(None),
    }
}

/// Returns whether a call with these reads reads an owed object.
#[inline(always)]
pub fn meet(reads: &[ObjectNo], last: &LastGroups) -> bool
    ensures { result ≡ meets reads.now last.now.owed.objects }
{
    for x in reads {
        if last.owes(*x) {
            return true;
        }
    }
    false
}
