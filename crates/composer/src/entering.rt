// What is done before the statements inside a group, a variable or a call are composed.
ghost use Rattle.std.specs.Prelude.{◌≡◌, ◌≤◌, ◌++◌, ◌∷◌, [], Err, length, drop, slice_get, if◌then◌else◌, IfOk, OnOk};
ghost use Rattle.rt_groups.specs.declared.groups.GroupKind.TheVariants as kinds;
ghost use Rattle.rt_groups.specs.Paths.{GroupKey, same_sibling};
ghost use Rattle.rt_groups.specs.Frames.{most_groups};
ghost use Rattle.slot_table.specs.ReaderStates.{group_key};
ghost use Rattle.lang_ast.specs.Evaluation.{new_binding};
ghost use Rattle.compose_model.specs.Composing.{bind};
ghost use Rattle.composer.specs.WrittenGroups.{number_kept, written_kept, running_call, first_reads, enter_group, group_kind, arguments_of, AreArguments};
ghost use Rattle.composer.specs.OldSiblings.{old_group, found_siblings, IsFoundIn};
ghost use Rattle.composer.specs.Waiting.{waiting_siblings};

use crate::old_groups::OldGroup;
use crate::pending::Pending;
use crate::progress::Level;
use crate::spares::Spares;
use crate::stop::ComposeStop;
use crate::writer::{NewKind, Writer};
use group_keys::SiblingKey;
use lang_ast::Ident;
use lang_eval::Env;
use rt_groups::GroupKind;
use rt_values::{NoMemory, Value};

/// Matches a node or a key with an old sibling, and appends its group. Returns the old sibling.
#[inline(always)]
pub fn enter_group<'a>(
    level: &Level<'a>,
    site: u32,
    what: NewKind,
    pending: &mut Pending<'a>,
    writer: &mut Writer<'a>,
    spares: &mut Spares,
) -> Result<Option<OldGroup<'a>>, ComposeStop>
    requires { length writer.old.groups ≤ most_groups }
    ensures found { IfOk result (λ found. found ≡ slice_get (waiting_siblings pending.old
        (record { site = site; key = group_key (group_kind what.entry) })) 0) }
    ensures left { OnOk result ((s : GroupKey) → waiting_siblings pending.new s
        ≡ (if same_sibling (record { site = site; key = group_key (group_kind what.entry) }) s
        then drop 1 (waiting_siblings pending.old s) else waiting_siblings pending.old s)) }
    ensures table { OnOk result (pending.new.table.now.groups ≡ pending.old.table.now.groups) }
    ensures old { IfOk result (λ found. IsFoundIn pending.old.table.now.groups found) }
    ensures entered { IfOk result (λ found.
        writer.new ≡ enter_group level.now.depth site (group_kind what.entry) found writer.old) }
    ensures fits { OnOk result (length writer.new.groups ≤ most_groups) }
    ensures full { result ≡ Err ComposeStop.TooManyGroups → length writer.old.groups ≡ most_groups }
{
    let found = pending.take(level.alloc, &SiblingKey::new(site, what.key()))?;
    writer.enter(level.alloc, level.depth, site, what, &found, spares)?;
    Ok(found)
}

/// Adds a variable to the scope.
#[inline(always)]
pub fn push_name(name: &Ident, value: Value, scope: &mut Env) -> Result<(), NoMemory>
    ensures { OnOk result (scope.new ≡ scope.old ++ new_binding name.now.text value ∷ []) }
{
    let name = name.text.copy()?;
    scope.push(name, value)
}

/// Appends an old group, which is kept.
#[inline(always)]
pub fn keep_group(
    level: &Level,
    site: u32,
    old: &OldGroup,
    writer: &mut Writer,
) -> Result<(), ComposeStop>
    requires room { length writer.old.groups ≤ most_groups }
    requires table { old.now.groups ≡ writer.old.olds }
    ensures added { OnOk result (writer.new ≡ written_kept level.now.depth site
        (number_kept (old_group old.now).what (old_group old.now).number)
        (old_group old.now).what (old_group old.now).reads writer.old) }
    ensures fits { OnOk result (length writer.new.groups ≤ most_groups) }
    ensures full { result ≡ Err ComposeStop.TooManyGroups → length writer.old.groups ≡ most_groups }
{
    let number = kept_number(old.kind(), old.number());
    writer.keep(level.depth, site, number, old)
}

// Returns the number that a group keeps: that of a node.
#[inline(always)]
fn kept_number(what: &GroupKind, number: u64) -> u64
    ensures { result ≡ number_kept what.now number }
{
    match what {
        GroupKind::Node { .. } => number,
        _ => 0,
    }
}
