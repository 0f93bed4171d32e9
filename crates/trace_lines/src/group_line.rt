// The groups of a frame.
ghost use Rattle.std.specs.Prelude.{◌≡◌, ◌<◌, ◌++◌, codes, length, OnOk};
ghost use Rattle.std.specs.List.{flat_map};
ghost use Rattle.slot_table.specs.TableGroups.{group_at};
ghost use Rattle.lang_ast.specs.SyntaxView.{functions_view};
ghost use Rattle.trace_lines.specs.TraceLines.{member, text, array, item_at, state_names, function_names, program_names, cause_members, mark_members, attribute_tokens, call_members, node_members, key_members, cell_members, kind_members, group_tokens, groups_tokens};

use crate::tokens::{
    begin_array, put_bytes, put_count, put_member, put_objects, put_text, put_truth, put_value,
    put_values, put_word,
};
use json::Writer;
use lang_ast::{Function, State};
use lang_checks::Checked;
use rt_groups::{Attribute, GroupKind};
use rt_values::{NoMemory, ObjectNo, Value, Word};
use run_causes::{Cause, Mark};
use slot_table::Table;

// Appends why a call ran, or that it did not.
fn put_cause(line: &mut Writer, states: &[State], cause: &Cause) -> Result<(), NoMemory>
    ensures tokens { OnOk result (line.new.tokens
        ≡ line.old.tokens ++ cause_members (state_names states.now) cause.now) }
    ensures before { OnOk result (line.new.before ≡ line.old.before) }
{
    match cause {
        Cause::NewPath => put_word(line, "cause", "new path"),
        Cause::OtherArguments(values) => {
            put_word(line, "cause", "other arguments")?;
            put_values(line, "old", values.items())
        }
        Cause::Read(objects) => {
            put_word(line, "cause", "read")?;
            put_objects(line, "owed", states, objects.numbers())
        }
        Cause::Skipped => put_word(line, "cause", "skipped"),
    }
}

// Appends the members that a mark adds to its group.
fn put_mark(line: &mut Writer, states: &[State], mark: &Mark) -> Result<(), NoMemory>
    ensures tokens { OnOk result (line.new.tokens
        ≡ line.old.tokens ++ mark_members (state_names states.now) mark.now) }
    ensures before { OnOk result (line.new.before ≡ line.old.before) }
{
    match mark {
        Mark::Call(cause) => {
            put_truth(line, "ran", cause.runs())?;
            put_cause(line, states, cause)
        }
        Mark::Cell { calculated } => put_truth(line, "calculated", *calculated),
        Mark::Other => Ok(()),
    }
}

// Appends an attribute.
fn put_attribute(line: &mut Writer, attribute: &Attribute) -> Result<(), NoMemory>
    ensures tokens { OnOk result (line.new.tokens ≡ line.old.tokens ++ attribute_tokens attribute.now) }
    ensures before { OnOk result (line.new.before ≡ line.old.before) }
{
    line.begin_array()?;
    put_bytes(line, attribute.name.bytes())?;
    put_value(line, &attribute.value)?;
    line.end_array()?;
    Ok(())
}

// Appends the attributes of a node.
fn put_attributes(line: &mut Writer, attributes: &[Attribute]) -> Result<(), NoMemory>
    ensures tokens { OnOk result (line.new.tokens ≡ line.old.tokens
        ++ member (codes "attributes") (array (flat_map attribute_tokens attributes.now))) }
    ensures before { OnOk result (line.new.before ≡ line.old.before) }
{
    begin_array(line, "attributes")?;
    let mut rest = attributes;
    while let Some((attribute, more)) = rest.split_first() {
        put_attribute(line, attribute)?;
        rest = more;
    }
    line.end_array()?;
    Ok(())
}

// Appends the name of a function, if the program has such a function.
fn put_function(line: &mut Writer, functions: &[Function], number: usize) -> Result<(), NoMemory>
    ensures tokens { OnOk result (line.new.tokens ≡ line.old.tokens
        ++ flat_map (text (codes "function")) (item_at (function_names (functions_view functions.now)) number)) }
    ensures before { OnOk result (line.new.before ≡ line.old.before) }
{
    match functions.get(number) {
        Some(function) => put_text(line, "function", function.name.text.bytes()),
        None => Ok(()),
    }
}

// Appends the members of a call.
fn put_call_members(
    line: &mut Writer,
    program: &Checked,
    function: usize,
    arguments: &[Value],
    reads: &[ObjectNo],
) -> Result<(), NoMemory>
    ensures tokens { OnOk result (line.new.tokens ≡ line.old.tokens
        ++ call_members (program_names program.now) function arguments.now reads.now) }
    ensures before { OnOk result (line.new.before ≡ line.old.before) }
{
    put_word(line, "kind", "call")?;
    put_values(line, "arguments", arguments)?;
    put_function(line, program.functions(), function)?;
    put_objects(line, "reads", program.states(), reads)
}

// Appends the members of a node.
fn put_node_members(
    line: &mut Writer,
    kind: &Word,
    number: u64,
    attributes: &[Attribute],
) -> Result<(), NoMemory>
    ensures tokens { OnOk result (line.new.tokens
        ≡ line.old.tokens ++ node_members kind.now number attributes.now) }
    ensures before { OnOk result (line.new.before ≡ line.old.before) }
{
    put_word(line, "kind", "node")?;
    put_text(line, "node", kind.bytes())?;
    put_count(line, "number", number)?;
    put_attributes(line, attributes)
}

// Appends the members of a key.
fn put_key_members(line: &mut Writer, value: &Value) -> Result<(), NoMemory>
    ensures tokens { OnOk result (line.new.tokens ≡ line.old.tokens ++ key_members value.now) }
    ensures before { OnOk result (line.new.before ≡ line.old.before) }
{
    put_word(line, "kind", "key")?;
    put_member(line, "key", value)
}

// Appends the members of a cell.
fn put_cell_members(line: &mut Writer, keys: &[Value], value: &Value) -> Result<(), NoMemory>
    ensures tokens { OnOk result (line.new.tokens ≡ line.old.tokens ++ cell_members keys.now value.now) }
    ensures before { OnOk result (line.new.before ≡ line.old.before) }
{
    put_word(line, "kind", "cell")?;
    put_values(line, "keys", keys)?;
    put_member(line, "value", value)
}

// Appends the members of the group at index `i` that depend on its kind.
fn put_kind(line: &mut Writer, program: &Checked, table: &Table, i: usize) -> Result<(), NoMemory>
    requires { i < length table.now.groups }
    ensures tokens { let g = group_at table.now.groups i in OnOk result (line.new.tokens
        ≡ line.old.tokens ++ kind_members (program_names program.now) g g.what) }
    ensures before { OnOk result (line.new.before ≡ line.old.before) }
{
    match table.kind(i) {
        GroupKind::Call {
            function,
            arguments,
        } => put_call_members(line, program, *function, arguments.items(), table.reads(i)),
        GroupKind::Node { kind, attributes } => {
            put_node_members(line, kind, table.number(i), attributes.items())
        }
        GroupKind::Key(value) => put_key_members(line, value),
        GroupKind::Cell { keys, value } => put_cell_members(line, keys.items(), value),
    }
}

// Appends the group at index `i` of the table, with its mark.
fn put_group(
    line: &mut Writer,
    program: &Checked,
    table: &Table,
    i: usize,
    mark: &Mark,
) -> Result<(), NoMemory>
    requires { i < length table.now.groups }
    ensures tokens { OnOk result (line.new.tokens ≡ line.old.tokens
        ++ group_tokens (program_names program.now) (group_at table.now.groups i) mark.now) }
    ensures before { OnOk result (line.new.before ≡ line.old.before) }
{
    line.begin_object()?;
    put_count(line, "depth", table.depth(i) as u64)?;
    put_count(line, "site", table.site(i) as u64)?;
    put_kind(line, program, table, i)?;
    put_mark(line, program.states(), mark)?;
    line.end_object()?;
    Ok(())
}

// Appends the groups of the table, each with its mark.
pub fn put_groups(
    line: &mut Writer,
    program: &Checked,
    table: &Table,
    marks: &[Mark],
) -> Result<(), NoMemory>
    ensures tokens { OnOk result (line.new.tokens ≡ line.old.tokens ++ member (codes "groups")
        (array (groups_tokens (program_names program.now) table.now.groups marks.now))) }
    ensures before { OnOk result (line.new.before ≡ line.old.before) }
{
    begin_array(line, "groups")?;
    let mut i = 0;
    while i < table.len() && i < marks.len() {
        put_group(line, program, table, i, &marks[i])?;
        i += 1;
    }
    line.end_array()?;
    Ok(())
}
