// The line of a frame.
ghost use Rattle.std.specs.Prelude.{◌≡◌, ◌++◌, ◌∷◌, [], map, codes, OnOk};
ghost use Rattle.json.specs.Token.{string};
ghost use Rattle.script_lang.specs.Lines.{op_text};
ghost use Rattle.trace_lines.specs.TraceLines.{member, array, program_names, report_tokens, report_members, head_members, head_view, good_frame_tokens, refused_frame_tokens};

use crate::group_line::put_groups;
use crate::tokens::{begin_array, put_bytes, put_count, put_objects, put_text, put_word};
use json::Writer;
use lang_ast::State;
use lang_checks::Checked;
use node_tree::{Op, Ops};
use rt_groups::Report;
use rt_values::{Name, NoMemory, ObjectNo};
use run_causes::Mark;
use script_lang::add_op;
use slot_table::Table;

/// The first members of the line of a frame.
#[derive(Drop)]
pub struct FrameHead<'a> {
    /// The number of the frame, from 1.
    pub number: u64,
    /// The name of the actor that made the frame, empty for a caller that is no actor.
    pub actor: &'a [u8],
    /// The number of the frame's snapshot.
    pub snapshot: Name,
    /// The objects that changed since the previous frame.
    pub changed: &'a [ObjectNo],
    /// The objects that the frame owes.
    pub owed: &'a [ObjectNo],
}

/// The content of the line of a good frame after its head.
#[derive(Drop)]
pub struct GoodFrame<'a> {
    /// The report of the frame.
    pub report: &'a Report,
    /// The groups of the frame.
    pub table: &'a Table,
    /// The marks of the groups, one for each group.
    pub marks: &'a [Mark],
    /// The calls on the applier.
    pub ops: &'a Ops,
}

// Appends the numbers of a report.
fn put_numbers(line: &mut Writer, report: &Report) -> Result<(), NoMemory>
    ensures tokens { OnOk result (line.new.tokens ≡ line.old.tokens ++ report_members report.now) }
    ensures before { OnOk result (line.new.before ≡ line.old.before) }
{
    put_count(line, "ran", report.ran)?;
    put_count(line, "calculated", report.calculated)?;
    put_count(line, "reads", report.reads)?;
    put_count(line, "groups", report.groups)?;
    put_count(line, "nodes", report.nodes)
}

// Appends a report.
fn put_report(line: &mut Writer, report: &Report) -> Result<(), NoMemory>
    ensures tokens { OnOk result (line.new.tokens
        ≡ line.old.tokens ++ member (codes "report") (report_tokens report.now)) }
    ensures before { OnOk result (line.new.before ≡ line.old.before) }
{
    line.key("report")?;
    line.begin_object()?;
    put_numbers(line, report)?;
    line.end_object()?;
    Ok(())
}

// Appends a call on an applier as its line of `run --ops` without `op: ` and LF. `part` is a scratch buffer.
fn put_op(line: &mut Writer, op: &Op, part: &mut Vec<u8>) -> Result<(), NoMemory>
    ensures tokens { OnOk result (line.new.tokens ≡ line.old.tokens ++ string (op_text op.now) ∷ []) }
    ensures before { OnOk result (line.new.before ≡ line.old.before) }
{
    part.clear();
    add_op(part, op)?;
    let _ = part.pop();
    put_bytes(line, &part[4..])
}

// Appends the calls on an applier.
fn put_ops(line: &mut Writer, ops: &Ops, part: &mut Vec<u8>) -> Result<(), NoMemory>
    ensures tokens { OnOk result (line.new.tokens
        ≡ line.old.tokens ++ member (codes "ops") (array (map string (map op_text ops.now)))) }
    ensures before { OnOk result (line.new.before ≡ line.old.before) }
{
    begin_array(line, "ops")?;
    let mut rest = ops.items();
    while let Some((op, more)) = rest.split_first() {
        put_op(line, op, part)?;
        rest = more;
    }
    line.end_array()?;
    Ok(())
}

// Appends the first members of the line of a frame.
fn put_head(line: &mut Writer, program: &Checked, head: &FrameHead) -> Result<(), NoMemory>
    ensures tokens { OnOk result (line.new.tokens
        ≡ line.old.tokens ++ head_members (program_names program.now) (head_view head.now)) }
    ensures before { OnOk result (line.new.before ≡ line.old.before) }
{
    put_count(line, "frame", head.number)?;
    put_text(line, "actor", head.actor)?;
    put_count(line, "snapshot", head.snapshot)?;
    put_objects(line, "changed", program.states(), head.changed)?;
    put_objects(line, "owed", program.states(), head.owed)
}

/// Appends the line of a good frame, without LF. `part` is a scratch buffer. Fails if memory runs out, or if a name is
/// not UTF-8. The names of a parsed program are UTF-8.
pub fn put_good_frame(
    line: &mut Writer,
    program: &Checked,
    head: &FrameHead,
    frame: &GoodFrame,
    part: &mut Vec<u8>,
) -> Result<(), NoMemory>
    ensures tokens { OnOk result (line.new.tokens ≡ line.old.tokens
        ++ good_frame_tokens (program_names program.now) (head_view head.now) frame.now.report.now
        frame.now.table.now.groups frame.now.marks.now (map op_text frame.now.ops.now)) }
    ensures before { OnOk result (line.new.before ≡ line.old.before) }
{
    line.begin_object()?;
    put_head(line, program, head)?;
    put_report(line, frame.report)?;
    put_groups(line, program, frame.table, frame.marks)?;
    put_ops(line, frame.ops, part)?;
    line.end_object()?;
    Ok(())
}

/// Appends the line of a refused frame, without LF. Fails as `put_good_frame` does.
pub fn put_refused_frame(
    line: &mut Writer,
    program: &Checked,
    head: &FrameHead,
) -> Result<(), NoMemory>
    ensures tokens { OnOk result (line.new.tokens
        ≡ line.old.tokens ++ refused_frame_tokens (program_names program.now) (head_view head.now)) }
    ensures before { OnOk result (line.new.before ≡ line.old.before) }
{
    line.begin_object()?;
    put_head(line, program, head)?;
    put_word(line, "refused", "too many groups")?;
    line.end_object()?;
    Ok(())
}
