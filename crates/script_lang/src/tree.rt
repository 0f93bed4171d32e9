// Lines of frames.
ghost use Rattle.std.specs.Prelude.{◌≡◌, ◌++◌, ◌∷◌, [], List, ℕ, Bool, false, OnOk, OnErr, codes, map, take};
ghost use Rattle.std.specs.Fmt.{decimal};
ghost use Rattle.rt_values.specs.Values.{value_text};
ghost use Rattle.script_lang.specs.Lines.{report_line, count_text, work_text, size_text, margin, node_text, node_line, attributes_text, line};
ghost use Rattle.script_lang.specs.GroupLines.{plain_attribute, node_depth, line_of, is_node};

use crate::line::{add, add_name, add_number, add_printed, or_empty, put_bytes};
use rt_groups::{Attribute, Attributes, GroupKind, Report};
use rt_values::{NoMemory, Word};
use std::alloc::Global;
use std::marker::Model;

// Appends a word and a number.
#[inline(always)]
#[tactic(auto, unfolding(crate::specs::Lines::count_text), using(crate::proofs::Texts::joins))]
fn append_count(text: &mut Vec<u8>, word: &[u8], count: u64) -> Result<(), NoMemory>
    ensures { OnOk result (text.new.items ≡ text.old.items ++ count_text word.now count) }
{
    add(text, word)?;
    add_number(text, count)
}

/// Appends a word and a number. If the process is out of memory, `text` is empty afterwards. A rule of this project.
#[inline(always)]
pub fn add_count(text: &mut Vec<u8>, word: &[u8], count: u64) -> Result<(), NoMemory>
    ensures ok { OnOk result (text.new.items ≡ text.old.items ++ count_text word.now count) }
    ensures err { OnErr result (text.new.items ≡ []) }
{
    let done = append_count(text, word, count);
    or_empty(text, done)
}

fn add_work(text: &mut Vec<u8>, ran: u64, calculated: u64, reads: u64) -> Result<(), NoMemory>
    ensures { OnOk result (text.new.items ≡ text.old.items ++ work_text ran calculated reads) }
{
    append_count(text, b"report: ran ", ran)?;
    append_count(text, b", calculated ", calculated)?;
    append_count(text, b", reads ", reads)
}

#[tactic(auto, using(crate::proofs::Texts::joins))]
fn add_size(text: &mut Vec<u8>, groups: u64, nodes: u64) -> Result<(), NoMemory>
    ensures { OnOk result (text.new.items ≡ text.old.items ++ size_text groups nodes) }
{
    append_count(text, b", groups ", groups)?;
    append_count(text, b", nodes ", nodes)
}

// Appends the line of a frame's report.
#[tactic(auto, using(crate::proofs::Texts::joins))]
fn append_report(text: &mut Vec<u8>, report: &Report) -> Result<(), NoMemory>
    ensures { OnOk result (text.new.items ≡ text.old.items ++ report_line report.now) }
{
    add_work(text, report.ran, report.calculated, report.reads)?;
    add_size(text, report.groups, report.nodes)?;
    add(text, b"\n")
}

/// Appends the line of a frame's report. If the process is out of memory, `text` is empty afterwards.
pub fn add_report(text: &mut Vec<u8>, report: &Report) -> Result<(), NoMemory>
    ensures ok { OnOk result (text.new.items ≡ text.old.items ++ report_line report.now) }
    ensures err { OnErr result (text.new.items ≡ []) }
{
    let done = append_report(text, report);
    or_empty(text, done)
}

/// Appends the line of a frame that was refused because it has too many groups. If the process is out of memory, `text`
/// is empty afterwards.
pub fn add_refused(text: &mut Vec<u8>) -> Result<(), NoMemory>
    ensures ok { OnOk result (text.new.items ≡ text.old.items ++ line (codes "refused: too many groups")) }
    ensures err { OnErr result (text.new.items ≡ []) }
{
    let done = add(text, b"refused: too many groups\n");
    or_empty(text, done)
}

// Appends an attribute: a blank, the name, = and the value.
#[inline(always)]
#[tactic(auto, using(crate::proofs::Texts::joins))]
fn add_attribute(text: &mut Vec<u8>, attribute: &Attribute) -> Result<(), NoMemory>
    ensures { let this = 32 ∷ attribute.now.name ++ 61 ∷ value_text attribute.now.value in
        OnOk result (text.new.items ≡ text.old.items ++ this) }
{
    let name = attribute.name.bytes();
    text.reserve(name.len() + 2)?;
    text.push_reserved(b' ');
    put_bytes(text, name);
    text.push_reserved(b'=');
    add_printed(text, &attribute.value)
}

// Appends each attribute.
#[tactic(auto, using(crate::proofs::Texts::joins))]
fn add_attributes(text: &mut Vec<u8>, attributes: &[Attribute]) -> Result<(), NoMemory>
    ensures { OnOk result (text.new.items ≡ text.old.items ++ attributes_text (map plain_attribute attributes.now)) }
{
    let mut rest = attributes;
    while let Some((attribute, more)) = rest.split_first() {
        add_attribute(text, attribute)?;
        rest = more;
    }
    Ok(())
}

// Appends two blanks for each node among the open groups.
#[tactic(auto, using(crate::proofs::Texts::joins))]
fn add_margin(text: &mut Vec<u8>, outer: &[bool]) -> Result<(), NoMemory>
    ensures { OnOk result (text.new.items ≡ text.old.items ++ margin (node_depth outer.now)) }
{
    let mut rest = outer;
    while let Some((is_node, more)) = rest.split_first() {
        if *is_node {
            add(text, b"  ")?;
        }
        rest = more;
    }
    Ok(())
}

// Appends a node: its number, its kind and its attributes.
#[tactic(auto, using(crate::proofs::Texts::joins))]
pub fn add_node_text(
    text: &mut Vec<u8>,
    number: u64,
    kind: &Word,
    attributes: &[Attribute],
) -> Result<(), NoMemory>
    ensures { let this = node_text number kind.now (map plain_attribute attributes.now) in
        OnOk result (text.new.items ≡ text.old.items ++ this) }
{
    text.push(b'#')?;
    add_number(text, number)?;
    text.push(b' ')?;
    add_name(text, kind)?;
    add_attributes(text, attributes)
}

// Appends the line of a node: two blanks for each enclosing node, its number, its kind and its attributes.
#[tactic(auto, using(crate::proofs::Texts::joins))]
fn add_node(
    text: &mut Vec<u8>,
    outer: &[bool],
    number: u64,
    kind: &Word,
    attributes: &Attributes,
) -> Result<(), NoMemory>
    ensures { let this = node_line (node_depth outer.now) number kind.now (map plain_attribute attributes.now) in
        OnOk result (text.new.items ≡ text.old.items ++ this) }
{
    add_margin(text, outer)?;
    add_node_text(text, number, kind, attributes.items())?;
    text.push(b'\n')?;
    Ok(())
}

/// The open groups at a point of a composition, outermost first: true for a node. Their nodes are the indent of
/// a node's line. A rule of this project.
#[derive(Drop)]
pub struct OpenGroups {
    nodes: Vec<bool>,
}

impl Model for OpenGroups {
    ghost use Rattle.std.specs.Prelude.{List, Bool};

    ghost Value = { List Bool };

    ghost view = { λ groups. groups.nodes.items };
}

impl OpenGroups {
    /// Creates the state before the first group: no group is open.
    pub fn new(alloc: Global) -> Self
        ensures { result ≡ [] }
    {
        OpenGroups {
            nodes: Vec::new(alloc),
        }
    }

    /// Appends the line of the next group in preorder if it is a node, and opens the group, which has this depth,
    /// number and kind. If the process is out of memory, `text` is empty afterwards.
    pub fn add_group(
        &mut self,
        text: &mut Vec<u8>,
        depth: u32,
        number: u64,
        kind: &GroupKind,
    ) -> Result<(), NoMemory>
        ensures text { let this = line_of (node_depth (take depth self.old)) number kind.now in
            OnOk result (text.new.items ≡ text.old.items ++ this) }
        ensures err { OnErr result (text.new.items ≡ []) }
        ensures opened { OnOk result (self.new ≡ take depth self.old ++ is_node kind.now ∷ []) }
    {
        let done = self.append_group(text, depth, number, kind);
        or_empty(text, done)
    }

    // Appends the line of the next group in preorder if it is a node, and opens the group.
    fn append_group(
        &mut self,
        text: &mut Vec<u8>,
        depth: u32,
        number: u64,
        kind: &GroupKind,
    ) -> Result<(), NoMemory>
        ensures text { let this = line_of (node_depth (take depth self.old)) number kind.now in
            OnOk result (text.new.items ≡ text.old.items ++ this) }
        ensures opened { OnOk result (self.new ≡ take depth self.old ++ is_node kind.now ∷ []) }
    {
        match kind {
            GroupKind::Node { kind, attributes } => {
                self.nodes.truncate(depth as usize);
                add_node(text, &self.nodes, number, kind, attributes)?;
                self.nodes.push(true)?;
                Ok(())
            }
            GroupKind::Call { .. } => self.open_other(depth),
            GroupKind::Key(_) => self.open_other(depth),
            GroupKind::Cell { .. } => self.open_other(depth),
        }
    }

    /// Opens the next group in preorder, which has this depth and is not a node. It has no line.
    pub fn open_other(&mut self, depth: u32) -> Result<(), NoMemory>
        ensures { OnOk result (self.new ≡ take depth self.old ++ false ∷ []) }
    {
        self.nodes.truncate(depth as usize);
        self.nodes.push(false)?;
        Ok(())
    }
}
