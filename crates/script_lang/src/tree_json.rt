// The tree of a frame as JSON.
ghost use Rattle.std.specs.Prelude.{◌≡◌, ◌≤◌, ◌<◌, ◌+◌, ◌++◌, ◌∷◌, [], List, ℕ, Bool, true, false, OnOk, OnErr, IfOk, IfSome, IsNone, codes, length, map, reverse, nat_le, vec_len, vec_capacity};
ghost use Rattle.std.specs.Char.{digit_char};
ghost use Rattle.std.specs.Ordering.{nat_cmp};
ghost use Rattle.std.specs.Cmp.Lexicographic.{slice_cmp};
ghost use Rattle.json.specs.Print.{escape, escape_byte, quoted};
ghost use Rattle.serde_json.specs.Data.{array, no_members, put};
ghost use Rattle.serde_json.specs.Written.{comma_if, number_text, compact_text, members_text};
ghost use Rattle.script_lang.specs.TreeJson.{value_data, integer_data, integers_data, with_attributes};
ghost use Rattle.script_lang.specs.GroupLines.{plain_attribute};
ghost use Rattle.script_lang.specs.GroupJson.{JsonState, json_state, node_start, node_end, ends_from, state_at, json_of, json_after, initial_json};
ghost use Rattle.script_lang.specs.SortedAttributes.{sorted_members};

use crate::line::{add, add_number, add_printed, or_empty};
use rt_groups::{Attribute, GroupKind};
use rt_values::{NoMemory, Value, Word};
use std::alloc::Global;
use std::cmp::Ordering;
use std::marker::Model;

// Returns the hexadecimal digit.
fn hex_digit(digit: u8) -> u8
    requires { digit < 16 }
    ensures { result ≡ digit_char digit }
{
    if digit < 10 {
        b'0' + digit
    } else {
        b'a' - 10 + digit
    }
}

// Appends one byte of a string, with an escape for a quote, a backslash and a control character.
#[tactic(auto, unfolding(json::specs::Print::escape_byte))]
fn add_escaped(text: &mut Vec<u8>, byte: u8) -> Result<(), NoMemory>
    ensures { OnOk result (text.new.items ≡ text.old.items ++ escape_byte byte) }
{
    match byte {
        b'"' => add(text, b"\\\""),
        b'\\' => add(text, b"\\\\"),
        b'\n' => add(text, b"\\n"),
        b'\t' => add(text, b"\\t"),
        b'\r' => add(text, b"\\r"),
        8 => add(text, b"\\b"),
        12 => add(text, b"\\f"),
        _ => {
            if byte >= 32 {
                text.push(byte)?;
                return Ok(());
            }
            add(text, b"\\u00")?;
            text.push(hex_digit(byte / 16))?;
            text.push(hex_digit(byte % 16))?;
            Ok(())
        }
    }
}

// Returns whether a string has this byte without an escape.
#[inline(always)]
#[tactic(auto, unfolding(json::specs::Print::escape_byte))]
fn is_plain_byte(byte: u8) -> bool
    ensures { result ≡ true → escape_byte byte ≡ byte ∷ [] }
{
    byte >= 32 && byte != b'"' && byte != b'\\'
}

// Appends the bytes before the first one that needs an escape, for which there is capacity. Returns the other bytes.
#[inline(always)]
#[tactic(auto, using(crate::proofs::Texts::joins))]
fn put_plain<'b>(text: &mut Vec<u8>, bytes: &'b [u8]) -> &'b [u8]
    requires { vec_len text.old + length bytes.now ≤ vec_capacity text.old }
    ensures items { text.new.items ++ escape result.now ≡ text.old.items ++ escape bytes.now }
    ensures len { vec_len text.new + length result.now ≡ vec_len text.old + length bytes.now }
    ensures capacity { vec_capacity text.new ≡ vec_capacity text.old }
{
    let mut rest = bytes;
    while let Some((byte, more)) = rest.split_first() {
        if !is_plain_byte(*byte) {
            return rest;
        }
        text.push_reserved(*byte);
        rest = more;
    }
    rest
}

// Appends bytes of a string, with escapes.
#[inline(never)]
#[tactic(auto, using(crate::proofs::Texts::joins))]
fn add_escapes(text: &mut Vec<u8>, bytes: &[u8]) -> Result<(), NoMemory>
    ensures { OnOk result (text.new.items ≡ text.old.items ++ escape bytes.now) }
{
    let mut rest = bytes;
    while let Some((byte, more)) = rest.split_first() {
        add_escaped(text, *byte)?;
        rest = more;
    }
    Ok(())
}

// Appends a string with its quotes. Most names need no escapes.
#[tactic(auto, using(crate::proofs::Texts::joins))]
fn add_quoted(text: &mut Vec<u8>, bytes: &[u8]) -> Result<(), NoMemory>
    ensures { OnOk result (text.new.items ≡ text.old.items ++ quoted bytes.now) }
{
    let Some(most) = bytes.len().checked_add(2) else {
        return Err(NoMemory); // No memory holds so many bytes.
    };
    text.reserve(most)?;
    text.push_reserved(b'"');
    let rest = put_plain(text, bytes);
    if rest.is_empty() {
        text.push_reserved(b'"');
        return Ok(());
    }
    add_escapes(text, rest)?;
    text.push(b'"')?;
    Ok(())
}

// Appends a comma if an item comes before.
fn add_comma(text: &mut Vec<u8>, later: bool) -> Result<(), NoMemory>
    ensures { OnOk result (text.new.items ≡ text.old.items ++ comma_if later) }
{
    if later {
        return add(text, b",");
    }
    Ok(())
}

// Appends a number.
fn add_integer(text: &mut Vec<u8>, integer: i64) -> Result<(), NoMemory>
    ensures { OnOk result (text.new.items ≡ text.old.items ++ number_text (integer_data integer)) }
{
    Value::Int(integer).put(text)
}

// Appends the numbers of a list as an array.
#[tactic(auto, using(crate::proofs::Texts::joins))]
fn add_integers(text: &mut Vec<u8>, integers: &[i64]) -> Result<(), NoMemory>
    ensures { OnOk result (text.new.items ≡ text.old.items ++ compact_text (array (integers_data integers.now))) }
{
    text.push(b'[')?;
    let mut later = false;
    let mut rest = integers;
    while let Some((integer, more)) = rest.split_first() {
        add_comma(text, later)?;
        add_integer(text, *integer)?;
        later = true;
        rest = more;
    }
    text.push(b']')?;
    Ok(())
}

// Appends a value. The literal of a number or a truth value is JSON.
fn add_value(text: &mut Vec<u8>, value: &Value) -> Result<(), NoMemory>
    ensures { OnOk result (text.new.items ≡ text.old.items ++ compact_text (value_data value.now)) }
{
    match value {
        Value::Int(_) => add_printed(text, value),
        Value::Bool(_) => add_printed(text, value),
        Value::Text(chars) => add_quoted(text, chars.bytes()),
        Value::Ints(list) => add_integers(text, list.items()),
    }
}

// Compares two names byte by byte.
fn compare_names(name: &Word, other: &Word) -> Ordering
    ensures { result ≡ slice_cmp nat_cmp name.now other.now }
{
    name.bytes().cmp(other.bytes())
}

// Inserts an attribute before the first one with a greater name. It replaces one with the same name.
fn insert_by_name<'g>(
    sorted: &mut Vec<&'g Attribute>,
    attribute: &'g Attribute,
) -> Result<(), NoMemory>
    ensures { let all = put attribute.now.name (value_data attribute.now.value) (sorted_members sorted.old.items) in
        OnOk result (sorted_members sorted.new.items ≡ all) }
{
    for index in 0..sorted.len() {
        match compare_names(&attribute.name, &sorted[index].name) {
            Ordering::Less => {
                sorted.insert(index, attribute)?;
                return Ok(());
            }
            Ordering::Equal => {
                sorted[index] = attribute;
                return Ok(());
            }
            Ordering::Greater => {}
        }
    }
    sorted.push(attribute)?;
    Ok(())
}

// Sorts attributes by the bytes of their names.
fn sort_by_name<'g>(
    sorted: &mut Vec<&'g Attribute>,
    attributes: &'g [Attribute],
) -> Result<(), NoMemory>
    ensures { let all = with_attributes no_members (map plain_attribute attributes.now) in
        OnOk result (sorted_members sorted.new.items ≡ all) }
{
    sorted.clear();
    let mut rest = attributes;
    while let Some((attribute, more)) = rest.split_first() {
        insert_by_name(sorted, attribute)?;
        rest = more;
    }
    Ok(())
}

// Appends an attribute as a member.
#[tactic(auto, using(crate::proofs::Texts::joins))]
fn add_member(text: &mut Vec<u8>, later: bool, attribute: &Attribute) -> Result<(), NoMemory>
    ensures { let name = quoted attribute.now.name in
        let value = compact_text (value_data attribute.now.value) in
        OnOk result (text.new.items ≡ text.old.items ++ (comma_if later ++ (name ++ 58 ∷ value))) }
{
    add_comma(text, later)?;
    add_quoted(text, attribute.name.bytes())?;
    text.push(b':')?;
    add_value(text, &attribute.value)
}

// Appends attributes as the members of an object, with its brackets.
#[tactic(auto, using(crate::proofs::Texts::joins))]
fn add_members(text: &mut Vec<u8>, attributes: &[&Attribute]) -> Result<(), NoMemory>
    ensures { let members = members_text false (sorted_members attributes.now) in
        OnOk result (text.new.items ≡ text.old.items ++ 123 ∷ members) }
{
    text.push(b'{')?;
    let mut later = false;
    for attribute in attributes {
        add_member(text, later, attribute)?;
        later = true;
    }
    text.push(b'}')?;
    Ok(())
}

// Appends a node before its children.
#[tactic(auto, using(crate::proofs::Texts::joins))]
fn add_start<'g>(
    text: &mut Vec<u8>,
    attributes: &'g [Attribute],
    sorted: &mut Vec<&'g Attribute>,
) -> Result<(), NoMemory>
    ensures { OnOk result (text.new.items ≡ text.old.items ++ node_start (map plain_attribute attributes.now)) }
{
    sort_by_name(sorted, attributes)?;
    add(text, b"{\"attributes\":")?;
    add_members(text, sorted)?;
    add(text, b",\"children\":[")
}

// Appends a node after its children.
#[tactic(auto, using(crate::proofs::Texts::joins))]
fn add_end(text: &mut Vec<u8>, number: u64, kind: &Word) -> Result<(), NoMemory>
    ensures { OnOk result (text.new.items ≡ text.old.items ++ node_end number kind.now) }
{
    add(text, b"],\"kind\":")?;
    add_quoted(text, kind.bytes())?;
    add(text, b",\"number\":")?;
    add_number(text, number)?;
    text.push(b'}')?;
    Ok(())
}

// A node whose children are being written.
#[derive(Drop)]
struct OpenJsonNode<'g> {
    depth: u32,
    number: u64,
    kind: &'g Word,
}

impl<'g> Model for OpenJsonNode<'g> {
    ghost use Rattle.script_lang.specs.GroupJson.{OpenNode, open_node};

    ghost Value = { OpenNode };

    ghost view = { λ n. open_node n.depth n.number n.kind.now };
}

/// The JSON of a node tree, written group by group: the state between two groups of a composition in preorder. Each
/// byte is written once, and no second tree is made. A rule of this project.
#[derive(Drop)]
pub struct TreeWriter<'g> {
    open_nodes: Vec<OpenJsonNode<'g>>,
    // Whether the list of children at this point has a node.
    later: bool,
    // The attributes of one node, in the order of their names.
    sorted: Vec<&'g Attribute>,
}

impl<'g> Model for TreeWriter<'g> {
    ghost use Rattle.std.specs.Prelude.{reverse};
    ghost use Rattle.script_lang.specs.GroupJson.{JsonState, json_state};

    ghost Value = { JsonState };

    ghost view = { λ w. json_state (reverse w.open_nodes.items) w.later };
}

impl<'g> TreeWriter<'g> {
    /// Begins the list of top nodes. If the process is out of memory, `text` is empty afterwards.
    pub fn begin(alloc: Global, text: &mut Vec<u8>) -> Result<Self, NoMemory>
        ensures text { OnOk result (text.new.items ≡ text.old.items ++ 91 ∷ []) }
        ensures err { OnErr result (text.new.items ≡ []) }
        ensures state { IfOk result (λ w. w ≡ initial_json) }
    {
        let done = add(text, b"[");
        or_empty(text, done)?;
        Ok(TreeWriter {
            open_nodes: Vec::new(alloc),
            later: false,
            sorted: Vec::new(alloc),
        })
    }

    // Removes the innermost open node if it has this depth or a greater one.
    fn pop_from(&mut self, depth: u32) -> Option<OpenJsonNode<'g>>
        ensures some { IfSome result (λ n. self.old.open_nodes ≡ n ∷ self.new.open_nodes) }
        ensures deep { IfSome result (λ n. nat_le depth n.depth ≡ true) }
        ensures none { IsNone result → self.new ≡ self.old }
        ensures ends { IsNone result → ends_from depth self.old.open_nodes ≡ [] }
        ensures state { IsNone result → state_at depth self.old.open_nodes self.old.later ≡ self.old }
    {
        match self.open_nodes.last() {
            Some(node) if node.depth >= depth => self.open_nodes.pop(),
            _ => None,
        }
    }

    // Appends the ends of the open nodes at this depth or deeper.
    fn close_from(&mut self, text: &mut Vec<u8>, depth: u32) -> Result<(), NoMemory>
        ensures text { OnOk result (text.new.items ≡ text.old.items ++ ends_from depth self.old.open_nodes) }
        ensures state { OnOk result (self.new ≡ state_at depth self.old.open_nodes self.old.later) }
    {
        while let Some(node) = self.pop_from(depth) {
            add_end(text, node.number, node.kind)?;
            self.later = true;
        }
        Ok(())
    }

    /// Appends the text of the next group in preorder, which has this depth, number and kind: the ends of the nodes
    /// before it, and its own start if it is a node. If the process is out of memory, `text` is empty afterwards.
    pub fn add_group(
        &mut self,
        text: &mut Vec<u8>,
        depth: u32,
        number: u64,
        kind: &'g GroupKind,
    ) -> Result<(), NoMemory>
        ensures text { let around = state_at depth self.old.open_nodes self.old.later in
            let this = ends_from depth self.old.open_nodes ++ json_of around.later kind.now in
            OnOk result (text.new.items ≡ text.old.items ++ this) }
        ensures err { OnErr result (text.new.items ≡ []) }
        ensures state { let around = state_at depth self.old.open_nodes self.old.later in
            OnOk result (self.new ≡ json_after depth number kind.now around) }
    {
        let done = self.append_group(text, depth, number, kind);
        or_empty(text, done)
    }

    // Appends the ends of the nodes before the next group, and its own start if it is a node.
    fn append_group(
        &mut self,
        text: &mut Vec<u8>,
        depth: u32,
        number: u64,
        kind: &'g GroupKind,
    ) -> Result<(), NoMemory>
        ensures text { let around = state_at depth self.old.open_nodes self.old.later in
            let this = ends_from depth self.old.open_nodes ++ json_of around.later kind.now in
            OnOk result (text.new.items ≡ text.old.items ++ this) }
        ensures state { let around = state_at depth self.old.open_nodes self.old.later in
            OnOk result (self.new ≡ json_after depth number kind.now around) }
    {
        self.close_from(text, depth)?;
        match kind {
            GroupKind::Node { kind, attributes } => {
                add_comma(text, self.later)?;
                add_start(text, attributes.items(), &mut self.sorted)?;
                self.open_nodes.push(OpenJsonNode {
                    depth,
                    number,
                    kind,
                })?;
                self.later = false;
                Ok(())
            }
            GroupKind::Call { .. } => Ok(()),
            GroupKind::Key(_) => Ok(()),
            GroupKind::Cell { .. } => Ok(()),
        }
    }

    /// Appends the text of the next group in preorder, which has this depth and is not a node. If the process is out of
    /// memory, `text` is empty afterwards.
    pub fn add_other(&mut self, text: &mut Vec<u8>, depth: u32) -> Result<(), NoMemory>
        ensures text { OnOk result (text.new.items ≡ text.old.items ++ ends_from depth self.old.open_nodes) }
        ensures err { OnErr result (text.new.items ≡ []) }
        ensures state { OnOk result (self.new ≡ state_at depth self.old.open_nodes self.old.later) }
    {
        let done = self.close_from(text, depth);
        or_empty(text, done)
    }

    // Appends the ends of the list of top nodes and of the line.
    fn append_end(&mut self, text: &mut Vec<u8>) -> Result<(), NoMemory>
        ensures { OnOk result (text.new.items ≡ text.old.items ++ (ends_from 0 self.old.open_nodes ++ codes "]\n")) }
    {
        self.close_from(text, 0)?;
        add(text, b"]\n")
    }

    /// Ends the list of top nodes, and the line. If the process is out of memory, `text` is empty afterwards.
    pub fn finish(mut self, text: &mut Vec<u8>) -> Result<(), NoMemory>
        ensures ok { OnOk result (text.new.items ≡
            text.old.items ++ (ends_from 0 self.entry.open_nodes ++ codes "]\n")) }
        ensures err { OnErr result (text.new.items ≡ []) }
    {
        let done = self.append_end(text);
        or_empty(text, done)
    }
}
