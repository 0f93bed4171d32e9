// Lines of calls on an applier.
ghost use Rattle.std.specs.Prelude.{◌≡◌, ◌++◌, ◌∷◌, [], List, ℕ, OnOk, OnErr, codes};
ghost use Rattle.std.specs.Fmt.{decimal};
ghost use Rattle.rt_values.specs.Values.{value_text};
ghost use Rattle.script_lang.specs.Lines.{op_text, op_line, new_node_text};

use crate::line::{add, add_number, or_empty};
use crate::tree::add_node_text;
use node_tree::{NewNode, Op};
use rt_values::{NoMemory, Value, Word};

// Appends a number.
fn add_index(text: &mut Vec<u8>, index: usize) -> Result<(), NoMemory>
    ensures { OnOk result (text.new.items ≡ text.old.items ++ decimal index) }
{
    add_number(text, index as u64)
}

// Appends a word and a number.
#[tactic(auto, using(crate::proofs::Texts::joins))]
fn add_indexed(text: &mut Vec<u8>, word: &[u8], index: usize) -> Result<(), NoMemory>
    ensures { OnOk result (text.new.items ≡ text.old.items ++ (word.now ++ decimal index)) }
{
    add(text, word)?;
    add_index(text, index)
}

// Appends a word, an index and an inserted node.
#[tactic(auto, using(crate::proofs::Texts::joins))]
fn add_insert(text: &mut Vec<u8>, word: &[u8], index: usize, node: &NewNode) -> Result<(), NoMemory>
    ensures { let words = word.now ++ decimal index ++ 32 ∷ new_node_text node.now in
        OnOk result (text.new.items ≡ text.old.items ++ words) }
{
    add_indexed(text, word, index)?;
    text.push(b' ')?;
    add_node_text(text, node.number, &node.kind, node.attributes.items())
}

// Appends a removal.
#[tactic(auto, using(crate::proofs::Texts::joins))]
fn add_remove(text: &mut Vec<u8>, index: usize, count: usize) -> Result<(), NoMemory>
    ensures { let words = codes "remove " ++ decimal index ++ 32 ∷ decimal count in
        OnOk result (text.new.items ≡ text.old.items ++ words) }
{
    add_indexed(text, b"remove ", index)?;
    add_indexed(text, b" ", count)
}

// Appends a move.
#[tactic(auto, using(crate::proofs::Texts::joins))]
fn add_move(text: &mut Vec<u8>, from: usize, to: usize, count: usize) -> Result<(), NoMemory>
    ensures { let words = codes "move " ++ decimal from ++ 32 ∷ decimal to ++ 32 ∷ decimal count in
        OnOk result (text.new.items ≡ text.old.items ++ words) }
{
    add_indexed(text, b"move ", from)?;
    add_indexed(text, b" ", to)?;
    add_indexed(text, b" ", count)
}

// Appends an attribute that is set.
#[tactic(auto, using(crate::proofs::Texts::joins))]
fn add_set(text: &mut Vec<u8>, name: &Word, value: &Value) -> Result<(), NoMemory>
    ensures { let words = codes "set " ++ name.now ++ 32 ∷ value_text value.now in
        OnOk result (text.new.items ≡ text.old.items ++ words) }
{
    add(text, b"set ")?;
    add(text, name.bytes())?;
    text.push(b' ')?;
    value.put(text)
}

// Appends a call with its arguments.
fn add_op_text(text: &mut Vec<u8>, op: &Op) -> Result<(), NoMemory>
    ensures { OnOk result (text.new.items ≡ text.old.items ++ op_text op.now) }
{
    match op {
        Op::Down { index } => add_indexed(text, b"down ", *index),
        Op::Up => add(text, b"up"),
        Op::InsertTopDown { index, node } => add_insert(text, b"insertTopDown ", *index, node),
        Op::InsertBottomUp { index, node } => add_insert(text, b"insertBottomUp ", *index, node),
        Op::Remove { index, count } => add_remove(text, *index, *count),
        Op::Move { from, to, count } => add_move(text, *from, *to, *count),
        Op::Set { name, value } => add_set(text, name, value),
        Op::Clear => add(text, b"clear"),
    }
}

// Appends a line that begins with `op: `.
#[tactic(auto, using(crate::proofs::Texts::joins))]
fn append_op(text: &mut Vec<u8>, op: &Op) -> Result<(), NoMemory>
    ensures { OnOk result (text.new.items ≡ text.old.items ++ op_line op.now) }
{
    add(text, b"op: ")?;
    add_op_text(text, op)?;
    add(text, b"\n")
}

/// Appends the line of a call on an applier. A rule of this project, with the names of the functions of Compose's
/// `Applier`. If the process is out of memory, `text` is empty afterwards.
pub fn add_op(text: &mut Vec<u8>, op: &Op) -> Result<(), NoMemory>
    ensures ok { OnOk result (text.new.items ≡ text.old.items ++ op_line op.now) }
    ensures err { OnErr result (text.new.items ≡ []) }
{
    let done = append_op(text, op);
    or_empty(text, done)
}
