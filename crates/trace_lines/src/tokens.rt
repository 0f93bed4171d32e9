// Parts of lines.
ghost use Rattle.std.specs.Prelude.{◌≡◌, ◌++◌, ◌∷◌, [], map, OnOk};
ghost use Rattle.json.specs.Token.{begin_array, key, string};
ghost use Rattle.trace_lines.specs.TraceLines.{member, count, text, truth, integers_tokens, value_tokens, values_tokens, item_at, state_names, objects_tokens};

use json::Writer;
use lang_ast::State;
use rt_values::{NoMemory, ObjectNo, Value};

// Appends bytes as a string. Returns `NoMemory` if the bytes are not UTF-8. The names and the texts of a trace are UTF-8,
// since its source text is.
pub fn put_bytes(line: &mut Writer, bytes: &[u8]) -> Result<(), NoMemory>
    ensures tokens { OnOk result (line.new.tokens ≡ line.old.tokens ++ string bytes.now ∷ []) }
    ensures before { OnOk result (line.new.before ≡ line.old.before) }
{
    match std::str::from_utf8(bytes) {
        Ok(text) => line.string(text)?,
        Err(_) => return Err(NoMemory),
    }
    Ok(())
}

// Appends a member with a number.
pub fn put_count(line: &mut Writer, name: &str, n: u64) -> Result<(), NoMemory>
    ensures tokens { OnOk result (line.new.tokens ≡ line.old.tokens ++ count name.now n) }
    ensures before { OnOk result (line.new.before ≡ line.old.before) }
{
    line.key(name)?;
    line.u64(n)?;
    Ok(())
}

// Appends a member with a truth value.
pub fn put_truth(line: &mut Writer, name: &str, b: bool) -> Result<(), NoMemory>
    ensures tokens { OnOk result (line.new.tokens ≡ line.old.tokens ++ truth name.now b) }
    ensures before { OnOk result (line.new.before ≡ line.old.before) }
{
    line.key(name)?;
    line.boolean(b)?;
    Ok(())
}

// Appends a member with bytes as a string.
pub fn put_text(line: &mut Writer, name: &str, bytes: &[u8]) -> Result<(), NoMemory>
    ensures tokens { OnOk result (line.new.tokens ≡ line.old.tokens ++ text name.now bytes.now) }
    ensures before { OnOk result (line.new.before ≡ line.old.before) }
{
    line.key(name)?;
    put_bytes(line, bytes)
}

// Appends a member with a word.
pub fn put_word(line: &mut Writer, name: &str, word: &str) -> Result<(), NoMemory>
    ensures tokens { OnOk result (line.new.tokens ≡ line.old.tokens ++ text name.now word.now) }
    ensures before { OnOk result (line.new.before ≡ line.old.before) }
{
    line.key(name)?;
    line.string(word)?;
    Ok(())
}

// Appends the name of a member and the start of its array.
pub fn begin_array(line: &mut Writer, name: &str) -> Result<(), NoMemory>
    ensures tokens { OnOk result (line.new.tokens ≡ line.old.tokens ++ key name.now ∷ begin_array ∷ []) }
    ensures before { OnOk result (line.new.before ≡ line.old.before) }
{
    line.key(name)?;
    line.begin_array()?;
    Ok(())
}

// Appends integers as an array.
fn put_integers(line: &mut Writer, integers: &[i64]) -> Result<(), NoMemory>
    ensures tokens { OnOk result (line.new.tokens ≡ line.old.tokens ++ integers_tokens integers.now) }
    ensures before { OnOk result (line.new.before ≡ line.old.before) }
{
    line.begin_array()?;
    let mut rest = integers;
    while let Some((integer, more)) = rest.split_first() {
        line.i64(*integer)?;
        rest = more;
    }
    line.end_array()?;
    Ok(())
}

// Appends a value.
pub fn put_value(line: &mut Writer, value: &Value) -> Result<(), NoMemory>
    ensures tokens { OnOk result (line.new.tokens ≡ line.old.tokens ++ value_tokens value.now) }
    ensures before { OnOk result (line.new.before ≡ line.old.before) }
{
    match value {
        Value::Int(number) => {
            line.i64(*number)?;
            Ok(())
        }
        Value::Bool(truth) => {
            line.boolean(*truth)?;
            Ok(())
        }
        Value::Text(text) => {
            line.string(text.as_str())?;
            Ok(())
        }
        Value::Ints(list) => put_integers(line, list.items()),
    }
}

// Appends a member with a value.
pub fn put_member(line: &mut Writer, name: &str, value: &Value) -> Result<(), NoMemory>
    ensures tokens { OnOk result (line.new.tokens ≡ line.old.tokens ++ member name.now (value_tokens value.now)) }
    ensures before { OnOk result (line.new.before ≡ line.old.before) }
{
    line.key(name)?;
    put_value(line, value)
}

// Appends a member with an array of values.
pub fn put_values(line: &mut Writer, name: &str, values: &[Value]) -> Result<(), NoMemory>
    ensures tokens { OnOk result (line.new.tokens ≡ line.old.tokens ++ member name.now (values_tokens values.now)) }
    ensures before { OnOk result (line.new.before ≡ line.old.before) }
{
    begin_array(line, name)?;
    let mut rest = values;
    while let Some((value, more)) = rest.split_first() {
        put_value(line, value)?;
        rest = more;
    }
    line.end_array()?;
    Ok(())
}

// Appends the name of an object as a string, if the program has such a state.
fn put_object(line: &mut Writer, states: &[State], x: ObjectNo) -> Result<(), NoMemory>
    ensures tokens { OnOk result (line.new.tokens
        ≡ line.old.tokens ++ map string (item_at (state_names states.now) x)) }
    ensures before { OnOk result (line.new.before ≡ line.old.before) }
{
    match states.get(x as usize) {
        Some(state) => put_bytes(line, state.name.text.bytes()),
        None => Ok(()),
    }
}

// Appends a member with an array of the names of objects.
pub fn put_objects(
    line: &mut Writer,
    name: &str,
    states: &[State],
    objects: &[ObjectNo],
) -> Result<(), NoMemory>
    ensures tokens { OnOk result (line.new.tokens
        ≡ line.old.tokens ++ member name.now (objects_tokens (state_names states.now) objects.now)) }
    ensures before { OnOk result (line.new.before ≡ line.old.before) }
{
    begin_array(line, name)?;
    let mut rest = objects;
    while let Some((x, more)) = rest.split_first() {
        put_object(line, states, *x)?;
        rest = more;
    }
    line.end_array()?;
    Ok(())
}
