// The line of a call.
ghost use Rattle.std.specs.Prelude.{◌≡◌, ◌++◌, OnOk};
ghost use Rattle.trace_lines.specs.TraceLines.{call_tokens};

use crate::tokens::put_text;
use json::Writer;
use rt_values::NoMemory;

/// Appends the line of a call, without LF. `text` is the line that `run` prints for the call, without LF. Fails if
/// memory runs out, or if `text` is not UTF-8. The text of a call is UTF-8.
pub fn put_call(line: &mut Writer, text: &[u8]) -> Result<(), NoMemory>
    ensures tokens { OnOk result (line.new.tokens ≡ line.old.tokens ++ call_tokens text.now) }
    ensures before { OnOk result (line.new.before ≡ line.old.before) }
{
    line.begin_object()?;
    put_text(line, "call", text)?;
    line.end_object()?;
    Ok(())
}
