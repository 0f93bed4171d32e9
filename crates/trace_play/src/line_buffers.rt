// Lines of JSON in a buffer, each written as one piece.
ghost use Rattle.std.specs.Prelude.{◌≡◌, []};
ghost use Rattle.trace_lines.specs.TraceLines.{line as line_text};
ghost use Rattle.play_run.specs.RunPromise.{WritesBytes, FaultsAfter};

use json::Writer;
use play_run::{Stop, write_piece};
use rt_streams::Sink;
use std::alloc::Global;
use std::mem;

// Takes the buffer, emptied, for the tokens of a line.
pub fn begin_line(alloc: Global, text: &mut Vec<u8>) -> Writer
    ensures before { result.before ≡ [] }
    ensures tokens { result.tokens ≡ [] }
{
    let mut line = mem::replace(text, Vec::new(alloc));
    line.clear();
    Writer::new(line)
}

// Writes the tokens of a line as its text with LF, as one piece. The buffer goes back.
pub fn end_line<K: Sink>(line: Writer, text: &mut Vec<u8>, sink: &mut K) -> Result<(), Stop>
    requires { line.before ≡ [] }
    ensures says { WritesBytes (K.written sink.old) (K.written sink.new) (line_text line.tokens) result }
    ensures faults { FaultsAfter (K.faults sink.old) (K.faults sink.new) result }
{
    *text = line.into_inner();
    let Ok(()) = text.push(b'\n') else {
        return Err(Stop::NoMemory);
    };
    write_piece(sink, text)
}
