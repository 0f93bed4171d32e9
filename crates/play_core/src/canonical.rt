// Canonical text of trees.
ghost use Rattle.std.specs.Prelude.{◌≡◌, ◌≤◌, List, ℕ, Err};
ghost use Rattle.sexp_text.specs.Layout.{lines};
ghost use Rattle.sexp_text.specs.View.{forest_view};
ghost use Rattle.play_run.specs.RunPromise.{WritesBytes, FaultsAfter};

use play_run::{Stop, write_piece};
use rt_streams::Sink;
use sexp_text::{Tree, print};
use std::alloc::Global;

// Writes the lines of some trees, as one piece.
fn write_tree_lines<K: Sink>(alloc: Global, trees: &[Tree], sink: &mut K) -> Result<(), Stop>
    ensures says { WritesBytes (K.written sink.old) (K.written sink.new) (lines (forest_view trees.now)) result }
    ensures faults { FaultsAfter (K.faults sink.old) (K.faults sink.new) result }
{
    let Ok(text) = print(alloc, trees) else {
        return Err(Stop::NoMemory);
    };
    write_piece(sink, &text)
}

/// Writes each tree on its own line, each line with its LF as one piece. Only one line at a time is in memory.
/// A rule of this project. Returns `Stop` if the sink fails or the process is out of memory.
pub fn write_canonical<K: Sink>(alloc: Global, trees: &[Tree], sink: &mut K) -> Result<(), Stop>
    ensures says { WritesBytes (K.written sink.old) (K.written sink.new) (lines (forest_view trees.now)) result }
    ensures faults { FaultsAfter (K.faults sink.old) (K.faults sink.new) result }
{
    let mut rest = trees;
    while !rest.is_empty() {
        let (first, more) = rest.split_at(1);
        match write_tree_lines(alloc, first, sink) {
            Ok(()) => rest = more,
            Err(stop) => return Err(stop),
        }
    }
    Ok(())
}
