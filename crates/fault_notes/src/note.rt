// Notes on faults of an input.
ghost use Rattle.std.specs.Prelude.{◌≡◌, IfOk};
ghost use Rattle.std.specs.Option.{IsSomeAnd};
ghost use Rattle.play_core.specs.Faults.{IsFault};
ghost use Rattle.play_core.specs.declared.fault.Fault.{Fault as fault_data};
ghost use Rattle.play_core.specs.declared.fault.FaultKind.TheVariants.{Text as text_kind};
ghost use Rattle.fault_notes.specs.Pointing.{IsInside, PointsInto};

use crate::excerpt::{Excerpt, excerpt_at};
use crate::hint::hint_for;
use crate::position::{Position, position_of};
use crate::scanner::form_len;
use play_core::{Fault, FaultKind, TextEnd, parse_input};
use rt_values::NoMemory;
use std::alloc::Global;
use std::fmt;

/// Where an input goes wrong, and one sentence on what is expected there.
#[derive(Debug, Drop)]
pub struct Note {
    pub position: Position,
    pub excerpt: Excerpt,
    pub sentence: String,
}

// Writes some blanks.
fn put_blanks<W: fmt::Write>(f: &mut fmt::Formatter<W>, count: usize) -> fmt::Result {
    for _ in 0..count {
        f.write_str(" ")?;
    }
    Ok(())
}

// Returns the number of decimal digits of a number.
fn digits_of(number: usize) -> usize {
    let mut count = 1usize;
    let mut rest = number;
    for _ in 0..19 {
        if rest >= 10 {
            rest /= 10;
            count = count.saturating_add(1);
        }
    }
    count
}

/// Writes the line and the column, the line of the source, and under it a caret with the sentence.
impl fmt::Display for Note {
    fn fmt<W: fmt::Write>(&self, f: &mut fmt::Formatter<W>) -> fmt::Result {
        let line = self.position.line;
        let column = self.position.column;
        let margin = digits_of(line);
        put_blanks(f, margin)?;
        write!(f, "--> line {line}, column {column}\n")?;
        put_blanks(f, margin)?;
        write!(f, " |\n{line} | ")?;
        f.write_str(&self.excerpt.text)?;
        f.write_str("\n")?;
        put_blanks(f, margin)?;
        f.write_str(" | ")?;
        put_blanks(f, self.excerpt.caret)?;
        f.write_str("^ ")?;
        f.write_str(&self.sentence)
    }
}

// Returns `at` if it is inside the form at the fault, and else the offset of the fault.
fn offset_in_form(bytes: &[u8], fault: Fault, at: usize) -> usize
    ensures inside { IsInside bytes.now fault.at result }
    ensures own { fault.kind ≡ text_kind → result ≡ fault.at }
{
    if fault.kind == FaultKind::Text || at < fault.at || bytes.len() <= fault.at {
        return fault.at;
    }
    if at - fault.at < form_len(&bytes[fault.at..]) {
        return at;
    }
    fault.at
}

// Makes the note on a fault.
fn note_on(alloc: Global, bytes: &[u8], fault: Fault) -> Result<Note, NoMemory>
    ensures { IfOk result (λ note. PointsInto bytes.now fault note.position) }
{
    let hint = hint_for(alloc, bytes, fault)?;
    let position = position_of(bytes, offset_in_form(bytes, fault, hint.at));
    Ok(Note {
        position,
        excerpt: excerpt_at(alloc, bytes, position.offset)?,
        sentence: hint.sentence,
    })
}

/// Returns the note on the fault of an input, or `None` for an input without a fault. `threads`: whether each actor has
/// a thread and snapshot names of its own. Returns `NoMemory` if the process is out of memory.
pub fn find_note(alloc: Global, bytes: &[u8], threads: bool) -> Result<Option<Note>, NoMemory>
    ensures { (fault : fault_data) → IsFault threads bytes.now fault →
        IfOk result (λ found. IsSomeAnd found (λ note. PointsInto bytes.now fault note.position)) }
{
    match parse_input(alloc, bytes, threads) {
        Ok(input) => {
            drop(input);
            Ok(None)
        }
        Err(TextEnd::Bad(fault)) => Ok(Some(note_on(alloc, bytes, fault)?)),
        Err(TextEnd::NoMemory) => Err(NoMemory),
    }
}
