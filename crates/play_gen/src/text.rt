// The lines of a summary.
ghost use Rattle.std.specs.Prelude.{◌≡◌, ◌++◌, IfOk, OnOk};
ghost use Rattle.script_lang.specs.Lines.{line};
ghost use Rattle.play_gen.specs.SummaryText.{values_text, applies_text, frames_text, last_text, summary_text};

use crate::tally::Tally;
use rt_values::NoMemory;
use script_lang::add_count;
use std::alloc::Global;

// Appends the counts of takes, reads and writes.
#[tactic(auto, using(crate::proofs::Parts::joins))]
fn add_values(text: &mut Vec<u8>, tally: &Tally) -> Result<(), NoMemory>
    ensures { OnOk result (text.new.items ≡ text.old.items ++ values_text tally.now) }
{
    add_count(text, b"replies: taken ", tally.taken)?;
    add_count(text, b", read ", tally.read)?;
    add_count(text, b", changed ", tally.changed)?;
    add_count(text, b", same ", tally.same)?;
    Ok(())
}

// Appends the counts of applies and refusals, and the end of the line.
#[tactic(auto, using(crate::proofs::Parts::joins))]
fn add_applies(text: &mut Vec<u8>, tally: &Tally) -> Result<(), NoMemory>
    ensures { OnOk result (text.new.items ≡ text.old.items ++ line (applies_text tally.now)) }
{
    add_count(text, b", applied ", tally.applied)?;
    add_count(text, b", conflicts ", tally.conflicts)?;
    add_count(text, b", refused ", tally.refused)?;
    text.push(b'\n')?;
    Ok(())
}

// Appends the line of all frames.
#[tactic(auto, using(crate::proofs::Parts::joins))]
fn add_frames(text: &mut Vec<u8>, tally: &Tally) -> Result<(), NoMemory>
    ensures { OnOk result (text.new.items ≡ text.old.items ++ line (frames_text tally.now)) }
{
    add_count(text, b"frames: ", tally.frames)?;
    add_count(text, b", ran ", tally.ran)?;
    add_count(text, b", calculated ", tally.calculated)?;
    add_count(text, b", reads ", tally.reads)?;
    text.push(b'\n')?;
    Ok(())
}

// Appends the line of the last frame.
#[tactic(auto, using(crate::proofs::Parts::joins))]
fn add_last(text: &mut Vec<u8>, tally: &Tally) -> Result<(), NoMemory>
    ensures { OnOk result (text.new.items ≡ text.old.items ++ line (last_text tally.now)) }
{
    add_count(text, b"last: groups ", tally.groups)?;
    add_count(text, b", nodes ", tally.nodes)?;
    text.push(b'\n')?;
    Ok(())
}

/// Returns the lines of a summary. A rule of this project. Fails only if the process is out of memory.
#[tactic(auto, using(crate::proofs::Parts::joins))]
pub fn summary_text(alloc: Global, tally: &Tally) -> Result<Vec<u8>, NoMemory>
    ensures { IfOk result (λ text. text.items ≡ summary_text tally.now) }
{
    let mut text = Vec::new(alloc);
    add_values(&mut text, tally)?;
    add_applies(&mut text, tally)?;
    add_frames(&mut text, tally)?;
    add_last(&mut text, tally)?;
    Ok(text)
}
