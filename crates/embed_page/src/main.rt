//! A program that embeds the runtime: a list of numbers, which is kept as an HTML page. Each line of standard input is
//! an event, and each event ends in a frame. `docs/EMBEDDING.md` explains the program line by line.
#![tactic(auto)]

mod events;
mod html;
mod page;

use crate::events::make_event;
use crate::page::Page;
use compose_app::{AppStop, Screen, open};
use lang_checks::Checked;
use snap_policy::BuiltIn;
use snap_world::RecordWorld;
use std::alloc::Global;
use std::io::{self, Write};

const PROGRAM: &[u8] = b"(compose 1)
(state items Ints Structural (ints))
(state picked Int Structural -1)
(fun row ((i Int)) (node li ((number i) (picked (= i (get picked))))))
(fun root ()
  (node h1 ((text (join \"numbers: \" (text (len (get items)))))))
  (node ul () (for i (get items) (key i (call row i)))))";

/// The states, the composition and the page.
pub type Board<'p> = Screen<'p, RecordWorld<BuiltIn>, Page>;

fn main(rt: HostRuntime) -> io::Result<()> {
    match open(rt.alloc(), PROGRAM) {
        Ok(program) => keep_page(&rt, &program),
        Err(stop) => println!(rt; "{stop}"),
    }
}

// Keeps a page of the program, from an empty one until the input ends.
fn keep_page(rt: &HostRuntime, program: &Checked) -> io::Result<()> {
    let alloc = rt.alloc();
    let Ok(world) = RecordWorld::<BuiltIn>::new(alloc) else {
        return println!(rt; "out of memory");
    };
    let Ok(mut board) = Screen::new(alloc, program, world, Page::new(alloc)) else {
        return println!(rt; "out of memory");
    };
    let result = answer_lines(rt, &mut board);
    drop(board);
    result
}

// Answers each line of standard input.
fn answer_lines(rt: &HostRuntime, board: &mut Board) -> io::Result<()> {
    for line in rt.lines(rt.alloc()) {
        let line = line?;
        answer(rt, board, line.as_str())?;
    }
    Ok(())
}

// Prints the page after an event.
fn answer(rt: &HostRuntime, board: &mut Board, line: &str) -> io::Result<()> {
    match turn(rt.alloc(), board, line) {
        Ok(Some(html)) => {
            println!(rt; "{line}: {} calls", board.ops().len())?;
            io::writer(rt).write_all(&html)
        }
        Ok(None) => println!(rt; "{line}: no change"),
        Err(stop) => println!(rt; "{line}: {stop}"),
    }
}

// Makes an event and a frame. Returns the page as HTML if the frame has changed the page.
fn turn(alloc: Global, board: &mut Board, line: &str) -> Result<Option<Vec<u8>>, AppStop> {
    make_event(alloc, board, line)?;
    let before = board.applier().changes();
    board.frame_uncounted(alloc)?;
    if board.applier().changes() == before {
        return Ok(None);
    }
    Ok(Some(board.applier().to_html(alloc)?))
}
