// What is wrong with the arguments, and what the commands do, as `clap` says it.

use clap::builder::ValueParser;
use clap::error::ErrorKind;
use clap::{Arg, ArgAction, Command, Error};
use std::alloc::{AllocError, Global};

// Makes a flag.
fn flag<'a>(alloc: Global, name: &'a str, help: &'a str) -> Arg<'a> {
    Arg::new(alloc, name)
        .long(name)
        .action(ArgAction::SetTrue)
        .help(help)
}

// Makes a number that `gen` takes.
fn number<'a>(alloc: Global, name: &'a str, range: (u64, u64), help: &'a str) -> Arg<'a> {
    Arg::new(alloc, name)
        .required(true)
        .action(ArgAction::Set)
        .value_parser(ValueParser::unsigned(range.0, range.1))
        .help(help)
}

// Makes a command that replays a script.
fn replay<'a>(alloc: Global, name: &'a str, about: &'a str) -> Result<Command<'a>, AllocError> {
    Command::new(alloc, name)
        .about(about)
        .disable_help_flag(true)
        .arg(flag(alloc, "json", "Print each tree as one line of JSON"))?
        .arg(flag(alloc, "ops", "Print the calls on the applier"))
}

// Makes the command `gen`.
fn generate<'a>(alloc: Global) -> Result<Command<'a>, AllocError> {
    Command::new(alloc, "gen")
        .about("Run a generated input, and print a summary")
        .disable_help_flag(true)
        .arg(number(
            alloc,
            "NUMBER",
            (0, 4294967295),
            "The number from which the input is generated",
        ))?
        .arg(number(alloc, "SIZE", (1, 1000), "The number of its rows"))
}

// Makes the command line.
fn command_line<'a>(alloc: Global) -> Result<Command<'a>, AllocError> {
    Command::new(alloc, "compose_play")
        .no_binary_name(true)
        .disable_help_flag(true)
        .disable_help_subcommand(true)
        .about("Runs a program of composables with a script, which it reads from standard input")
        .subcommand(replay(
            alloc,
            "run",
            "Make the steps of the script, and print each reply and each frame",
        )?)?
        .subcommand(replay(
            alloc,
            "threads",
            "The same, with each actor on a thread of its own",
        )?)?
        .subcommand(
            Command::new(alloc, "check")
                .about("Print the input in its canonical form")
                .disable_help_flag(true),
        )?
        .subcommand(generate(alloc)?)
}

// Returns the text of an error.
fn error_text(alloc: Global, error: &Error) -> Result<String, AllocError> {
    match error.kind() {
        ErrorKind::OutOfMemory => Err(AllocError),
        _ => error.to_string(alloc),
    }
}

// Returns what is wrong with the words, as the parser of `clap` finds it.
fn fault_of_words<'a>(alloc: Global, words: &'a [String]) -> Result<String, AllocError> {
    match command_line(alloc)?.try_get_matches_from(words) {
        Ok(_) => String::from_str(
            alloc,
            "error: a command, flags that occur once, and numbers without a leading zero or sign are expected\n",
        ),
        Err(error) => error_text(alloc, &error),
    }
}

/// Returns a note on arguments that ask for no command: which word is wrong, and what each command does.
pub fn usage_note(alloc: Global, words: &[String]) -> Result<String, AllocError> {
    let help = command_line(alloc)?.render_help()?;
    if words.is_empty() {
        return Ok(help);
    }
    let fault = fault_of_words(alloc, words)?;
    format!(in alloc; "{fault}\n{help}")
}
