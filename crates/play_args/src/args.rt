// Parsing of command-line arguments.
ghost use Rattle.std.specs.Prelude.{◌≡◌, ◌≤◌, [], ◌∷◌, Some, IfOk, codes, option_map};
ghost use Rattle.clap.specs.Words.{app_of};
ghost use Rattle.play_args.specs.CommandWords.{command_of_args, command_named, with_digits, number_word, gen_with, no_flags, flags_after, texts};
ghost use Rattle.play_args.specs.CommandLine.{command_app, replay_app, with_command};

use crate::command::Command;
use clap::error::ErrorKind;
use rt_values::NoMemory;
use script_lang::Flags;
use std::alloc::{AllocError, Global};

// Adds a command without arguments of its own.
fn add_command<'a>(
    alloc: Global,
    line: clap::Command<'a>,
    name: &'a str,
) -> Result<clap::Command<'a>, AllocError>
    ensures { IfOk result (λ c. app_of c ≡ with_command (app_of line.entry) name.now) }
{
    line.subcommand(clap::Command::new(alloc, name))
}

// Creates the command line with the commands that replay a script.
fn replay_line<'a>(alloc: Global) -> Result<clap::Command<'a>, AllocError>
    ensures { IfOk result (λ c. app_of c ≡ replay_app) }
{
    let line = clap::Command::new(alloc, "compose_play").no_binary_name(true);
    let line = add_command(alloc, line, "run")?;
    add_command(alloc, line, "threads")
}

// Creates the command line, as `clap` describes it.
fn command_line<'a>(alloc: Global) -> Result<clap::Command<'a>, AllocError>
    ensures { IfOk result (λ c. app_of c ≡ command_app) }
{
    let line = replay_line(alloc)?;
    let line = add_command(alloc, line, "check")?;
    add_command(alloc, line, "gen")
}

// Returns the name of the subcommand that `clap` finds. The help and version of `clap`, which it reports as
// errors, are not commands.
fn match_subcommand<'a>(alloc: Global, words: &'a [String]) -> Result<Option<&'a str>, NoMemory>
    ensures run { texts words.now ≡ codes "run" ∷ [] →
        IfOk result (λ name. option_map (λ s. s.now) name ≡ Some (codes "run")) }
    ensures threads { texts words.now ≡ codes "threads" ∷ [] →
        IfOk result (λ name. option_map (λ s. s.now) name ≡ Some (codes "threads")) }
    ensures check { texts words.now ≡ codes "check" ∷ [] →
        IfOk result (λ name. option_map (λ s. s.now) name ≡ Some (codes "check")) }
    ensures generated { texts words.now ≡ codes "gen" ∷ [] →
        IfOk result (λ name. option_map (λ s. s.now) name ≡ Some (codes "gen")) }
{
    match command_line(alloc)?.try_get_matches_from(words) {
        Ok(matches) => Ok(matches.subcommand_name()),
        Err(error) => match error.kind() {
            ErrorKind::OutOfMemory => Err(NoMemory),
            _ => Ok(None),
        },
    }
}

// Returns the flags of these words, each of which must be a flag that no earlier word is.
fn parse_flags(words: &[String]) -> Option<Flags>
    ensures { result ≡ flags_after no_flags (texts words.now) }
{
    let mut flags = Flags {
        json: false,
        ops: false,
    };
    let mut rest = words;
    while let Some((word, more)) = rest.split_first() {
        if word.as_str() == "--json" && !flags.json {
            flags.json = true;
        } else if word.as_str() == "--ops" && !flags.ops {
            flags.ops = true;
        } else {
            return None;
        }
        rest = more;
    }
    Some(flags)
}

// Returns the number that further digits make of `start`, if it is at most `most`.
fn parse_digits(most: u32, start: u32, digits: &[u8]) -> Option<u32>
    requires { start ≤ most }
    ensures { result ≡ with_digits most start digits.now }
{
    let mut number = start as u64;
    let mut rest = digits;
    while let Some((digit, more)) = rest.split_first() {
        if !digit.is_ascii_digit() {
            return None;
        }
        number = 10 * number + (*digit - b'0') as u64;
        if number > most as u64 {
            return None;
        }
        rest = more;
    }
    Some(number as u32)
}

// Returns the number that a word of decimal digits without a leading zero writes, if it is at most `most`.
fn parse_number(most: u32, word: &str) -> Option<u32>
    ensures { result ≡ number_word most word.now }
{
    let digits = word.as_bytes();
    if digits.is_empty() || digits.len() > 1 && digits[0] == b'0' {
        return None;
    }
    parse_digits(most, 0, digits)
}

// Returns the command `gen` with these further words.
fn parse_gen(words: &[String]) -> Option<Command>
    ensures { result ≡ gen_with (texts words.now) }
{
    let [number, size] = words else {
        return None;
    };
    let Some(number) = parse_number(u32::MAX, number.as_str()) else {
        return None;
    };
    match parse_number(1000, size.as_str()) {
        Some(0) => None,
        Some(size) => Some(Command::Gen { number, size }),
        None => None,
    }
}

// Returns the command with this name and these further words.
fn command_named(word: &str, more: &[String]) -> Option<Command>
    ensures { result ≡ command_named word.now (texts more.now) }
{
    if word == "run" {
        return match parse_flags(more) {
            Some(flags) => Some(Command::Run(flags)),
            None => None,
        };
    }
    if word == "threads" {
        return match parse_flags(more) {
            Some(flags) => Some(Command::Threads(flags)),
            None => None,
        };
    }
    if word == "check" && more.is_empty() {
        return Some(Command::Check);
    }
    if word == "gen" {
        return parse_gen(more);
    }
    None
}

/// Returns the command that the arguments after the program name ask for, or `None`. The first argument is the name of
/// a command, which `clap` finds. The others are its flags, each at most once, or the number and the size of `gen`.
///
/// A rule of this project. Returns `NoMemory` if the process is out of memory.
pub fn parse_args(alloc: Global, words: &[String]) -> Result<Option<Command>, NoMemory>
    ensures { IfOk result (λ o. o ≡ command_of_args (texts words.now)) }
{
    if words.is_empty() {
        return Ok(None);
    }
    let (first, more) = words.split_at(1);
    match match_subcommand(alloc, first)? {
        Some(name) if name == first[0].as_str() => Ok(command_named(name, more)),
        _ => Ok(None),
    }
}
