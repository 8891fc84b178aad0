//! The arguments as `clap` takes them apart: the one module that describes our options to it.

ghost use Rattle.std.specs.Prelude.{◌≡◌, All, IfOk, IfErr, map, Some};
ghost use Rattle.std.specs.Str.{IsUtf8};
ghost use Rattle.clap.specs.Words.{app_of, found_of, rows_of};
ghost use Rattle.rt_io.specs.App.{IsFaultOf, IsRefused, command_app, reading_in};
ghost use Rattle.rt_io.specs.Reading.{read};

use crate::word_fault::WordFault;
use clap::error::ErrorKind;
use clap::{Arg, ArgAction, ArgMatches, Command};
use std::alloc::{AllocError, Global};

/// The plain arguments, and the values that each option was given.
pub(crate) fn matches_of<'a>(
    alloc: Global,
    words: &'a [&'a str],
) -> Result<ArgMatches<'a>, WordFault>
    ensures ok { IfOk result (λ m. read (map (λ s. s.now) words.entry.now) ≡ Some (reading_in (rows_of (found_of m)))) }
    ensures err { IfErr result (IsRefused (map (λ s. s.now) words.entry.now)) }
{
    texts_are_valid(words);
    let Ok(command) = command_of(alloc) else {
        return Err(WordFault::NoMemory);
    };
    match command.try_get_matches_from(words) {
        Ok(matches) => Ok(matches),
        Err(e) => Err(fault_of(e.kind())),
    }
}

// One command serves both forms: plain arguments and two options. That an option comes once at
// most is tested on what it was given, since `clap` notes a repeat one argument late.
fn command_of<'a>(alloc: Global) -> Result<Command<'a>, AllocError>
    ensures { IfOk result (λ m. app_of m ≡ command_app) }
{
    let empty = Command::new(alloc, "ratest")
        .no_binary_name(true)
        .disable_help_flag(true);
    let plain = Arg::new(alloc, "words").action(ArgAction::Append);
    let one = empty.arg(plain)?;
    let conflicts = Arg::new(alloc, "conflicts").long("conflicts");
    let two = one.arg(conflicts)?;
    let work = Arg::new(alloc, "work").long("work");
    let three = two.arg(work)?;
    Ok(three)
}

// Each argument is UTF-8, as its type says: `clap` finds no error in a flag that isn't.
fn texts_are_valid(words: &[&str])
    ensures { All IsUtf8 (map (λ s. s.now) words.now) }
{
    for word in words {
        let _text = same_text(word);
    }
}

fn same_text<'a>(text: &'a str) -> &'a str
    ensures { result.now ≡ text.entry.now }
{
    text
}

fn fault_of(kind: ErrorKind) -> WordFault
    ensures { IsFaultOf kind result }
{
    match kind {
        ErrorKind::OutOfMemory => WordFault::NoMemory,
        _ => WordFault::Usage,
    }
}
