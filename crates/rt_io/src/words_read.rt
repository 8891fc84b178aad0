//! The command line of `ratest`. That `clap` takes it apart is private: the contract names a
//! definition of this crate alone.

ghost use Rattle.std.specs.Prelude.{◌≡◌, [], ◌∷◌, IfOk, IfErr, map, option_and_then};
ghost use Rattle.rt_io.specs.Command.{Reads, command, form, of_files, of_form, of_made};
ghost use Rattle.rt_io.specs.Ranges.{AreInRange};
ghost use Rattle.rt_io.specs.Reading.{read};

use crate::limits::{Limits, limits_in, number_to};
use crate::matches::matches_of;
use crate::word_fault::WordFault;
use crate::words::Words;
use rt_value::{List, NoMemory, Txt};
use std::alloc::Global;

/// The command that the arguments after the program's name mean: four paths, or `made` and a
/// number, with the options `--conflicts` and `--work` anywhere before `--`.
pub fn read_words(alloc: Global, words: &[Txt]) -> Result<Words, WordFault>
    ensures { Reads (command words.now) result }
{
    let texts = texts_of(alloc, words)?;
    read_texts(alloc, texts.as_slice())
}

fn texts_of<'a>(alloc: Global, words: &'a [Txt]) -> Result<Vec<&'a str>, NoMemory>
    ensures { IfOk result (λ texts. map (λ s. s.now) texts.items ≡ words.entry.now) }
{
    let mut texts = Vec::new(alloc);
    for word in words {
        texts.push(word.as_str())?;
    }
    Ok(texts)
}

fn read_texts(alloc: Global, words: &[&str]) -> Result<Words, WordFault>
    ensures { Reads (command (map (λ s. s.now) words.now)) result }
{
    match words {
        [] => Err(WordFault::Usage),
        [first, rest @ ..] => {
            if *first == "made" {
                read_form(alloc, true, rest)
            } else {
                read_form(alloc, false, words)
            }
        }
    }
}

// The command of these arguments, which are those after `made` where the input is generated.
fn read_form(alloc: Global, made: bool, words: &[&str]) -> Result<Words, WordFault>
    ensures { Reads (option_and_then (form (of_form made)) (read (map (λ s. s.now) words.now))) result }
{
    let matches = matches_of(alloc, words)?;
    let Some(limits) = limits_in(&matches) else {
        return Err(WordFault::Usage);
    };
    match matches.get_raw("words") {
        Some(plain) => form_command(alloc, made, plain, limits),
        None => Err(WordFault::Usage),
    }
}

fn form_command(
    alloc: Global,
    made: bool,
    words: &[&str],
    limits: Limits,
) -> Result<Words, WordFault>
    requires { AreInRange limits }
    ensures { Reads (of_form made (map (λ s. s.now) words.now) limits) result }
{
    if made {
        made_command(alloc, words, limits)
    } else {
        files_command(alloc, words, limits)
    }
}

// The form of four paths.
fn files_command(alloc: Global, words: &[&str], limits: Limits) -> Result<Words, WordFault>
    requires { AreInRange limits }
    ensures { Reads (of_files (map (λ s. s.now) words.now) limits) result }
{
    match words {
        [_, _, _, _] => Ok(Words {
            paths: copied(alloc, words)?,
            conflicts: limits.conflicts,
            work_limit: limits.work,
            made: None,
        }),
        _ => Err(WordFault::Usage),
    }
}

// The form of a generated input.
fn made_command(alloc: Global, words: &[&str], limits: Limits) -> Result<Words, WordFault>
    requires { AreInRange limits }
    ensures { Reads (of_made (map (λ s. s.now) words.now) limits) result }
{
    match words {
        [n] => match number_to(400, n) {
            Some(n) => Ok(Words {
                paths: List::new(alloc),
                conflicts: limits.conflicts,
                work_limit: limits.work,
                made: Some(n),
            }),
            None => Err(WordFault::Usage),
        },
        _ => Err(WordFault::Usage),
    }
}

fn copied(alloc: Global, words: &[&str]) -> Result<List<Txt>, NoMemory>
    ensures { IfOk result (λ texts. texts ≡ map (λ s. s.now) words.now) }
{
    let mut texts = List::new(alloc);
    for word in words {
        texts.push(Txt::of(alloc, word)?)?;
    }
    Ok(texts)
}
