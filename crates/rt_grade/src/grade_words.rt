//! The arguments of a call that grades. They have the form of a command of `ratest`, with the
//! list in place of the second query.

ghost use Rattle.std.specs.Prelude.{◌≡◌, IfOk, IfErr, Some};
ghost use Rattle.rt_grade.specs.GradeWords.{WordsStop, grade_words, of_command};

use rt_input::{Outcome, read_words};
use rt_io::Words;
use rt_value::{NoMemory, Txt};
use std::alloc::Global;

/// The arguments SCHEMA, DATADIR, REFERENCE and LIST with their options, as a command. Its second
/// query is any candidate of the list.
#[derive(Drop)]
pub struct GradeWords {
    pub command: Words,
    pub list: Txt,
}

// The arguments of a command that is read, if its first path isn't `made`.
fn of_command(alloc: Global, command: Words) -> Result<Option<GradeWords>, NoMemory>
    ensures { IfOk result (λ words. words ≡ of_command command) }
{
    let list = match (command.made, command.paths.as_slice()) {
        (None, [schema, _, _, list]) if schema.as_str() != "made" => list.copy(alloc)?,
        _ => return Ok(None),
    };
    Ok(Some(GradeWords { command, list }))
}

/// The arguments, or the outcome `Usage`. Those that ask for a generated input are none.
pub(crate) fn grade_words(alloc: Global, words: &[Txt]) -> Result<GradeWords, Outcome>
    ensures ok { IfOk result (λ w. grade_words words.now ≡ Some w) }
    ensures err { IfErr result (WordsStop (grade_words words.now)) }
{
    let command = read_words(alloc, words)?;
    match of_command(alloc, command)? {
        Some(words) => Ok(words),
        None => Err(Outcome::Usage),
    }
}
