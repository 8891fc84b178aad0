//! What is printed if there is no verdict.

ghost use Rattle.std.specs.Prelude.{◌≡◌, IfOk};
ghost use Rattle.rt_io.specs.Command.{command};
ghost use Rattle.rt_input.specs.Reading.{limit_of};
ghost use Rattle.rt_input.specs.Texts.{stopped_text};

use crate::outcome::Outcome;
use crate::say::refusal_line;
use rt_io::{WordFault, read_words};
use rt_value::{Bytes, List, NoMemory, Txt};
use std::alloc::Global;

// The work limit of the command, and 0 for arguments that are none.
fn work_limit(alloc: Global, words: &[Txt]) -> Result<u64, NoMemory>
    ensures { IfOk result (λ most. most ≡ limit_of (command words.now)) }
{
    match read_words(alloc, words) {
        Ok(command) => Ok(command.work_limit),
        Err(WordFault::Usage) => Ok(0),
        Err(WordFault::NoMemory) => Err(NoMemory),
    }
}

/// The text of an outcome that is no verdict. `words` are the arguments of a command of `ratest`,
/// which those of another program may hold. `usage` is the text for arguments that are no
/// command.
pub fn stopped_text(
    alloc: Global,
    usage: &str,
    words: &[Txt],
    outcome: &Outcome,
) -> Result<Bytes, NoMemory>
    ensures { IfOk result (λ text. text ≡ stopped_text usage.now (limit_of (command words.now)) outcome.now) }
{
    match outcome {
        Outcome::Usage => List::from_slice(alloc, usage.as_bytes()),
        outcome => {
            let most = work_limit(alloc, words)?;
            refusal_line(alloc, outcome, most)
        }
    }
}
