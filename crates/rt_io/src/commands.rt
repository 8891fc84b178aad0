//! Which command of the second program, `ratest_plus`, a command line means.

ghost use Rattle.std.specs.Prelude.{◌≡◌};
ghost use Rattle.rt_io.specs.Programs.{named, plus_command};

use rt_value::Txt;

/// A command of the second program: `ra` when no other is named.
#[derive(Clone, Copy, Debug)]
pub enum PlusCommand {
    Ra,
    Row,
    Grade,
    Prove,
    Check,
}

fn named(word: &str) -> PlusCommand
    ensures { result ≡ named word.now }
{
    if word == "row" {
        PlusCommand::Row
    } else if word == "grade" {
        PlusCommand::Grade
    } else if word == "prove" {
        PlusCommand::Prove
    } else if word == "check" {
        PlusCommand::Check
    } else {
        PlusCommand::Ra
    }
}

/// The command that the first argument names. Arguments that name none go to `ra`, which reads or
/// refuses them.
pub fn plus_command(words: &[Txt]) -> PlusCommand
    ensures { result ≡ plus_command words.now }
{
    match words {
        [first, ..] => named(first.as_str()),
        [] => PlusCommand::Ra,
    }
}
