//! Which of the four calls answers a command.

ghost use Rattle.std.specs.Prelude.{◌≡◌};
ghost use Rattle.ratest_c.specs.Services.{service_of};

use rt_io::{PlusCommand, plus_command};
use rt_value::Txt;

/// Which call answers a command.
#[derive(Clone, Copy, PartialEq, Eq, Debug)]
pub(crate) enum Service {
    Ratest,
    Algebra,
    Tools,
    Certificates,
}

/// By the first word: those of the second program's commands go where that program sends them, all
/// others to `ratest`.
pub(crate) fn service_of(words: &[Txt]) -> Service
    ensures { result ≡ service_of words.now }
{
    match plus_command(words) {
        PlusCommand::Ra => match words {
            [first, ..] if first.as_str() == "ra" => Service::Algebra,
            _ => Service::Ratest,
        },
        PlusCommand::Row | PlusCommand::Grade => Service::Tools,
        PlusCommand::Prove | PlusCommand::Check => Service::Certificates,
    }
}
