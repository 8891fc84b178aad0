//! Readers of one terminal, and of the end: what the readers of each grammar are built from.

ghost use Rattle.std.specs.Prelude.{◌≡◌, option_map};
ghost use Rattle.rt_token.specs.Readers as spec;
ghost use Rattle.rt_token.specs.Reads.{Answers, Reads, Rests};
ghost use Rattle.rt_token.specs.Terminals.{after};

use crate::fixed::{Fixed, code};
use crate::looks::{NAME, after, code_of, front};
use crate::marks::name_of;
use crate::read_fault::ReadFault;
use crate::terminal::{Name, Terminal};
use std::alloc::Global;

/// What follows the terminal, which has to be at the front.
pub fn expect<'t>(terminals: &'t [Terminal], fixed: Fixed) -> Result<&'t [Terminal], ReadFault>
    ensures { Rests result (after fixed terminals.now) }
{
    match after(terminals, fixed) {
        Some(rest) => Ok(rest),
        None => Err(ReadFault::Syntax(terminals.len())),
    }
}

/// Whether a name is at the front.
pub fn starts_name(terminals: &[Terminal]) -> bool
    ensures { result ≡ spec.starts_name terminals.now }
{
    front(terminals) == NAME
}

/// The name at the front, copied, and what follows it.
#[tactic(auto, unfolding(crate::specs::Readers::read_name))]
pub fn name<'t>(
    alloc: Global,
    terminals: &'t [Terminal],
) -> Result<(Name, &'t [Terminal]), ReadFault>
    ensures { Reads result (spec.read_name terminals.now) }
{
    match terminals {
        [Terminal::Name(name), rest @ ..] => {
            Ok((name_of(alloc, &name.text, name.quoted)?, rest))
        }
        _ => Err(ReadFault::Syntax(terminals.len())),
    }
}

/// What follows this word at the front, or None where something else is there. The word is given in
/// lower case and isn't reserved; quoted it is a name like others.
pub fn after_word<'t>(terminals: &'t [Terminal], word: &str) -> Option<&'t [Terminal]>
    ensures { option_map (λ rest. rest.now) result ≡ spec.after_word word.now terminals.now }
{
    match terminals {
        [Terminal::Name(name), rest @ ..] => {
            if !name.quoted && *name.text.as_str() == *word {
                Some(rest)
            } else {
                None
            }
        }
        _ => None,
    }
}

/// What follows this word, which has to be at the front.
pub fn expect_word<'t>(terminals: &'t [Terminal], word: &str) -> Result<&'t [Terminal], ReadFault>
    ensures { Rests result (spec.after_word word.now terminals.now) }
{
    match after_word(terminals, word) {
        Some(rest) => Ok(rest),
        None => Err(ReadFault::Syntax(terminals.len())),
    }
}

/// Whether a semicolon is all that is left: false where nothing is, Syntax where more is.
pub fn end(terminals: &[Terminal]) -> Result<bool, ReadFault>
    ensures { Answers result (spec.read_end terminals.now) }
{
    match terminals {
        [] => Ok(false),
        [first] => {
            if code_of(first) == code(Fixed::Semicolon) {
                Ok(true)
            } else {
                Err(ReadFault::Syntax(1))
            }
        }
        [first, rest @ ..] => {
            if code_of(first) == code(Fixed::Semicolon) {
                Err(ReadFault::Syntax(rest.len()))
            } else {
                Err(ReadFault::Syntax(terminals.len()))
            }
        }
    }
}
