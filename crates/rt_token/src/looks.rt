//! Looks at the terminal at the front: what readers branch on. None of these takes memory.

ghost use Rattle.std.specs.Prelude.{◌≡◌, ◌≤◌, length, option_map};
ghost use Rattle.rt_token.specs.Readers as readers;
ghost use Rattle.rt_token.specs.Terminals as spec;

use crate::fixed::{Fixed, code};
use crate::terminal::Terminal;

/// The code of a name.
pub const NAME: u8 = 23;

/// The code that `front` answers where there are no terminals left.
pub const END: u8 = 35;

const NUMBER: u8 = 44;

const STR: u8 = 45;

/// The place of a terminal in the order of what may follow what.
pub fn code_of(terminal: &Terminal) -> u8
    ensures { result ≡ spec.code_of terminal.now }
{
    match terminal {
        Terminal::Fixed(fixed) => code(*fixed),
        Terminal::Name(_) => NAME,
        Terminal::Number(_) => NUMBER,
        Terminal::Str(_) => STR,
    }
}

/// The code of the terminal at the front, or `END`.
pub fn front(terminals: &[Terminal]) -> u8
    ensures { result ≡ spec.front terminals.now }
{
    match terminals {
        [first, ..] => code_of(first),
        _ => END,
    }
}

/// Whether the terminal is at the front.
pub fn starts(terminals: &[Terminal], fixed: Fixed) -> bool
    ensures { result ≡ readers.starts fixed terminals.now }
{
    front(terminals) == code(fixed)
}

/// What follows the terminal at the front, or None where another one or none is there.
pub fn after<'t>(terminals: &'t [Terminal], fixed: Fixed) -> Option<&'t [Terminal]>
    ensures { option_map (λ rest. rest.now) result ≡ spec.after fixed terminals.now }
{
    match terminals {
        [first, rest @ ..] => {
            if code_of(first) == code(fixed) {
                Some(rest)
            } else {
                None
            }
        }
        _ => None,
    }
}

/// How often the terminal comes at the front, and what follows.
pub fn counted(terminals: &[Terminal], fixed: Fixed) -> (usize, &[Terminal])
    ensures count { result.0 ≡ (spec.counted fixed terminals.now).0 }
    ensures rest { result.1.now ≡ (spec.counted fixed terminals.now).1 }
{
    let mut count = 0;
    let mut rest = terminals;
    'run: while let Some(next) = after(rest, fixed) {
        count += 1;
        rest = next;
    }
    (count, rest)
}

/// Whether the terminal is at the front, and what follows it, or all terminals where it isn't.
pub fn flag(terminals: &[Terminal], fixed: Fixed) -> (bool, &[Terminal])
    ensures flag { result.0 ≡ (readers.flag_at fixed terminals.now).0 }
    ensures rest { result.1.now ≡ (readers.flag_at fixed terminals.now).1 }
{
    match after(terminals, fixed) {
        Some(rest) => (true, rest),
        None => (false, terminals),
    }
}

/// What follows the terminal at the front, whichever it is, or nothing.
pub fn tail(terminals: &[Terminal]) -> &[Terminal]
    ensures { result.now ≡ spec.tail_of terminals.now }
{
    match terminals {
        [_, rest @ ..] => rest,
        _ => terminals,
    }
}
