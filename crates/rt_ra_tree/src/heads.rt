//! The operator at the front: the only place where keywords of the algebra that SQL doesn't reserve
//! are known.

ghost use Rattle.std.specs.Prelude.{◌≡◌, bytes_eq, option_map};
ghost use Rattle.rt_ra_tree.specs.Heads as spec;

use crate::tree::RaOp;
use rt_token::{Fixed, Terminal, code, starts};

/// What comes before the parenthesis of an operator.
#[derive(Clone, Copy)]
pub enum Head {
    Select,
    Project,
    Rename,
    Two(RaOp),
}

fn fixed_head(place: u8) -> Option<Head>
    ensures { result ≡ spec.by_code spec.fixed_heads place }
{
    if place == code(Fixed::Select) {
        Some(Head::Select)
    } else if place == code(Fixed::Cross) {
        Some(Head::Two(RaOp::Cross))
    } else if place == code(Fixed::Join) {
        Some(Head::Two(RaOp::Join))
    } else if place == code(Fixed::Union) {
        Some(Head::Two(RaOp::Union))
    } else if place == code(Fixed::Except) {
        Some(Head::Two(RaOp::Except))
    } else if place == code(Fixed::Intersect) {
        Some(Head::Two(RaOp::Intersect))
    } else {
        None
    }
}

fn is(word: &str, other: &str) -> bool
    ensures { result ≡ bytes_eq word.now other.now }
{
    *word == *other
}

fn word_head(word: &str) -> Option<Head>
    ensures { result ≡ spec.by_word spec.word_heads word.now }
{
    if is(word, "project") {
        Some(Head::Project)
    } else if is(word, "rename") {
        Some(Head::Rename)
    } else if is(word, "semi") {
        Some(Head::Two(RaOp::Semi))
    } else if is(word, "anti") {
        Some(Head::Two(RaOp::Anti))
    } else if is(word, "leftjoin") {
        Some(Head::Two(RaOp::LeftJoin))
    } else if is(word, "divide") {
        Some(Head::Two(RaOp::Divide))
    } else {
        None
    }
}

fn head_of(terminal: &Terminal) -> Option<Head>
    ensures { result ≡ spec.head_of terminal.now }
{
    match terminal {
        Terminal::Fixed(fixed) => fixed_head(code(*fixed)),
        Terminal::Name(name) => {
            if name.quoted {
                None
            } else {
                word_head(name.text.as_str())
            }
        }
        _ => None,
    }
}

/// The operator at the front, where a parenthesis opens after it, and what follows it.
pub(crate) fn head_at<'t>(terminals: &'t [Terminal]) -> Option<(Head, &'t [Terminal])>
    ensures { option_map (λ h. (h.0, h.1.now)) result ≡ spec.head_at terminals.now }
{
    match terminals {
        [first, rest @ ..] => {
            if starts(rest, Fixed::OpenParen) {
                match head_of(first) {
                    Some(head) => Some((head, rest)),
                    None => None,
                }
            } else {
                None
            }
        }
        _ => None,
    }
}
