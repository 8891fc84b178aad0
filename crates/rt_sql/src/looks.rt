//! Looks that decide between rules, some over many terminals: `(` may open a chain, a condition or
//! a sum.

ghost use Rattle.std.specs.Prelude.{◌≡◌};
ghost use Rattle.rt_token.specs.Terminals as terminal_spec;
ghost use Rattle.rt_sql.specs.Reads as spec;

use rt_token::{Fixed, Terminal, after, code, code_of, front, starts, tail};

/// Whether a sign of comparison is at the front.
pub(crate) fn is_op(terminals: &[Terminal]) -> bool
    ensures { result ≡ spec.is_op terminals.now }
{
    code(Fixed::Equal) <= front(terminals) && front(terminals) <= code(Fixed::AtLeast)
}

/// Whether JOIN, INNER or CROSS is at the front.
pub(crate) fn is_join(terminals: &[Terminal]) -> bool
    ensures { result ≡ spec.is_join terminals.now }
{
    starts(terminals, Fixed::Inner)
        || (starts(terminals, Fixed::Join) || starts(terminals, Fixed::Cross))
}

/// Whether UNION or EXCEPT is at the front.
pub(crate) fn is_union(terminals: &[Terminal]) -> bool
    ensures { result ≡ spec.is_union terminals.now }
{
    starts(terminals, Fixed::Union) || starts(terminals, Fixed::Except)
}

// Whether SELECT is the first terminal after the opening parentheses.
fn begins_chain(terminals: &[Terminal]) -> bool
    ensures { result ≡ spec.begins_chain terminals.now }
{
    let mut rest = terminals;
    'open: while let Some(next) = after(rest, Fixed::OpenParen) {
        rest = next;
    }
    starts(rest, Fixed::Select)
}

/// Whether IN and a chain after it are at the front.
pub(crate) fn is_in_chain(terminals: &[Terminal]) -> bool
    ensures { result ≡ spec.is_in_chain terminals.now }
{
    starts(terminals, Fixed::In) && begins_chain(tail(terminals))
}

// What follows the parenthesis that closes the one before the terminals.
fn skip<'t>(terminals: &'t [Terminal]) -> &'t [Terminal]
    ensures { result.now ≡ terminal_spec.skip terminals.now 0 }
{
    let mut open = 0_usize;
    let mut rest = terminals;
    'terminals: while let [first, next @ ..] = rest {
        let code_here = code_of(first);
        if code_here == code(Fixed::OpenParen) {
            open += 1;
        } else if code_here == code(Fixed::CloseParen) {
            if open == 0 {
                return next;
            }
            open -= 1;
        }
        rest = next;
    }
    rest
}

/// Whether the parenthesis at the front holds a condition, and not a sum. What follows its closing
/// one decides: AND in `(a = b) AND c = d`, but `>` in `(a + b) > c`.
pub(crate) fn is_group(terminals: &[Terminal]) -> bool
    ensures { result ≡ spec.is_group terminals.now }
{
    starts(terminals, Fixed::OpenParen) && code(Fixed::And) <= front(skip(tail(terminals)))
}
