//! Aliases, with AS or without.

ghost use Rattle.std.specs.Prelude.{◌≡◌};
ghost use Rattle.rt_token.specs.Readers.{optional};
ghost use Rattle.rt_token.specs.Reads.{Reads};
ghost use Rattle.rt_tree.specs.Reads as spec;

use crate::tree::Alias;
use rt_token::{Fixed, NAME, ReadFault, Terminal, code, flag, front, name};
use std::alloc::Global;

/// Whether an alias is at the front: AS or a name.
pub(crate) fn is_alias(terminals: &[Terminal]) -> bool
    ensures { result ≡ spec.is_alias terminals.now }
{
    front(terminals) == code(Fixed::As) || front(terminals) == NAME
}

/// The alias at the front.
#[tactic(auto, unfolding(crate::specs::Reads::read_alias))]
pub fn alias<'t>(
    alloc: Global,
    terminals: &'t [Terminal],
) -> Result<(Alias, &'t [Terminal]), ReadFault>
    ensures { Reads result (spec.read_alias terminals.now) }
{
    let (as_word, rest) = flag(terminals, Fixed::As);
    let (name, rest) = name(alloc, rest)?;
    Ok((Alias { as_word, name }, rest))
}

/// The alias at the front, if there is one.
pub fn maybe_alias<'t>(
    alloc: Global,
    terminals: &'t [Terminal],
) -> Result<(Option<Alias>, &'t [Terminal]), ReadFault>
    ensures { Reads result (optional spec.is_alias spec.read_alias terminals.now) }
{
    if !is_alias(terminals) {
        return Ok((None, terminals));
    }
    let (alias, rest) = alias(alloc, terminals)?;
    Ok((Some(alias), rest))
}
