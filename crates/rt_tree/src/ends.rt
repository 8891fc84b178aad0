//! Parts that have to be followed by a given terminal, such as a closing parenthesis.

ghost use Rattle.std.specs.Prelude.{option_map};
ghost use Rattle.rt_token.specs.Reads.{Reads};
ghost use Rattle.rt_token.specs.Terminals.{after};

use rt_token::{Fixed, ReadFault, Terminal, expect};
use rt_value::Boxed;
use std::alloc::Global;

/// What was read, and what follows the terminal after it.
pub fn before<'t, T: Drop>(
    part: T,
    terminals: &'t [Terminal],
    fixed: Fixed,
) -> Result<(T, &'t [Terminal]), ReadFault>
    ensures { Reads result (option_map (λ rest. (part, rest)) (after fixed terminals.now)) }
{
    let rest = expect(terminals, fixed)?;
    Ok((part, rest))
}

/// What was read, in a box, and what follows the terminal after it.
pub fn boxed_before<'t, T: Drop>(
    alloc: Global,
    part: T,
    terminals: &'t [Terminal],
    fixed: Fixed,
) -> Result<(Boxed<T>, &'t [Terminal]), ReadFault>
    ensures { Reads result (option_map (λ rest. (part, rest)) (after fixed terminals.now)) }
{
    let rest = expect(terminals, fixed)?;
    Ok((Boxed::new(alloc, part)?, rest))
}
