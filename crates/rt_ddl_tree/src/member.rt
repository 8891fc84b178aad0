//! Reading lists with separators: one loop, proved once, for every kind of member.

ghost use Rattle.rt_ddl_tree.specs.Members.{IsShort};
ghost use Rattle.rt_token.specs.Readers.{Parser, both, list_of, paren, step_after};
ghost use Rattle.rt_token.specs.Reads.{Reads};
ghost use Rattle.rt_token.specs.declared.fixed.Fixed.TheVariants as fixed;

use rt_token::{Fixed, ReadFault, Terminal, after, expect};
use rt_value::List;
use std::alloc::Global;

/// What lists are made of.
pub trait Member: Drop {
    ghost parser: { Parser Self };

    fn read<'t>(
        alloc: Global,
        terminals: &'t [Terminal],
    ) -> Result<(Self, &'t [Terminal]), ReadFault>
        ensures { Reads result (parser terminals.now) };
}

fn more<'t, T: Member>(
    alloc: Global,
    terminals: &'t [Terminal],
    separator: Fixed,
) -> Result<(List<T>, &'t [Terminal]), ReadFault>
    requires { IsShort T.parser }
    ensures { Reads result (list_of (step_after separator T.parser) terminals.now) }
{
    let mut items = List::new(alloc);
    let mut rest = terminals;
    'items: while let Some(next) = after(rest, separator) {
        let (item, more) = T::read(alloc, next)?;
        items.push(item)?;
        rest = more;
    }
    Ok((items, rest))
}

/// A member and those after it, each after a separator.
pub(crate) fn list<'t, T: Member>(
    alloc: Global,
    terminals: &'t [Terminal],
    separator: Fixed,
) -> Result<((T, List<T>), &'t [Terminal]), ReadFault>
    requires { IsShort T.parser }
    ensures { Reads result (both T.parser (list_of (step_after separator T.parser)) terminals.now) }
{
    let (head, rest) = T::read(alloc, terminals)?;
    let (tail, rest) = more(alloc, rest, separator)?;
    Ok(((head, tail), rest))
}

/// Members in parentheses, with commas between them.
pub(crate) fn in_parentheses<'t, T: Member>(
    alloc: Global,
    terminals: &'t [Terminal],
) -> Result<((T, List<T>), &'t [Terminal]), ReadFault>
    requires { IsShort T.parser }
    ensures { Reads result (paren (both T.parser (list_of (step_after fixed.Comma T.parser))) terminals.now) }
{
    let rest = expect(terminals, Fixed::OpenParen)?;
    let (members, rest) = list(alloc, rest, Fixed::Comma)?;
    let rest = expect(rest, Fixed::CloseParen)?;
    Ok((members, rest))
}
