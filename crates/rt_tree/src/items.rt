//! The list of items between SELECT and FROM.

ghost use Rattle.std.specs.Prelude.{◌≡◌};
ghost use Rattle.rt_token.specs.Readers.{list_of};
ghost use Rattle.rt_token.specs.Reads.{Reads};
ghost use Rattle.rt_tree.specs.Reads as spec;

use crate::names::maybe_alias;
use crate::sums::sum_at;
use crate::tree::{Item, Items};
use rt_token::{Fixed, ReadFault, Terminal, after, expect, name, starts, starts_name, tail};
use rt_value::List;
use std::alloc::Global;

// Whether a name, a dot and a star come next.
fn is_all(terminals: &[Terminal]) -> bool
    ensures { result ≡ spec.is_all terminals.now }
{
    starts_name(terminals)
        && (starts(tail(terminals), Fixed::Dot) && starts(tail(tail(terminals)), Fixed::Star))
}

fn all_of<'t>(alloc: Global, terminals: &'t [Terminal]) -> Result<(Item, &'t [Terminal]), ReadFault>
    ensures { Reads result (spec.read_all terminals.now) }
{
    let (name, rest) = name(alloc, terminals)?;
    let rest = expect(rest, Fixed::Dot)?;
    let rest = expect(rest, Fixed::Star)?;
    Ok((Item::All(name), rest))
}

#[tactic(auto, unfolding(crate::specs::Reads::read_item))]
fn item<'t>(alloc: Global, terminals: &'t [Terminal]) -> Result<(Item, &'t [Terminal]), ReadFault>
    ensures { Reads result (spec.read_item terminals.now) }
{
    if is_all(terminals) {
        return all_of(alloc, terminals);
    }
    let (sum, rest) = sum_at(alloc, terminals)?;
    let (alias, rest) = maybe_alias(alloc, rest)?;
    Ok((Item::One(sum, alias), rest))
}

fn more_items<'t>(
    alloc: Global,
    terminals: &'t [Terminal],
) -> Result<(List<Item>, &'t [Terminal]), ReadFault>
    ensures { Reads result (list_of spec.item_step terminals.now) }
{
    let mut items = List::new(alloc);
    let mut rest = terminals;
    'items: while let Some(next) = after(rest, Fixed::Comma) {
        let (item, more) = item(alloc, next)?;
        items.push(item)?;
        rest = more;
    }
    Ok((items, rest))
}

/// The items at the front, a star or a list, and what follows them.
#[tactic(auto, unfolding(crate::specs::Reads::read_items))]
pub fn items<'t>(
    alloc: Global,
    terminals: &'t [Terminal],
) -> Result<(Items, &'t [Terminal]), ReadFault>
    ensures { Reads result (spec.read_items terminals.now) }
{
    if starts(terminals, Fixed::Star) {
        let rest = expect(terminals, Fixed::Star)?;
        return Ok((Items::Star, rest));
    }
    let (head, rest) = item(alloc, terminals)?;
    match more_items(alloc, rest) {
        Ok((more, rest)) => Ok((Items::Some(head, more), rest)),
        Err(fault) => {
            drop(head);
            Err(fault)
        }
    }
}
