//! SELECT and the set operators, with at most `depth` parentheses in one another. INTERSECT binds
//! more tightly than UNION and EXCEPT, which group from the left.

ghost use Rattle.std.specs.Prelude.{◌≡◌};
ghost use Rattle.rt_token.specs.Readers.{list_of, paren};
ghost use Rattle.rt_token.specs.Reads.{Reads};
ghost use Rattle.rt_sql.specs.Reads as spec;

use crate::looks::is_union;
use crate::sources::sources_where;
use rt_token::{Fixed, ReadFault, Terminal, expect, flag, starts};
use rt_tree::{
    Chain, ChainLink, Items, Meet, MeetLink, Pick, Primary, before, boxed_before, read_items,
};
use rt_value::{Boxed, List};
use std::alloc::Global;

/// A chain in parentheses.
#[cycle(chain_reader)]
pub(crate) fn chain_in_parens<'t>(
    alloc: Global,
    depth: usize,
    terminals: &'t [Terminal],
) -> Result<(Boxed<Chain>, &'t [Terminal]), ReadFault>
    ensures { Reads result (paren (spec.level depth).chain terminals.now) }
{
    let rest = expect(terminals, Fixed::OpenParen)?;
    let (inner, rest) = inner_chain(alloc, depth, rest)?;
    boxed_before(alloc, inner, rest, Fixed::CloseParen)
}

// SELECT and the items, and FROM after them.
fn select_from<'t>(
    alloc: Global,
    terminals: &'t [Terminal],
) -> Result<((bool, Items), &'t [Terminal]), ReadFault>
    ensures { Reads result (spec.read_select_from terminals.now) }
{
    let rest = expect(terminals, Fixed::Select)?;
    let (distinct, rest) = flag(rest, Fixed::Distinct);
    let (items, rest) = read_items(alloc, rest)?;
    let (items, rest) = before(items, rest, Fixed::From)?;
    Ok(((distinct, items), rest))
}

#[tactic(auto, unfolding(crate::specs::Reads::read_pick))]
#[cycle(chain_reader)]
fn pick<'t>(
    alloc: Global,
    depth: usize,
    terminals: &'t [Terminal],
) -> Result<(Pick, &'t [Terminal]), ReadFault>
    ensures { Reads result (spec.read_pick (spec.level depth) terminals.now) }
{
    let ((distinct, items), rest) = select_from(alloc, terminals)?;
    match sources_where(alloc, depth, rest) {
        Ok((((head, tail), cond), rest)) => {
            let pick = Pick {
                distinct,
                items,
                head,
                tail,
                cond,
            };
            Ok((pick, rest))
        }
        Err(fault) => {
            drop(items);
            Err(fault)
        }
    }
}

#[tactic(auto, unfolding(crate::specs::Reads::read_primary))]
#[cycle(chain_reader)]
fn primary<'t>(
    alloc: Global,
    depth: usize,
    terminals: &'t [Terminal],
) -> Result<(Primary, &'t [Terminal]), ReadFault>
    ensures { Reads result (spec.read_primary (spec.level depth) terminals.now) }
{
    if starts(terminals, Fixed::OpenParen) {
        let (inner, rest) = chain_in_parens(alloc, depth, terminals)?;
        return Ok((Primary::Paren(inner), rest));
    }
    let (pick, rest) = pick(alloc, depth, terminals)?;
    Ok((Primary::One(Boxed::new(alloc, pick)?), rest))
}

#[tactic(auto, unfolding(crate::specs::Reads::read_meet_link))]
#[cycle(chain_reader)]
fn meet_link<'t>(
    alloc: Global,
    depth: usize,
    terminals: &'t [Terminal],
) -> Result<(MeetLink, &'t [Terminal]), ReadFault>
    ensures { Reads result (spec.read_meet_link (spec.level depth) terminals.now) }
{
    let rest = expect(terminals, Fixed::Intersect)?;
    let (distinct, rest) = flag(rest, Fixed::Distinct);
    let (of, rest) = primary(alloc, depth, rest)?;
    Ok((MeetLink { distinct, of }, rest))
}

#[cycle(chain_reader)]
fn meet_links<'t>(
    alloc: Global,
    depth: usize,
    terminals: &'t [Terminal],
) -> Result<(List<MeetLink>, &'t [Terminal]), ReadFault>
    ensures { Reads result (list_of (spec.meet_step (spec.level depth)) terminals.now) }
{
    let mut items = List::new(alloc);
    let mut rest = terminals;
    'items: while starts(rest, Fixed::Intersect) {
        let (item, more) = meet_link(alloc, depth, rest)?;
        items.push(item)?;
        rest = more;
    }
    Ok((items, rest))
}

#[tactic(auto, unfolding(crate::specs::Reads::read_meet))]
#[cycle(chain_reader)]
fn meet<'t>(
    alloc: Global,
    depth: usize,
    terminals: &'t [Terminal],
) -> Result<(Meet, &'t [Terminal]), ReadFault>
    ensures { Reads result (spec.read_meet (spec.level depth) terminals.now) }
{
    let (head, rest) = primary(alloc, depth, terminals)?;
    match meet_links(alloc, depth, rest) {
        Ok((tail, rest)) => Ok((Meet { head, tail }, rest)),
        Err(fault) => {
            drop(head);
            Err(fault)
        }
    }
}

#[tactic(auto, unfolding(crate::specs::Reads::read_chain_link))]
#[cycle(chain_reader)]
fn chain_link<'t>(
    alloc: Global,
    depth: usize,
    terminals: &'t [Terminal],
) -> Result<(ChainLink, &'t [Terminal]), ReadFault>
    ensures { Reads result (spec.read_chain_link (spec.level depth) terminals.now) }
{
    let except = starts(terminals, Fixed::Except);
    let word = if except { Fixed::Except } else { Fixed::Union };
    let rest = expect(terminals, word)?;
    let (distinct, rest) = flag(rest, Fixed::Distinct);
    let (of, rest) = meet(alloc, depth, rest)?;
    let link = ChainLink {
        except,
        distinct,
        of,
    };
    Ok((link, rest))
}

#[cycle(chain_reader)]
fn chain_links<'t>(
    alloc: Global,
    depth: usize,
    terminals: &'t [Terminal],
) -> Result<(List<ChainLink>, &'t [Terminal]), ReadFault>
    ensures { Reads result (list_of (spec.chain_step (spec.level depth)) terminals.now) }
{
    let mut items = List::new(alloc);
    let mut rest = terminals;
    'items: while is_union(rest) {
        let (item, more) = chain_link(alloc, depth, rest)?;
        items.push(item)?;
        rest = more;
    }
    Ok((items, rest))
}

#[tactic(auto, unfolding(crate::specs::Reads::read_chain))]
#[cycle(chain_reader)]
fn chain<'t>(
    alloc: Global,
    depth: usize,
    terminals: &'t [Terminal],
) -> Result<(Chain, &'t [Terminal]), ReadFault>
    ensures { Reads result (spec.read_chain (spec.level depth) terminals.now) }
{
    let (head, rest) = meet(alloc, depth, terminals)?;
    match chain_links(alloc, depth, rest) {
        Ok((tail, rest)) => Ok((Chain { head, tail }, rest)),
        Err(fault) => {
            drop(head);
            Err(fault)
        }
    }
}

/// A chain without the parentheses around it: the whole query, or what is inside parentheses.
#[cycle(chain_reader)]
pub(crate) fn inner_chain<'t>(
    alloc: Global,
    depth: usize,
    terminals: &'t [Terminal],
) -> Result<(Chain, &'t [Terminal]), ReadFault>
    ensures { Reads result ((spec.level depth).chain terminals.now) }
{
    if depth == 0 {
        return Err(ReadFault::Syntax(terminals.len()));
    }
    chain(alloc, depth - 1, terminals)
}
