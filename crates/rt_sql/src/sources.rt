//! Tables, joins and WHERE, with at most `depth` parentheses in one another.

ghost use Rattle.std.specs.Prelude.{◌≡◌};
ghost use Rattle.rt_token.specs.Readers.{both, list_of};
ghost use Rattle.rt_token.specs.Reads.{Reads};
ghost use Rattle.rt_sql.specs.Reads as spec;

use crate::chains::chain_in_parens;
use crate::conditions::cond;
use crate::looks::is_join;
use rt_token::{Fixed, ReadFault, Terminal, after, expect, flag, name, starts, starts_name};
use rt_tree::{Base, Cond, Join, Source, alias, boxed_before, maybe_alias};
use rt_value::List;
use std::alloc::Global;

fn named<'t>(alloc: Global, terminals: &'t [Terminal]) -> Result<(Base, &'t [Terminal]), ReadFault>
    ensures { Reads result (spec.read_named terminals.now) }
{
    let (name, rest) = name(alloc, terminals)?;
    match maybe_alias(alloc, rest) {
        Ok((alias, rest)) => Ok((Base::Named(name, alias), rest)),
        Err(fault) => {
            drop(name);
            Err(fault)
        }
    }
}

#[tactic(auto, unfolding(crate::specs::Reads::read_base))]
#[cycle(chain_reader)]
fn base<'t>(
    alloc: Global,
    depth: usize,
    terminals: &'t [Terminal],
) -> Result<(Base, &'t [Terminal]), ReadFault>
    ensures { Reads result (spec.read_base (spec.level depth) terminals.now) }
{
    if starts_name(terminals) {
        return named(alloc, terminals);
    }
    let (inner, rest) = chain_in_parens(alloc, depth, terminals)?;
    match alias(alloc, rest) {
        Ok((alias, rest)) => Ok((Base::Sub(inner, alias), rest)),
        Err(fault) => {
            drop(inner);
            Err(fault)
        }
    }
}

// A base, ON and a condition.
#[tactic(auto, unfolding(crate::specs::Reads::read_on))]
#[cycle(chain_reader)]
fn on<'t>(
    alloc: Global,
    depth: usize,
    terminals: &'t [Terminal],
) -> Result<((Base, Cond), &'t [Terminal]), ReadFault>
    ensures { Reads result (spec.read_on (spec.level depth) terminals.now) }
{
    let (base, rest) = base(alloc, depth, terminals)?;
    let (base, rest) = boxed_before(alloc, base, rest, Fixed::On)?;
    match cond(alloc, depth, rest) {
        Ok((cond, rest)) => Ok(((base.into_inner(), cond), rest)),
        Err(fault) => {
            drop(base);
            Err(fault)
        }
    }
}

fn joined(inner: bool, on: (Base, Cond)) -> Join
    ensures { result ≡ spec.joined (inner, on) }
{
    let (base, cond) = on;
    if inner {
        Join::Inner(base, cond)
    } else {
        Join::Plain(base, cond)
    }
}

#[tactic(auto, unfolding(crate::specs::Reads::read_join))]
#[cycle(chain_reader)]
fn join<'t>(
    alloc: Global,
    depth: usize,
    terminals: &'t [Terminal],
) -> Result<(Join, &'t [Terminal]), ReadFault>
    ensures { Reads result (spec.read_join (spec.level depth) terminals.now) }
{
    if starts(terminals, Fixed::Cross) {
        let rest = expect(terminals, Fixed::Cross)?;
        let rest = expect(rest, Fixed::Join)?;
        let (base, rest) = base(alloc, depth, rest)?;
        return Ok((Join::Cross(base), rest));
    }
    let (inner, rest) = flag(terminals, Fixed::Inner);
    let rest = expect(rest, Fixed::Join)?;
    let (on, rest) = on(alloc, depth, rest)?;
    Ok((joined(inner, on), rest))
}

#[cycle(chain_reader)]
fn joins<'t>(
    alloc: Global,
    depth: usize,
    terminals: &'t [Terminal],
) -> Result<(List<Join>, &'t [Terminal]), ReadFault>
    ensures { Reads result (list_of (spec.join_step (spec.level depth)) terminals.now) }
{
    let mut items = List::new(alloc);
    let mut rest = terminals;
    'items: while is_join(rest) {
        let (item, more) = join(alloc, depth, rest)?;
        items.push(item)?;
        rest = more;
    }
    Ok((items, rest))
}

#[tactic(auto, unfolding(crate::specs::Reads::read_source))]
#[cycle(chain_reader)]
fn source<'t>(
    alloc: Global,
    depth: usize,
    terminals: &'t [Terminal],
) -> Result<(Source, &'t [Terminal]), ReadFault>
    ensures { Reads result (spec.read_source (spec.level depth) terminals.now) }
{
    let (head, rest) = base(alloc, depth, terminals)?;
    match joins(alloc, depth, rest) {
        Ok((joins, rest)) => Ok((Source { head, joins }, rest)),
        Err(fault) => {
            drop(head);
            Err(fault)
        }
    }
}

#[cycle(chain_reader)]
fn more_sources<'t>(
    alloc: Global,
    depth: usize,
    terminals: &'t [Terminal],
) -> Result<(List<Source>, &'t [Terminal]), ReadFault>
    ensures { Reads result (list_of (spec.source_step (spec.level depth)) terminals.now) }
{
    let mut items = List::new(alloc);
    let mut rest = terminals;
    'items: while let Some(next) = after(rest, Fixed::Comma) {
        let (item, more) = source(alloc, depth, next)?;
        items.push(item)?;
        rest = more;
    }
    Ok((items, rest))
}

#[tactic(auto, unfolding(crate::specs::Reads::read_sources))]
#[cycle(chain_reader)]
fn sources<'t>(
    alloc: Global,
    depth: usize,
    terminals: &'t [Terminal],
) -> Result<((Source, List<Source>), &'t [Terminal]), ReadFault>
    ensures { Reads result (spec.read_sources (spec.level depth) terminals.now) }
{
    let (head, rest) = source(alloc, depth, terminals)?;
    match more_sources(alloc, depth, rest) {
        Ok((tail, rest)) => Ok(((head, tail), rest)),
        Err(fault) => {
            drop(head);
            Err(fault)
        }
    }
}

#[tactic(auto, unfolding(crate::specs::Reads::read_where))]
#[cycle(chain_reader)]
fn maybe_where<'t>(
    alloc: Global,
    depth: usize,
    terminals: &'t [Terminal],
) -> Result<(Option<Cond>, &'t [Terminal]), ReadFault>
    ensures { Reads result (spec.read_where (spec.level depth) terminals.now) }
{
    if !starts(terminals, Fixed::Where) {
        return Ok((None, terminals));
    }
    let rest = expect(terminals, Fixed::Where)?;
    let (cond, rest) = cond(alloc, depth, rest)?;
    Ok((Some(cond), rest))
}

/// What follows FROM: the sources and the condition after WHERE, if there is one.
#[cycle(chain_reader)]
pub(crate) fn sources_where<'t>(
    alloc: Global,
    depth: usize,
    terminals: &'t [Terminal],
) -> Result<(((Source, List<Source>), Option<Cond>), &'t [Terminal]), ReadFault>
    ensures { Reads result (both (spec.read_sources (spec.level depth)) (spec.read_where (spec.level depth)) terminals.now) }
{
    let (sources, rest) = sources(alloc, depth, terminals)?;
    match maybe_where(alloc, depth, rest) {
        Ok((cond, rest)) => Ok(((sources, cond), rest)),
        Err(fault) => {
            drop(sources);
            Err(fault)
        }
    }
}
