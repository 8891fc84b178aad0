//! All that leads to a subquery: conditions, sources, SELECT and set operators. These functions
//! call one another and are proved as one, so what needs no subquery is kept below, in `rt_scope`.

ghost use Rattle.std.specs.Prelude.{◌∷◌, map, option_map};
ghost use Rattle.rt_resolve.specs.Chains as spec;
ghost use Rattle.rt_scope.specs.Fault.{is_memory};
ghost use Rattle.rt_scope.specs.Select as select_spec;
ghost use Rattle.rt_value.specs.Gives.{Gives};

use rt_algebra::{Pred, all_of, any_of};
use rt_schema::Table;
use rt_scope::{
    FromClause, Members, NameFault, Relation, SelectList, Source, TableRef, alias_or, between_test,
    boxed_sum, comparison, inner, intersected, list_test, member, negated, no_sources, null_test,
    one_more, only, select_list, select_of, table_named, united, visible, with_base, with_cond,
};
use rt_tree::{
    Atom, Base, Chain, ChainLink, Cond, Conj, Items, Join, Meet, MeetLink, Neg, Pick, Primary,
    Source as SourceTree, Sum,
};
use std::alloc::Global;

fn items_over(
    alloc: Global,
    items: &Items,
    own: &[Source],
    scopes: &[&[Source]],
) -> Result<SelectList, NameFault>
    ensures { Gives is_memory result (select_spec.select_list items.now own.now (own.now ∷ map (λ s. s.now) scopes.now)) }
{
    let all = inner(alloc, &*own, &*scopes)?;
    select_list(alloc, items, own, all.as_slice())
}

#[cycle(chains)]
fn atom(alloc: Global, tables: &[Table], of: &Atom, scopes: &[&[Source]]) -> Result<Pred, NameFault>
    ensures { Gives is_memory result (spec.atom of.now tables.now (map (λ s. s.now) scopes.now)) }
{
    match of {
        Atom::Cmp(a, op, b) => comparison(alloc, a, *op, b, scopes),
        Atom::IsNull(a, not) => null_test(alloc, a, *not, scopes),
        Atom::InChain(a, not, of) => {
            let x = boxed_sum(alloc, a, scopes)?;
            let rows = chain(alloc, tables, of.get(), scopes)?;
            let cond = member(x, rows)?;
            negated(alloc, *not, cond)
        }
        Atom::InList(a, not, head, tail) => {
            list_test(alloc, a, *not, head, tail.as_slice(), scopes)
        }
        Atom::Between(a, not, b, c) => between_test(alloc, a, *not, b, c, scopes),
        Atom::Exists(of) => {
            let rows = chain(alloc, tables, of.get(), scopes)?;
            Ok(Pred::Exists(rows.query))
        }
        Atom::Paren(inner) => cond(alloc, tables, inner.get(), scopes),
    }
}

#[cycle(chains)]
fn neg(alloc: Global, tables: &[Table], of: &Neg, scopes: &[&[Source]]) -> Result<Pred, NameFault>
    ensures { Gives is_memory result (spec.neg of.now tables.now (map (λ s. s.now) scopes.now)) }
{
    let inner = atom(alloc, tables, &of.atom, scopes)?;
    negated(alloc, of.nots % 2 == 1, inner)
}

#[cycle(chains)]
fn conj(alloc: Global, tables: &[Table], of: &Conj, scopes: &[&[Source]]) -> Result<Pred, NameFault>
    ensures { Gives is_memory result (spec.conj of.now tables.now (map (λ s. s.now) scopes.now)) }
{
    let c = neg(alloc, tables, &of.head, scopes)?;
    let members = of.tail.as_slice();
    let mut all = only(alloc, c)?;
    for next in members {
        let more = neg(alloc, tables, next, scopes)?;
        all = one_more(all, more)?;
    }
    Ok(all_of(all.conds))
}

#[cycle(chains)]
fn conjs(
    alloc: Global,
    tables: &[Table],
    members: &[Conj],
    start: Members,
    scopes: &[&[Source]],
) -> Result<Members, NameFault>
    ensures { Gives is_memory result (spec.gathered start (map spec.conj members.now) tables.now (map (λ s. s.now) scopes.now)) }
{
    let mut all = start;
    for next in members {
        let c = conj(alloc, tables, next, scopes)?;
        all = one_more(all, c)?;
    }
    Ok(all)
}

#[cycle(chains)]
fn cond(alloc: Global, tables: &[Table], of: &Cond, scopes: &[&[Source]]) -> Result<Pred, NameFault>
    ensures { Gives is_memory result (spec.cond of.now tables.now (map (λ s. s.now) scopes.now)) }
{
    let c = conj(alloc, tables, &of.head, scopes)?;
    let first = only(alloc, c)?;
    let all = conjs(alloc, tables, of.tail.as_slice(), first, scopes)?;
    Ok(any_of(all.conds))
}

#[cycle(chains)]
fn base(
    alloc: Global,
    tables: &[Table],
    of: &Base,
    scopes: &[&[Source]],
) -> Result<TableRef, NameFault>
    ensures { Gives is_memory result (spec.base of.now tables.now (map (λ s. s.now) scopes.now)) }
{
    match of {
        Base::Named(name, alias) => {
            let own = alias_or(alloc, alias, &name.text)?;
            table_named(alloc, &name.text, own, 0, tables)
        }
        Base::Sub(of, alias) => {
            let relation = chain(alloc, tables, of.get(), scopes)?;
            let name = alias.name.text.copy(alloc)?;
            Ok(TableRef { name, relation })
        }
    }
}

// The sources with one more.
#[cycle(chains)]
fn based(
    alloc: Global,
    tables: &[Table],
    from: FromClause,
    of: &Base,
    scopes: &[&[Source]],
) -> Result<FromClause, NameFault>
    ensures { Gives is_memory result (spec.based from (spec.base of.now) tables.now (map (λ s. s.now) scopes.now)) }
{
    let next = base(alloc, tables, of, scopes)?;
    with_base(alloc, from, next)
}

#[cycle(chains)]
fn condition_over(
    alloc: Global,
    tables: &[Table],
    own: &[Source],
    of: &Cond,
    scopes: &[&[Source]],
) -> Result<Pred, NameFault>
    ensures { Gives is_memory result (spec.cond of.now tables.now (own.now ∷ map (λ s. s.now) scopes.now)) }
{
    let all = inner(alloc, &*own, &*scopes)?;
    cond(alloc, tables, of, all.as_slice())
}

#[cycle(chains)]
fn on(
    alloc: Global,
    tables: &[Table],
    from: FromClause,
    own: usize,
    of: &Cond,
    scopes: &[&[Source]],
) -> Result<FromClause, NameFault>
    ensures { Gives is_memory result (spec.with_on from own (spec.cond of.now) tables.now (map (λ s. s.now) scopes.now)) }
{
    let c = condition_over(
        alloc,
        tables,
        visible(from.sources.as_slice(), own),
        of,
        scopes,
    )?;
    with_cond(from, c)
}

#[cycle(chains)]
fn join(
    alloc: Global,
    tables: &[Table],
    from: FromClause,
    own: usize,
    of: &Join,
    scopes: &[&[Source]],
) -> Result<FromClause, NameFault>
    ensures { Gives is_memory result (spec.join of.now from own tables.now (map (λ s. s.now) scopes.now)) }
{
    match of {
        Join::Plain(b, c) => {
            let more = based(alloc, tables, from, b, scopes)?;
            on(alloc, tables, more, own, c, scopes)
        }
        Join::Inner(b, c) => {
            let more = based(alloc, tables, from, b, scopes)?;
            on(alloc, tables, more, own, c, scopes)
        }
        Join::Cross(b) => based(alloc, tables, from, b, scopes),
    }
}

#[cycle(chains)]
fn joins(
    alloc: Global,
    tables: &[Table],
    start: FromClause,
    own: usize,
    members: &[Join],
    scopes: &[&[Source]],
) -> Result<FromClause, NameFault>
    ensures { Gives is_memory result (spec.joined_all start own (map spec.join members.now) tables.now (map (λ s. s.now) scopes.now)) }
{
    let mut from = start;
    for next in members {
        from = join(alloc, tables, from, own, next, scopes)?;
    }
    Ok(from)
}

#[cycle(chains)]
fn source(
    alloc: Global,
    tables: &[Table],
    from: FromClause,
    of: &SourceTree,
    scopes: &[&[Source]],
) -> Result<FromClause, NameFault>
    ensures { Gives is_memory result (spec.source_of of.now from tables.now (map (λ s. s.now) scopes.now)) }
{
    let own = from.sources.len();
    let more = based(alloc, tables, from, &of.head, scopes)?;
    joins(alloc, tables, more, own, of.joins.as_slice(), scopes)
}

#[cycle(chains)]
fn sources(
    alloc: Global,
    tables: &[Table],
    start: FromClause,
    members: &[SourceTree],
    scopes: &[&[Source]],
) -> Result<FromClause, NameFault>
    ensures { Gives is_memory result (spec.sources_all start (map spec.source_of members.now) tables.now (map (λ s. s.now) scopes.now)) }
{
    let mut from = start;
    for next in members {
        from = source(alloc, tables, from, next, scopes)?;
    }
    Ok(from)
}

#[cycle(chains)]
fn filtered(
    alloc: Global,
    tables: &[Table],
    from: FromClause,
    of: &Option<Cond>,
    scopes: &[&[Source]],
) -> Result<FromClause, NameFault>
    ensures { Gives is_memory result (spec.where_on from (option_map spec.cond of.now) tables.now (map (λ s. s.now) scopes.now)) }
{
    match of {
        None => Ok(from),
        Some(of) => {
            let c = condition_over(alloc, tables, from.sources.as_slice(), of, scopes)?;
            with_cond(from, c)
        }
    }
}

#[cycle(chains)]
fn pick(
    alloc: Global,
    tables: &[Table],
    of: &Pick,
    scopes: &[&[Source]],
) -> Result<Relation, NameFault>
    ensures { Gives is_memory result (spec.pick of.now tables.now (map (λ s. s.now) scopes.now)) }
{
    let first = source(alloc, tables, no_sources(alloc), &of.head, scopes)?;
    let from = sources(alloc, tables, first, of.tail.as_slice(), scopes)?;
    let all = filtered(alloc, tables, from, &of.cond, scopes)?;
    let list = items_over(alloc, &of.items, all.sources.as_slice(), scopes)?;
    select_of(alloc, all, list)
}

#[cycle(chains)]
fn primary(
    alloc: Global,
    tables: &[Table],
    of: &Primary,
    scopes: &[&[Source]],
) -> Result<Relation, NameFault>
    ensures { Gives is_memory result (spec.primary of.now tables.now (map (λ s. s.now) scopes.now)) }
{
    match of {
        Primary::One(of) => pick(alloc, tables, of.get(), scopes),
        Primary::Paren(of) => chain(alloc, tables, of.get(), scopes),
    }
}

#[cycle(chains)]
fn meet_links(
    alloc: Global,
    tables: &[Table],
    start: Relation,
    members: &[MeetLink],
    scopes: &[&[Source]],
) -> Result<Relation, NameFault>
    ensures { Gives is_memory result (spec.linked_all start (map spec.meet_link members.now) tables.now (map (λ s. s.now) scopes.now)) }
{
    let mut all = start;
    for next in members {
        let other = primary(alloc, tables, &next.of, scopes)?;
        all = intersected(alloc, all, other)?;
    }
    Ok(all)
}

#[cycle(chains)]
fn meet(
    alloc: Global,
    tables: &[Table],
    of: &Meet,
    scopes: &[&[Source]],
) -> Result<Relation, NameFault>
    ensures { Gives is_memory result (spec.meet of.now tables.now (map (λ s. s.now) scopes.now)) }
{
    let head = primary(alloc, tables, &of.head, scopes)?;
    meet_links(alloc, tables, head, of.tail.as_slice(), scopes)
}

#[cycle(chains)]
fn chain_links(
    alloc: Global,
    tables: &[Table],
    start: Relation,
    members: &[ChainLink],
    scopes: &[&[Source]],
) -> Result<Relation, NameFault>
    ensures { Gives is_memory result (spec.linked_all start (map spec.chain_link members.now) tables.now (map (λ s. s.now) scopes.now)) }
{
    let mut all = start;
    for next in members {
        let other = meet(alloc, tables, &next.of, scopes)?;
        all = united(alloc, next.except, all, other)?;
    }
    Ok(all)
}

/// A chain of set operators over the tables, under the scopes around it.
#[cycle(chains)]
pub(crate) fn chain(
    alloc: Global,
    tables: &[Table],
    of: &Chain,
    scopes: &[&[Source]],
) -> Result<Relation, NameFault>
    ensures { Gives is_memory result (spec.chain of.now tables.now (map (λ s. s.now) scopes.now)) }
{
    let head = meet(alloc, tables, &of.head, scopes)?;
    chain_links(alloc, tables, head, of.tail.as_slice(), scopes)
}
