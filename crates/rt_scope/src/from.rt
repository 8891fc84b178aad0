//! The FROM clause, source by source. A row of it is one row of each source, one after the other:
//! over `a (x, y)` and `b (z)`, the source `b` starts at 2 and the width is 3.

ghost use Rattle.std.specs.Prelude.{◌≡◌, ◌+◌, ◌∷◌, Ok, IfOk, map, drop, length};
ghost use Rattle.rt_scope.specs.Sources as spec;
ghost use Rattle.rt_scope.specs.Fault.{is_memory};
ghost use Rattle.rt_value.specs.Gives.{Gives};

use crate::column::Column;
use crate::fault::NameFault;
use crate::relation::{Relation, TableRef};
use crate::source::Source;
use crate::sources::Sources;
use rt_algebra::{Pred, Query};
use rt_value::{List, NoMemory};
use std::alloc::Global;

/// The sources of a SELECT so far, their queries, the conditions on their rows, and the number of
/// their columns.
#[derive(Drop)]
pub struct FromClause {
    pub sources: Sources,
    pub queries: List<Query>,
    pub conds: List<Pred>,
    pub width: usize,
}

/// No sources yet.
pub fn no_sources(alloc: Global) -> FromClause
    ensures { result ≡ spec.no_sources }
{
    FromClause {
        sources: Sources::new(alloc),
        queries: List::new(alloc),
        conds: List::new(alloc),
        width: 0,
    }
}

// The number of columns with those of one more source.
fn width_with(width: usize, columns: &[Column]) -> Result<usize, NoMemory>
    ensures { IfOk result (λ total. total ≡ width + length columns.now) }
{
    match width.checked_add(columns.len()) {
        Some(total) => Ok(total),
        None => Err(NoMemory),
    }
}

fn extended(
    alloc: Global,
    from: FromClause,
    table: TableRef,
    total: usize,
) -> Result<FromClause, NoMemory>
    ensures { IfOk result (λ more. more ≡ spec.extended from table total) }
{
    let FromClause {
        sources,
        mut queries,
        conds,
        width: start,
    } = from;
    let TableRef { name, relation } = table;
    let Relation { query, columns } = relation;
    let source = Source {
        name,
        columns,
        start,
    };
    let sources = sources.with(alloc, source)?;
    queries.push(query.into_inner())?;
    Ok(FromClause {
        sources,
        queries,
        conds,
        width: total,
    })
}

/// The sources with one more at the end.
pub fn with_base(alloc: Global, from: FromClause, table: TableRef) -> Result<FromClause, NameFault>
    ensures { Gives is_memory result (spec.with_base from table) }
{
    if from.sources.has(&table.name) {
        return Err(NameFault::DuplicateAlias(table.name));
    }
    let total = width_with(from.width, table.relation.columns.as_slice())?;
    Ok(extended(alloc, from, table, total)?)
}

/// The sources with one more condition on their rows.
pub fn with_cond(from: FromClause, cond: Pred) -> Result<FromClause, NameFault>
    ensures { Gives is_memory result (Ok (spec.with_cond from cond)) }
{
    let FromClause {
        sources,
        queries,
        mut conds,
        width,
    } = from;
    conds.push(cond)?;
    Ok(FromClause {
        sources,
        queries,
        conds,
        width,
    })
}

/// The sources from number `own` on.
pub fn visible<'s>(sources: &'s [Source], own: usize) -> &'s [Source]
    ensures { result.now ≡ drop own sources.entry.now }
{
    if own < sources.len() {
        sources.split_at(own).1
    } else {
        sources.split_at(sources.len()).1
    }
}

/// The scopes of what sees these sources.
pub fn inner<'s>(
    alloc: Global,
    own: &'s [Source],
    scopes: &[&'s [Source]],
) -> Result<Vec<&'s [Source]>, NameFault>
    ensures { Gives is_memory (spec.scopes_in result) (Ok (own.entry.now ∷ map (λ s. s.now) scopes.now)) }
{
    let mut all = Vec::new(alloc);
    let Ok(()) = all.push(own) else {
        return Err(NameFault::NoMemory);
    };
    let Ok(()) = all.extend_from_slice(scopes) else {
        return Err(NameFault::NoMemory);
    };
    Ok(all)
}
