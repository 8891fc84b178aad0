//! From a query and the columns of its language to the typed query of the algebra.

ghost use Rattle.std.specs.Prelude.{◌≡◌, IfOk, map};
ghost use Rattle.rt_algebra.specs.TextColumns as spec;

use crate::column::Column;
use crate::query::Query;
use crate::typed::Typed;
use rt_schema::ColKind;
use rt_value::{Boxed, List, NoMemory, Txt};
use std::alloc::Global;

fn kinds_of<C: Column>(alloc: Global, columns: &[C]) -> Result<List<ColKind>, NoMemory>
    ensures { IfOk result (λ kinds. kinds ≡ map C.kind_of columns.now) }
{
    let mut kinds = List::new(alloc);
    for column in columns {
        kinds.push(column.kind())?;
    }
    Ok(kinds)
}

fn bounds_of<C: Column>(alloc: Global, columns: &[C]) -> Result<List<u128>, NoMemory>
    ensures { IfOk result (λ bounds. bounds ≡ map C.bound_of columns.now) }
{
    let mut bounds = List::new(alloc);
    for column in columns {
        bounds.push(column.bound())?;
    }
    Ok(bounds)
}

fn names_of<C: Column>(alloc: Global, columns: &[C]) -> Result<List<Option<Txt>>, NoMemory>
    ensures { IfOk result (λ names. names ≡ map C.name_of columns.now) }
{
    let mut names = List::new(alloc);
    for column in columns {
        names.push(column.name(alloc)?)?;
    }
    Ok(names)
}

// The kinds, bounds and names of columns.
#[derive(Drop)]
struct Heads {
    kinds: List<ColKind>,
    bounds: List<u128>,
    names: List<Option<Txt>>,
}

fn heads_of<C: Column>(alloc: Global, columns: &[C]) -> Result<Heads, NoMemory>
    ensures { IfOk result (λ heads. heads ≡ record { kinds = map C.kind_of columns.now; bounds = map C.bound_of columns.now; names = map C.name_of columns.now }) }
{
    let kinds = kinds_of(alloc, columns)?;
    let bounds = bounds_of(alloc, columns)?;
    let names = names_of(alloc, columns)?;
    Ok(Heads {
        kinds,
        bounds,
        names,
    })
}

/// The query with the kinds, bounds and names of its columns.
pub fn typed_of<C: Column>(
    alloc: Global,
    query: Boxed<Query>,
    columns: &[C],
) -> Result<Typed, NoMemory>
    ensures { IfOk result (λ typed. typed ≡ spec.typed_of C.kind_of C.bound_of C.name_of query columns.now) }
{
    let Heads {
        kinds,
        bounds,
        names,
    } = heads_of(alloc, columns)?;
    Ok(Typed {
        query,
        kinds,
        bounds,
        names,
    })
}
