//! Which column a name means: the search goes through the scopes from the innermost outward. A name
//! found one scope outward, third in the row there, is `Col(1, 2)`.

ghost use Rattle.std.specs.Prelude.{◌≡◌, ◌+◌, Err, Ok, map};
ghost use Rattle.rt_scope.specs.Fault.{is_memory};
ghost use Rattle.rt_scope.specs.Lookup as spec;
ghost use Rattle.rt_scope.specs.declared.fault.NameFault.TheVariants as faults;
ghost use Rattle.rt_scope.specs.declared.lookup.Seen.TheVariants as seen_as;
ghost use Rattle.rt_value.specs.Gives.{Gives};

use crate::column::Column;
use crate::fault::NameFault;
use crate::scalar::Scalar;
use crate::source::{Source, source_named};
use rt_algebra::Expr;
use rt_schema::ColKind;
use rt_value::Txt;
use std::alloc::Global;

/// A column in the row of all sources.
#[derive(Clone, Copy)]
pub struct Found {
    pub at: usize,
    pub kind: ColKind,
    pub bound: u128,
}

/// How many columns of a name were seen.
#[derive(Clone, Copy)]
pub enum Seen {
    Nobody,
    One(Found),
    Many,
}

/// The number after a place or a depth. No memory holds a row or a stack of scopes so long that
/// there is none.
pub(crate) fn after(at: usize) -> Result<usize, NameFault>
    ensures { Gives is_memory result (Ok (at + 1)) }
{
    match at.checked_add(1) {
        Some(next) => Ok(next),
        None => Err(NameFault::NoMemory),
    }
}

fn see(seen: Seen, at: usize, column: &Column) -> Seen
    ensures { result ≡ spec.see seen (spec.found at column.now) }
{
    match seen {
        Seen::Nobody => Seen::One(Found {
            at,
            kind: column.kind,
            bound: column.bound,
        }),
        _ => Seen::Many,
    }
}

fn seen_columns(
    name: &Txt,
    start: Seen,
    first: usize,
    columns: &[Column],
) -> Result<Seen, NameFault>
    ensures { Gives is_memory result (Ok (spec.seen_columns name.now start first columns.now)) }
{
    let mut seen = start;
    let mut at = first;
    for column in columns {
        if column.is_named(name) {
            seen = see(seen, at, column);
        }
        at = after(at)?;
    }
    Ok(seen)
}

fn seen_sources(name: &Txt, sources: &[Source]) -> Result<Seen, NameFault>
    ensures { Gives is_memory result (Ok (spec.seen_sources name.now seen_as.Nobody sources.now)) }
{
    let mut seen = Seen::Nobody;
    for source in sources {
        seen = seen_columns(name, seen, source.start, source.columns.as_slice())?;
    }
    Ok(seen)
}

fn column_of(up: usize, found: Found) -> Scalar
    ensures { result ≡ spec.column_of up found }
{
    Scalar {
        expr: Expr::Col(up, found.at),
        kind: Some(found.kind),
        bound: found.bound,
    }
}

/// The column that a name without a qualifier means, where the innermost scope is `up` rows
/// outward: that of the innermost scope that has one.
pub(crate) fn find_column(
    alloc: Global,
    up: usize,
    name: &Txt,
    scopes: &[&[Source]],
) -> Result<Scalar, NameFault>
    ensures { Gives is_memory result (spec.find_column up name.now (map (λ s. s.now) scopes.now)) }
{
    match scopes {
        [] => Err(NameFault::UnknownColumn(name.copy(alloc)?)),
        [own, outer @ ..] => match seen_sources(name, own)? {
            Seen::Nobody => find_column(alloc, after(up)?, name, outer),
            Seen::One(found) => Ok(column_of(up, found)),
            Seen::Many => Err(NameFault::Ambiguous(name.copy(alloc)?)),
        },
    }
}

fn column_in(alloc: Global, up: usize, name: &Txt, source: &Source) -> Result<Scalar, NameFault>
    ensures { Gives is_memory result (spec.meant up name.now
        (spec.seen_columns name.now seen_as.Nobody source.now.start source.now.columns)
        (Err (faults.UnknownColumn name.now))) }
{
    match seen_columns(name, Seen::Nobody, source.start, source.columns.as_slice())? {
        Seen::Nobody => Err(NameFault::UnknownColumn(name.copy(alloc)?)),
        Seen::One(found) => Ok(column_of(up, found)),
        Seen::Many => Err(NameFault::Ambiguous(name.copy(alloc)?)),
    }
}

/// The column that a qualified name means, where the innermost scope is `up` rows outward: that of
/// the innermost scope that has the source.
pub(crate) fn find_qualified(
    alloc: Global,
    up: usize,
    qualifier: &Txt,
    name: &Txt,
    scopes: &[&[Source]],
) -> Result<Scalar, NameFault>
    ensures { Gives is_memory result (spec.find_qualified up qualifier.now name.now (map (λ s. s.now) scopes.now)) }
{
    match scopes {
        [] => Err(NameFault::UnknownTable(qualifier.copy(alloc)?)),
        [own, outer @ ..] => match source_named(qualifier, own) {
            Some(source) => column_in(alloc, up, name, source),
            None => find_qualified(alloc, after(up)?, qualifier, name, outer),
        },
    }
}
