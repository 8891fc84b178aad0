//! Columns by their names: places, tests and lists. A name is searched from the left, column by
//! column.

ghost use Rattle.std.specs.Prelude.{◌≡◌, ◌+◌, ◌++◌, [], IfOk, option_map, slice_get};
ghost use Rattle.rt_relation.specs.Columns as spec;
ghost use Rattle.rt_ra_tree.specs.Refusals.{is_memory};
ghost use Rattle.rt_value.specs.Gives.{Gives};

use crate::column::Column;
use rt_ra_tree::RaFault;
use rt_value::{List, NoMemory, Txt};
use std::alloc::Global;

/// The number after a place. No memory holds a row so long that there is none.
pub fn next(at: usize) -> Result<usize, NoMemory>
    ensures { IfOk result (λ n. n ≡ at + 1) }
{
    match at.checked_add(1) {
        Some(next) => Ok(next),
        None => Err(NoMemory),
    }
}

/// The place of the name, from 0, or the number of columns where there is none.
pub fn place_of(name: &Txt, columns: &[Column]) -> usize
    ensures { result ≡ spec.place name.now (spec.names columns.now) }
{
    let mut at = 0_usize;
    for column in columns {
        if column.name == *name {
            return at;
        }
        at += 1;
    }
    at
}

/// Whether a column has the name.
#[tactic(auto, using(crate::proofs::More::names_length))]
pub(crate) fn has(name: &Txt, columns: &[Column]) -> bool
    ensures { result ≡ spec.has name.now (spec.names columns.now) }
{
    place_of(name, columns) < columns.len()
}

/// The column of this name.
pub fn column_at(alloc: Global, name: &Txt, columns: &[Column]) -> Result<Column, RaFault>
    ensures { Gives is_memory result (spec.column_at name.now columns.now) }
{
    match columns.get(place_of(name, columns)) {
        Some(column) => Ok(column.copy(alloc)?),
        None => Err(RaFault::UnknownColumn(name.copy(alloc)?)),
    }
}

// Whether the name is one of these.
fn is_among(name: &Txt, names: &[Txt]) -> bool
    ensures { result ≡ spec.among name.now names.now }
{
    for other in names {
        if *other == *name {
            return true;
        }
    }
    false
}

/// The first name that is among those before it.
pub(crate) fn twice(names: &[Txt]) -> Option<&Txt>
    ensures { option_map (λ n. n.now) result ≡ spec.twice names.now 0 names.now }
{
    let mut at = 0_usize;
    for name in names {
        if is_among(name, &names[..at]) {
            return Some(name);
        }
        at += 1;
    }
    None
}

// The first of the columns that the others have.
fn shared<'c>(columns: &'c [Column], others: &[Column]) -> Option<&'c Txt>
    ensures { option_map (λ n. n.now) result ≡ spec.shared columns.now others.now }
{
    for column in columns {
        if has(&column.name, others) {
            return Some(&column.name);
        }
    }
    None
}

// The first of the columns that the others lack.
fn lacked<'c>(columns: &'c [Column], others: &[Column]) -> Option<&'c Txt>
    ensures { option_map (λ n. n.now) result ≡ spec.lacked columns.now others.now }
{
    for column in columns {
        if !has(&column.name, others) {
            return Some(&column.name);
        }
    }
    None
}

// Whether the others' column of the same name, if they have one, is of the same kind.
fn fits(column: &Column, others: &[Column]) -> bool
    ensures { result ≡ spec.fits column.now (slice_get others.now (spec.place column.now.name (spec.names others.now))) }
{
    match others.get(place_of(&column.name, others)) {
        Some(other) => column.kind == other.kind,
        None => true,
    }
}

/// Whether columns of one name are of one kind.
pub(crate) fn common_fit(columns: &[Column], others: &[Column]) -> bool
    ensures { result ≡ spec.common_fit columns.now others.now }
{
    for column in columns {
        if !fits(column, others) {
            return false;
        }
    }
    true
}

/// The columns that the others have not.
pub(crate) fn further(
    alloc: Global,
    columns: &[Column],
    others: &[Column],
) -> Result<List<Column>, NoMemory>
    ensures { IfOk result (λ all. all ≡ spec.further_columns columns.now others.now) }
{
    let mut all = List::new(alloc);
    for column in columns {
        if !has(&column.name, others) {
            all.push(column.copy(alloc)?)?;
        }
    }
    Ok(all)
}

/// The columns of these names.
pub fn picked(alloc: Global, names: &[Txt], columns: &[Column]) -> Result<List<Column>, RaFault>
    ensures { Gives is_memory result (spec.picked [] names.now columns.now) }
{
    let mut all = List::new(alloc);
    for name in names {
        all.push(column_at(alloc, name, columns)?)?;
    }
    Ok(all)
}

/// The same columns.
pub fn copied(alloc: Global, columns: &[Column]) -> Result<List<Column>, NoMemory>
    ensures { IfOk result (λ all. all ≡ columns.now) }
{
    let mut all = List::new(alloc);
    for column in columns {
        all.push(column.copy(alloc)?)?;
    }
    Ok(all)
}

/// The columns of both.
pub fn concatenated(
    alloc: Global,
    columns: &[Column],
    others: &[Column],
) -> Result<List<Column>, NoMemory>
    ensures { IfOk result (λ all. all ≡ columns.now ++ others.now) }
{
    let mut all = copied(alloc, columns)?;
    for other in others {
        all.push(other.copy(alloc)?)?;
    }
    Ok(all)
}

/// The columns, and those of the others that they have not.
pub fn with_further(
    alloc: Global,
    columns: &[Column],
    others: &[Column],
) -> Result<List<Column>, NoMemory>
    ensures { IfOk result (λ all. all ≡ columns.now ++ spec.further_columns others.now columns.now) }
{
    let more = further(alloc, others, columns)?;
    concatenated(alloc, columns, more.as_slice())
}

/// The first of the columns that the others have.
pub fn shared_name(
    alloc: Global,
    columns: &[Column],
    others: &[Column],
) -> Result<Option<Txt>, NoMemory>
    ensures { IfOk result (λ name. name ≡ spec.shared columns.now others.now) }
{
    match shared(columns, others) {
        Some(name) => Ok(Some(name.copy(alloc)?)),
        None => Ok(None),
    }
}

/// The first of the columns that the others lack.
pub(crate) fn lacked_name(
    alloc: Global,
    columns: &[Column],
    others: &[Column],
) -> Result<Option<Txt>, NoMemory>
    ensures { IfOk result (λ name. name ≡ spec.lacked columns.now others.now) }
{
    match lacked(columns, others) {
        Some(name) => Ok(Some(name.copy(alloc)?)),
        None => Ok(None),
    }
}
