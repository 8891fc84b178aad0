//! Which rows of a member match the rows before it: an equi-join by an index. Another way to find
//! the same places in the same order changes no proof of a crate above.

ghost use Rattle.std.specs.Prelude.{◌≡◌, List, map, cond, [], slice_index_or, IfOk};
ghost use Rattle.rt_value.specs.declared.value.Value.{Value};
ghost use Rattle.rt_value.specs.declared.value.Value.TheVariants as v;
ghost use Rattle.rt_value.specs.Row.{row_eq};
ghost use Rattle.rt_split.specs.Index.{places_at};
ghost use Rattle.rt_split.specs.Join.{matches, places_where, own_key, before_key, has_null};

use crate::index::Index;
use crate::parts::KeyPair;
use rt_schema::is_null;
use rt_value::{List, NoMemory, Row, Value};
use std::alloc::Global;

/// For each of the rows before a member the places, from 0, of the member's rows that match it by
/// the keys; NULL matches nothing. This takes about n log n steps for n rows, and one for each
/// place that it gives.
pub fn matches(
    alloc: Global,
    keys: &[KeyPair],
    befores: &[&Row],
    rows: &[&Row],
) -> Result<List<List<usize>>, NoMemory>
    ensures { IfOk result (λ out. out ≡ matches keys.now (map (λ r. r.now) befores.now) (map (λ r. r.now) rows.now)) }
{
    let index = index(alloc, keys, rows)?;
    let out = found_for(alloc, &index, keys, befores);
    drop(index);
    out
}

// The places of the rows that match each of the rows before a member.
fn found_for(
    alloc: Global,
    index: &Index,
    keys: &[KeyPair],
    befores: &[&Row],
) -> Result<List<List<usize>>, NoMemory>
    ensures { IfOk result (λ out. out ≡ map (λ b. cond (has_null (before_key keys.now b.now)) [] (places_at index.now (before_key keys.now b.now))) befores.now) }
{
    let mut out = List::new(alloc);
    for before in befores {
        let places = found(alloc, index, keys, before)?;
        out.push(places)?;
    }
    Ok(out)
}

// The places of the rows by their keys.
fn index(alloc: Global, keys: &[KeyPair], rows: &[&Row]) -> Result<Index, NoMemory>
    ensures { IfOk result (λ i. (key : List Value) → places_at i key ≡ places_where (λ row. row_eq key (own_key keys.now row)) 0 (map (λ r. r.now) rows.now)) }
{
    let mut index = Index::new(alloc);
    for (at, row) in rows.iter().enumerate() {
        let key = own_key(alloc, keys, row)?;
        index.put(key, at)?;
    }
    Ok(index)
}

// The places of the rows with the key of `before`; NULL is equal to nothing.
fn found(
    alloc: Global,
    index: &Index,
    keys: &[KeyPair],
    before: &Row,
) -> Result<List<usize>, NoMemory>
    ensures { IfOk result (λ ps. ps ≡ cond (has_null (before_key keys.now before.now)) [] (places_at index.now (before_key keys.now before.now))) }
{
    let key = before_key(alloc, keys, before)?;
    if has_null(&key) {
        return Ok(List::new(alloc));
    }
    List::from_slice(alloc, index.get(&key))
}

fn has_null(key: &Row) -> bool
    ensures { result ≡ has_null key.now }
{
    key.as_slice().iter().any(|value| is_null(value))
}

fn own_key(alloc: Global, keys: &[KeyPair], row: &Row) -> Result<Row, NoMemory>
    ensures { IfOk result (λ key. key ≡ own_key keys.now row.now) }
{
    let mut out = Row::new(alloc);
    for key in keys {
        out.push(cell(alloc, row, key.own)?)?;
    }
    Ok(out)
}

fn before_key(alloc: Global, keys: &[KeyPair], before: &Row) -> Result<Row, NoMemory>
    ensures { IfOk result (λ key. key ≡ before_key keys.now before.now) }
{
    let mut out = Row::new(alloc);
    for key in keys {
        out.push(cell(alloc, before, key.before)?)?;
    }
    Ok(out)
}

fn cell(alloc: Global, row: &Row, at: usize) -> Result<Value, NoMemory>
    ensures { IfOk result (λ x. x ≡ slice_index_or row.now at v.Null) }
{
    match row.as_slice().get(at) {
        None => Ok(Value::Null),
        Some(value) => value.copy(alloc),
    }
}
