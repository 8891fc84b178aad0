//! A join that is worked out and not yet written out: which rows match, without joined copies.

ghost use Rattle.std.specs.Prelude.{◌≡◌, ◌++◌, [], drop, length, map, slice_get, IfOk};
ghost use Rattle.std.specs.List.{cons_option, filter_map};
ghost use Rattle.rt_algebra.specs.Answer.{join_each};
ghost use Rattle.rt_split.specs.Join.{matched, matches};
ghost use Rattle.rt_split.specs.Split.{first};
ghost use Rattle.rt_eval.specs.Pairs.{first_joined, all_joined};

use rt_split::{KeyPair, matches};
use rt_value::{List, NoMemory, Row, Value};
use std::alloc::Global;

/// Rows that are not joined yet: for each of the rows before a member the places of the member's
/// rows that follow it. By the first column `befores` (1), (2) and `rows` (1, 'a'), (2, 'b'),
/// (1, 'c') have `places` [0, 2], [1]; joined they are (1, 1, 'a'), (1, 1, 'c'), (2, 2, 'b').
#[derive(Drop)]
pub struct Pairs {
    pub befores: List<Row>,
    pub rows: List<Row>,
    pub places: List<List<usize>>,
}

impl Pairs {
    /// Each of the rows before a member with each of the member's rows that matches it by the keys.
    pub fn matched(
        alloc: Global,
        keys: &[KeyPair],
        befores: List<Row>,
        rows: List<Row>,
    ) -> Result<Pairs, NoMemory>
        ensures { IfOk result (λ p. all_joined p.befores p.rows p.places ≡ matched keys.now befores rows) }
    {
        let places = places(alloc, keys, befores.as_slice(), rows.as_slice())?;
        Ok(Pairs {
            befores,
            rows,
            places,
        })
    }

    /// How many rows there are before the member.
    pub fn len(&self) -> usize
        ensures { result ≡ length self.now.befores }
    {
        self.befores.len()
    }

    /// All of the rows, joined.
    pub fn joined(&self, alloc: Global) -> Result<List<Row>, NoMemory>
        ensures { IfOk result (λ out. out ≡ all_joined self.now.befores self.now.rows self.now.places) }
    {
        let mut out = List::new(alloc);
        for at in 0..self.len() {
            out = self.joined_at(alloc, out, at)?;
        }
        Ok(out)
    }

    /// `out`, and row `at` of those before the member joined with each row that follows it.
    pub fn joined_at(&self, alloc: Global, out: List<Row>, at: usize) -> Result<List<Row>, NoMemory>
        ensures { IfOk result (λ o. o ≡ out ++ first_joined (drop at self.now.befores) self.now.rows (drop at self.now.places)) }
    {
        match self.befores.as_slice().get(at) {
            Some(before) => {
                picked_each(alloc, out, before, self.rows.as_slice(), self.places_of(at))
            }
            None => Ok(out),
        }
    }

    fn places_of(&self, at: usize) -> &[usize]
        ensures { result.now ≡ first (drop at self.now.places) }
    {
        match self.places.as_slice().get(at) {
            Some(places) => places.as_slice(),
            None => &[],
        }
    }
}

// For each of the rows before a member the places of the member's rows that match it by the keys.
fn places(
    alloc: Global,
    keys: &[KeyPair],
    befores: &[Row],
    rows: &[Row],
) -> Result<List<List<usize>>, NoMemory>
    ensures { IfOk result (λ out. out ≡ matches keys.now befores.now rows.now) }
{
    let firsts = borrowed(alloc, befores)?;
    let seconds = borrowed(alloc, rows)?;
    let places = matches(alloc, keys, firsts.as_slice(), seconds.as_slice())?;
    Ok(places)
}

fn borrowed<'a>(alloc: Global, rows: &'a [Row]) -> Result<List<&'a Row>, NoMemory>
    ensures { IfOk result (λ out. map (λ r. r.now) out ≡ rows.now) }
{
    let mut out = List::new(alloc);
    for row in rows {
        out.push(row)?;
    }
    Ok(out)
}

// `out`, and the row before each of the rows at the places.
fn picked_each(
    alloc: Global,
    out: List<Row>,
    before: &Row,
    rows: &[Row],
    places: &[usize],
) -> Result<List<Row>, NoMemory>
    ensures { IfOk result (λ o. o ≡ out ++ join_each before.now (filter_map (slice_get rows.now) places.now)) }
{
    let mut out = out;
    for place in places {
        out = with_picked(alloc, out, before, rows, *place)?;
    }
    Ok(out)
}

// `out`, and the row before the one at the place, where there is one.
fn with_picked(
    alloc: Global,
    out: List<Row>,
    before: &Row,
    rows: &[Row],
    place: usize,
) -> Result<List<Row>, NoMemory>
    ensures { IfOk result (λ o. o ≡ out ++ join_each before.now (cons_option (slice_get rows.now place) [])) }
{
    let mut out = out;
    match rows.get(place) {
        Some(row) => {
            out.push(joined_row(alloc, before, row)?)?;
            Ok(out)
        }
        None => Ok(out),
    }
}

// The values of one row, then those of the other, in memory taken at once.
fn joined_row(alloc: Global, before: &Row, row: &Row) -> Result<Row, NoMemory>
    ensures { IfOk result (λ r. r ≡ before.now ++ row.now) }
{
    let room = Vec::with_capacity(alloc, before.len().saturating_add(row.len()))?;
    let out = with_cells(
        alloc,
        Row::from_list(List::from_vec(room)),
        before.as_slice(),
    )?;
    with_cells(alloc, out, row.as_slice())
}

fn with_cells(alloc: Global, out: Row, cells: &[Value]) -> Result<Row, NoMemory>
    ensures { IfOk result (λ r. r ≡ out ++ cells.now) }
{
    let mut out = out;
    for cell in cells {
        out.push(cell.copy(alloc)?)?;
    }
    Ok(out)
}
