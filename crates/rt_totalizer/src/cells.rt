//! The cells of a range of rows. What they count is `IsRange`.

ghost use Rattle.std.specs.Prelude.{◌≡◌, ◌<◌, ◌++◌, ◌∷◌, [], ◌-◌, IfOk, length, replicate};
ghost use Rattle.rt_clause.specs.Literal.{Literal, negated};
ghost use Rattle.rt_totalizer.specs.Cells.{cell_at, first_cells};

use rt_clause::{Lit, LitList};
use rt_value::{List, NoMemory};
use std::alloc::Global;

/// For each number of rows up to a bound, from no row on, the literal that is true where at least so
/// many rows of the range are kept. At most `most` of them can be.
#[derive(Drop)]
pub(crate) struct Cells {
    pub(crate) list: LitList,
    pub(crate) most: usize,
}

impl Cells {
    /// The literal that at least k rows are kept.
    pub(crate) fn at(&self, k: usize) -> Lit
        requires { k < length self.now.list }
        ensures { result ≡ cell_at self.now.list k }
    {
        self.list.as_slice()[k]
    }

    /// The cells where no row can be kept.
    pub(crate) fn none(alloc: Global, upto: usize, never: Lit) -> Result<Cells, NoMemory>
        ensures list { IfOk result (λ cells. cells.list ≡ first_cells (negated never) upto) }
        ensures most { IfOk result (λ cells. cells.most ≡ 0) }
    {
        let list = followed(alloc, &[never.negated()], upto, never)?;
        Ok(Cells { list, most: 0 })
    }

    /// The cells of one row.
    pub(crate) fn one(alloc: Global, upto: usize, never: Lit, row: Lit) -> Result<Cells, NoMemory>
        requires { 0 < upto }
        ensures list { IfOk result (λ cells. cells.list ≡ negated never ∷ row ∷ replicate (upto - 1) never) }
        ensures most { IfOk result (λ cells. cells.most ≡ 1) }
    {
        let list = followed(alloc, &[never.negated(), row], upto - 1, never)?;
        Ok(Cells { list, most: 1 })
    }
}

// Some literals, and then `never` so many times.
fn followed(alloc: Global, front: &[Lit], count: usize, never: Lit) -> Result<LitList, NoMemory>
    ensures { IfOk result (λ list. list ≡ front.now ++ replicate count never) }
{
    let mut list = List::from_slice(alloc, front)?;
    for _ in 0..count {
        list.push(never)?;
    }
    Ok(list)
}
