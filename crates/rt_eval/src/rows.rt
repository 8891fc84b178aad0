//! Sets of rows: sorted, so two sets are compared row by row and a row is found by halving.

ghost use Rattle.std.specs.Prelude.{◌≡◌, List, IfOk};
ghost use Rattle.std.specs.List.Sorted.{IsStrictlySortedBy};
ghost use Rattle.rt_value.specs.declared.value.Value.{Value};
ghost use Rattle.rt_value.specs.Row.{row_cmp};
ghost use Rattle.rt_algebra.specs.Answer.{has_row, same_rows};
ghost use Rattle.rt_eval.specs.Distinct.{distinct};

use rt_value::{List, NoMemory, Row};
use std::marker::Model;

/// A set of rows: distinct rows in their order.
#[derive(Debug, Drop)]
pub struct Rows {
    rows: Vec<Row>,
}

impl Model for Rows {
    ghost use Rattle.std.specs.Prelude.{List};
    ghost use Rattle.std.specs.List.Sorted.{IsStrictlySortedBy};
    ghost use Rattle.rt_value.specs.declared.value.Value.{Value as Cell};
    ghost use Rattle.rt_value.specs.Row.{row_cmp};

    ghost Value = { List (List Cell) };

    ghost view = { λ r. r.rows.items };

    ghost invariant = { λ r. IsStrictlySortedBy row_cmp r.rows.items };
}

impl Rows {
    /// The set of the rows of a list.
    pub fn of(rows: List<Row>) -> Result<Rows, NoMemory>
        ensures listed { IfOk result (λ r. r ≡ distinct rows) }
        ensures members { IfOk result (λ r. (x : List Value) → has_row r x ≡ has_row rows x) }
    {
        let mut items = rows.into_vec();
        items.dedup();
        items.sort()?;
        items.dedup();
        Ok(Rows { rows: items })
    }

    /// The rows in their order, each once.
    pub fn as_slice(&self) -> &[Row]
        ensures rows { result.now ≡ self.now }
        ensures sorted { IsStrictlySortedBy row_cmp self.now }
    {
        self.rows.as_slice()
    }

    /// Whether the row is in the set.
    pub fn has(&self, row: &Row) -> bool
        ensures { result ≡ has_row self.now row.now }
    {
        self.as_slice().binary_search(row).is_ok()
    }

    /// Whether two sets have the same rows; so also whether the lists do that they come from.
    pub fn same(&self, other: &Rows) -> bool
        ensures sets { result ≡ same_rows self.now other.now }
        ensures lists { (xs ys : List (List Value)) → self.now ≡ distinct xs → other.now ≡ distinct ys → result ≡ same_rows xs ys }
    {
        self.as_slice() == other.as_slice()
    }
}
