//! Rows of a table or of an answer. Their order is the one in which answers are sorted.

ghost use Rattle.std.specs.Prelude.{◌≡◌, ◌++◌, ◌∷◌, [], IfOk, OnOk, OnErr, length};
ghost use Rattle.rt_value.specs.Row.{row_cmp, row_eq};
ghost use Rattle.std.specs.Cmp.{partial_order_from_own_ties};
ghost use Rattle.std.specs.Cmp.Rules.{comparing};
ghost use Rattle.std.specs.Ordering.{as_partial_cmp};
ghost use Rattle.std.proofs.Common.{rules};
ghost use Rattle.rt_value.specs.Order.{row_eq_equiv, row_cmp_total, row_ties};

use crate::list::List;
use crate::no_memory::NoMemory;
use crate::value::Value;
use std::alloc::Global;
use std::cmp::Ordering;
use std::marker::Model;

/// A row, which contracts see as the list of its values. Rows are ordered value by value, and a
/// prefix comes first.
#[derive(Debug)]
pub struct Row {
    cells: List<Value>,
}

impl Drop for Row {
    fn drop(self) {
        let Row { cells: _ } = self;
    }
}

impl Model for Row {
    ghost use Rattle.std.specs.Prelude.{List};
    ghost use Rattle.rt_value.specs.declared.value.Value.{Value as Cell};

    ghost Value = { List Cell };

    ghost view = { λ r. r.cells };
}

impl Row {
    /// The row without values, which takes no memory.
    pub fn new(alloc: Global) -> Row
        ensures { result ≡ [] }
    {
        Row {
            cells: List::new(alloc),
        }
    }

    /// The row of these values, without a copy.
    pub fn from_list(cells: List<Value>) -> Row
        ensures { result ≡ cells }
    {
        Row { cells }
    }

    /// Adds a value at the end, or changes nothing when out of memory.
    pub fn push(&mut self, cell: Value) -> Result<(), NoMemory>
        ensures ok { OnOk result (self.new ≡ self.old ++ cell ∷ []) }
        ensures err { OnErr result (self.new ≡ self.old) }
    {
        self.cells.push(cell)
    }

    pub fn as_slice(&self) -> &[Value]
        ensures { result.now ≡ self.now }
    {
        self.cells.as_slice()
    }

    /// The number of values.
    pub fn len(&self) -> usize
        ensures { result ≡ length self.now }
    {
        self.cells.len()
    }

    fn push_copies(&mut self, alloc: Global, cells: &[Value]) -> Result<(), NoMemory>
        ensures { OnOk result (self.new ≡ self.old ++ cells.now) }
    {
        for cell in cells {
            let cell = cell.copy(alloc)?;
            self.push(cell)?;
        }
        Ok(())
    }

    /// The same row in memory of its own; texts share their bytes.
    pub fn copy(&self, alloc: Global) -> Result<Row, NoMemory>
        ensures { IfOk result (λ r. r ≡ self.now) }
    {
        let mut out = Row::new(alloc);
        out.push_copies(alloc, self.as_slice())?;
        Ok(out)
    }

    /// The values of this row, then those of the other.
    pub fn join(&self, alloc: Global, other: &Row) -> Result<Row, NoMemory>
        ensures { IfOk result (λ r. r ≡ self.now ++ other.now) }
    {
        let mut out = self.copy(alloc)?;
        out.push_copies(alloc, other.as_slice())?;
        Ok(out)
    }
}

impl PartialEq for Row {
    ghost eq = { row_eq };

    ghost laws = { Prim.search (comparing, rules, row_eq_equiv) };

    fn eq(&self, other: &Row) -> bool {
        self.as_slice() == other.as_slice()
    }
}

impl Eq for Row {
    ghost laws = { Prim.search (comparing, rules, row_eq_equiv) };
}

impl Ord for Row {
    ghost cmp = { row_cmp };

    ghost total = { row_cmp_total };

    ghost matches_partial_cmp = { Prim.search (comparing, rules) };

    ghost matches_eq = { row_ties };

    fn cmp(&self, other: &Row) -> Ordering {
        self.as_slice().cmp(&other.as_slice())
    }
}

impl PartialOrd for Row {
    ghost partial_cmp = { as_partial_cmp row_cmp };

    ghost laws = { partial_order_from_own_ties (Prim.search (comparing, rules, row_cmp_total)) row_ties };

    fn partial_cmp(&self, other: &Row) -> Option<Ordering> {
        Some(self.cmp(other))
    }
}
