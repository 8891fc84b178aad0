//! A column of a query in relational algebra, which always has a name.

ghost use Rattle.std.specs.Prelude.{◌≡◌, IfOk};

use rt_algebra::Column as AnyColumn;
use rt_schema::ColKind;
use rt_value::{NoMemory, Txt};
use std::alloc::Global;

/// A column of a query. No whole number in it is larger in size than its bound.
#[derive(Drop)]
pub struct Column {
    pub name: Txt,
    pub kind: ColKind,
    pub bound: u128,
}

impl Column {
    pub fn copy(&self, alloc: Global) -> Result<Column, NoMemory>
        ensures { IfOk result (λ c. c ≡ self.now) }
    {
        self.with_bound(alloc, self.bound)
    }
}

impl AnyColumn for Column {
    ghost use Rattle.std.specs.Prelude.{Some};
    ghost use Rattle.rt_relation.specs.Columns.{bounded, called};

    ghost kind_of = { λ c. c.kind };

    ghost bound_of = { λ c. c.bound };

    ghost name_of = { λ c. Some c.name };

    ghost bounded = { bounded };

    ghost named = { called };

    fn kind(&self) -> ColKind {
        self.kind
    }

    fn bound(&self) -> u128 {
        self.bound
    }

    fn name(&self, alloc: Global) -> Result<Option<Txt>, NoMemory> {
        Ok(Some(self.name.copy(alloc)?))
    }

    fn with_bound(&self, alloc: Global, bound: u128) -> Result<Column, NoMemory> {
        Ok(Column {
            name: self.name.copy(alloc)?,
            kind: self.kind,
            bound,
        })
    }

    fn new(name: Txt, kind: ColKind, bound: u128) -> Column {
        Column { name, kind, bound }
    }
}
