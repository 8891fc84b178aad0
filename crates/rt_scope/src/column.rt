//! A column of a query in SQL, which may have no name.

ghost use Rattle.std.specs.Prelude.{◌≡◌, IfOk};
ghost use Rattle.rt_scope.specs.Lookup.{is_named};

use rt_algebra::Column as AnyColumn;
use rt_schema::ColKind;
use rt_value::{NoMemory, Txt};
use std::alloc::Global;

/// A column of a query. No whole number in it is larger in size than its bound. A computed column
/// has no name.
#[derive(Drop)]
pub struct Column {
    pub name: Option<Txt>,
    pub kind: ColKind,
    pub bound: u128,
}

impl Column {
    pub fn is_named(&self, name: &Txt) -> bool
        ensures { result ≡ is_named name.now self.now }
    {
        match &self.name {
            Some(own) => own == name,
            None => false,
        }
    }

    pub fn copy(&self, alloc: Global) -> Result<Column, NoMemory>
        ensures { IfOk result (λ c. c ≡ self.now) }
    {
        Ok(Column {
            name: self.name(alloc)?,
            kind: self.kind,
            bound: self.bound,
        })
    }
}

impl AnyColumn for Column {
    ghost use Rattle.rt_scope.specs.Columns.{bounded, called};

    ghost kind_of = { λ c. c.kind };

    ghost bound_of = { λ c. c.bound };

    ghost name_of = { λ c. c.name };

    ghost bounded = { bounded };

    ghost named = { called };

    fn kind(&self) -> ColKind {
        self.kind
    }

    fn bound(&self) -> u128 {
        self.bound
    }

    fn name(&self, alloc: Global) -> Result<Option<Txt>, NoMemory> {
        match &self.name {
            Some(name) => Ok(Some(name.copy(alloc)?)),
            None => Ok(None),
        }
    }

    fn with_bound(&self, alloc: Global, bound: u128) -> Result<Column, NoMemory> {
        let mut column = self.copy(alloc)?;
        column.bound = bound;
        Ok(column)
    }

    fn new(name: Txt, kind: ColKind, bound: u128) -> Column {
        let name = Some(name);
        Column { name, kind, bound }
    }
}
