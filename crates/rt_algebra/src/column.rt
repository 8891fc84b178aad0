//! What the columns of a query in SQL and of one in relational algebra have in common. What is made
//! of columns is written once, over this trait.

ghost use Rattle.std.specs.Prelude.{◌≡◌, ℕ, List, Option, IfOk};
ghost use Rattle.rt_schema.specs.declared.table.ColKind.{ColKind};

use rt_schema::ColKind;
use rt_value::{NoMemory, Txt};
use std::alloc::Global;

/// A column of a query that is being made. No whole number in it is larger in size than its bound.
pub trait Column: Drop {
    ghost kind_of: { Self → ColKind };

    ghost bound_of: { Self → ℕ };

    /// Its name, where it has one.
    ghost name_of: { Self → Option (List ℕ) };

    /// The column with another bound.
    ghost bounded: { ℕ → Self → Self };

    /// The column of this name, kind and bound.
    ghost named: { List ℕ → ColKind → ℕ → Self };

    fn kind(&self) -> ColKind
        ensures { result ≡ kind_of self.now };

    fn bound(&self) -> u128
        ensures { result ≡ bound_of self.now };

    fn name(&self, alloc: Global) -> Result<Option<Txt>, NoMemory>
        ensures { IfOk result (λ name. name ≡ name_of self.now) };

    fn with_bound(&self, alloc: Global, bound: u128) -> Result<Self, NoMemory>
        ensures { IfOk result (λ c. c ≡ bounded bound self.now) };

    fn new(name: Txt, kind: ColKind, bound: u128) -> Self
        ensures { result ≡ named name kind bound };
}
