//! The errors of names and kinds. Which comes first is said by the walk in `rt_resolve`.

ghost use Rattle.std.specs.Prelude.{◌≡◌};
ghost use Rattle.rt_scope.specs.declared.fault.NameFault.TheVariants as faults;

use rt_value::{NoMemory, Txt};

/// Why a query has no meaning over a schema. The text is the name as the query has it.
#[derive(PartialEq, Eq, Debug, Drop)]
pub enum NameFault {
    UnknownTable(Txt),
    UnknownColumn(Txt),
    Ambiguous(Txt),
    DuplicateAlias(Txt),
    /// A text in arithmetic, operands of different kinds, or a select item without a kind.
    TypeMismatch,
    /// Operands of a set operator that have not the same number of columns, or a query of IN that
    /// has not just one.
    Columns,
    /// A step of arithmetic whose bound passes 2^127 - 1.
    ArithWidth,
    NoMemory,
}

impl From<NoMemory> for NameFault {
    ghost from_gives = { λ _ fault. fault ≡ faults.NoMemory };

    fn from(_e: NoMemory) -> NameFault {
        NameFault::NoMemory
    }
}
