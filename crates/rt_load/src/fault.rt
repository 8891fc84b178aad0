//! The errors of loading a table's file.

use rt_value::NoMemory;

/// Why a table's file was refused. Records are counted from 1, the header being 1, and the fields
/// of a record from 1.
#[derive(Clone, Copy, PartialEq, Eq, Debug)]
pub enum LoadFault {
    /// The file has no record, or the first doesn't name the columns in order.
    BadHeader,
    /// This record has another number of fields than the table has columns.
    FieldCount(usize),
    /// At this record the tables together have as many rows as they may.
    TooManyRows,
    /// In this record, this field of an INTEGER column is no whole number of 64 bits.
    BadInteger(usize, usize),
    /// In this record, this field of a TEXT column isn't UTF-8.
    BadText(usize, usize),
    NoMemory,
}

impl From<NoMemory> for LoadFault {
    ghost use Rattle.std.specs.Prelude.{◌≡◌};
    ghost use Rattle.rt_load.specs.declared.fault.LoadFault.TheVariants.{NoMemory};

    ghost from_gives = { λ _ e. e ≡ NoMemory };

    fn from(_e: NoMemory) -> LoadFault {
        LoadFault::NoMemory
    }
}
