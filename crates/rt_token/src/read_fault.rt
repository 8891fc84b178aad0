//! The error of every reader of terminals.

ghost use Rattle.std.specs.Prelude.{◌≡◌};
ghost use Rattle.rt_token.specs.declared.read_fault.ReadFault.TheVariants as faults;

use rt_value::NoMemory;

/// Why terminals aren't read.
#[derive(Clone, Copy, PartialEq, Eq, Debug)]
pub enum ReadFault {
    /// They aren't of the grammar. The number is how many were left where this was seen.
    Syntax(usize),
    NoMemory,
}

impl From<NoMemory> for ReadFault {
    ghost from_gives = { λ _ fault. fault ≡ faults.NoMemory };

    fn from(_e: NoMemory) -> ReadFault {
        ReadFault::NoMemory
    }
}
