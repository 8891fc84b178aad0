//! The error of reading a command line.

use rt_value::NoMemory;

/// Why no command was read.
#[derive(Clone, Copy, PartialEq, Eq, Debug)]
pub enum WordFault {
    /// The arguments aren't those of a command.
    Usage,
    NoMemory,
}

impl From<NoMemory> for WordFault {
    ghost use Rattle.std.specs.Prelude.{◌≡◌};
    ghost use Rattle.rt_io.specs.declared.word_fault.WordFault.TheVariants.{NoMemory};

    ghost from_gives = { λ _ e. e ≡ NoMemory };

    fn from(_e: NoMemory) -> WordFault {
        WordFault::NoMemory
    }
}
