//! The errors of a list of paths.

use rt_value::NoMemory;

/// Why a text is no list of paths.
#[derive(Clone, Copy, PartialEq, Eq, Debug)]
pub enum PathsFault {
    /// It isn't UTF-8; its longest prefix that is has this many bytes.
    NotUtf8(usize),
    /// It has more paths than a list may have.
    TooMany,
    NoMemory,
}

impl From<NoMemory> for PathsFault {
    ghost use Rattle.std.specs.Prelude.{◌≡◌};
    ghost use Rattle.rt_grade.specs.declared.paths_fault.PathsFault.TheVariants.{NoMemory};

    ghost from_gives = { λ _ e. e ≡ NoMemory };

    fn from(_e: NoMemory) -> PathsFault {
        PathsFault::NoMemory
    }
}
