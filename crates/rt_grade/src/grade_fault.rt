//! Why a call that grades has no grades.

use rt_input::Outcome;
use rt_value::{NoMemory, Txt};

/// Why there are no grades.
#[derive(Drop)]
pub enum GradeFault {
    /// The list isn't UTF-8; its longest prefix that is has this many bytes.
    BadList(usize),
    /// The list has too many paths.
    TooManyPaths,
    /// The list has too many bytes.
    ListLong,
    /// The file of this name, the list or a candidate, could not be read.
    FileRead(Txt),
    /// The arguments are no command, or what comes before the list is refused.
    Verdict(Outcome),
}

impl From<Outcome> for GradeFault {
    ghost use Rattle.std.specs.Prelude.{◌≡◌};
    ghost use Rattle.rt_grade.specs.declared.grade_fault.GradeFault.TheVariants.{Verdict};

    ghost from_gives = { λ outcome fault. fault ≡ Verdict outcome };

    fn from(outcome: Outcome) -> GradeFault {
        GradeFault::Verdict(outcome)
    }
}

impl From<NoMemory> for GradeFault {
    ghost use Rattle.std.specs.Prelude.{◌≡◌};
    ghost use Rattle.rt_input.specs.declared.outcome.Outcome.TheVariants.{NoMemory};
    ghost use Rattle.rt_grade.specs.declared.grade_fault.GradeFault.TheVariants.{Verdict};

    ghost from_gives = { λ _ fault. fault ≡ Verdict NoMemory };

    fn from(_e: NoMemory) -> GradeFault {
        GradeFault::Verdict(Outcome::NoMemory)
    }
}
