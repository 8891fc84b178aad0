//! The grade of one candidate.

ghost use Rattle.std.specs.Prelude.{◌≡◌, IfOk, IfSome};

use rt_input::{Fault, Part, Spent};
use rt_value::{Keep, NoMemory};
use std::alloc::Global;

/// What a run of `ratest` on the reference and the candidate alone ends with.
#[derive(Drop)]
pub enum Grade {
    /// They agree on every lawful sub-instance.
    Agree,
    /// The first of the smallest counterexamples.
    Witness(Keep),
    /// The budget of conflicts is spent.
    Undecided(Spent),
    /// The candidate is no query over the schema, or has other columns than the reference.
    Refused(Part, Fault),
    /// Both together take this much work, which is above the limit.
    Work(u128),
    /// Its file has too many bytes.
    TooLong,
}

impl Grade {
    /// A copy of the grade. None for a grade that is long or soon found again: undecided,
    /// refused, or too long.
    pub fn again(&self, alloc: Global) -> Result<Option<Grade>, NoMemory>
        ensures { IfOk result (λ copy. IfSome copy (λ grade. grade ≡ self.now)) }
    {
        match self {
            Grade::Agree => Ok(Some(Grade::Agree)),
            Grade::Witness(keep) => Ok(Some(Grade::Witness(keep.copy(alloc)?))),
            Grade::Work(work) => Ok(Some(Grade::Work(*work))),
            Grade::Undecided(_) | Grade::Refused(_, _) | Grade::TooLong => Ok(None),
        }
    }
}
