//! The verdict on what is asked: that of `ratest` on the queries that the two texts become.

ghost use Rattle.std.specs.Prelude.{◌≡◌, IfOk, None};
ghost use Rattle.rt_ra_run.specs.Answers.{Judged};
ghost use Rattle.rt_ra_run.specs.Asked.{IsAsked, IsMeant};

use crate::asked::Asked;
use crate::outcome::RaOutcome;
use rt_top::verdict;
use rt_value::{Bytes, NoMemory};
use std::alloc::Global;

/// An outcome and its text.
#[derive(Drop)]
pub(crate) struct RaAnswer {
    pub(crate) outcome: RaOutcome,
    pub(crate) text: Bytes,
}

/// The verdict on two texts: that they agree, a smallest counterexample, or that the budget is
/// spent.
pub(crate) fn judge(alloc: Global, asked: &Asked) -> Result<RaAnswer, NoMemory>
    requires sound { IsAsked asked.now }
    requires means { IsMeant asked.now }
    requires files { asked.now.input.made ≡ None }
    ensures { IfOk result (λ a. Judged asked.now a.outcome a.text) }
{
    match verdict(alloc, &asked.input) {
        Ok(answer) => Ok(RaAnswer {
            outcome: RaOutcome::Verdict(answer.outcome),
            text: answer.text,
        }),
        Err(NoMemory) => Err(NoMemory),
    }
}
