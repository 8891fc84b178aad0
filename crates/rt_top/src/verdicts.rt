//! Verdicts on an input, and their texts.

ghost use Rattle.std.specs.Prelude.{◌≡◌, IfOk, Some};
ghost use Rattle.rt_top.specs.Answers.{Judges};
ghost use Rattle.rt_top.specs.Smallest.{Agrees, IsSmallest};
ghost use Rattle.rt_top.specs.GivenUp.{IsGivenUp};
ghost use Rattle.rt_top.specs.Texts.{agree_of, witness_of};

use crate::budget::{GivenUp, given_up};
use crate::decision::decide;
use rt_eval::answers;
use rt_input::{Input, Outcome};
use rt_print::{MadeVerdict, made_text, witness_text};
use rt_search::{Best, SpentBest};
use rt_value::{Bytes, Keep, List, NoMemory};
use std::alloc::Global;

/// An outcome and the text that is printed for it.
#[derive(Drop)]
pub struct Answer {
    pub outcome: Outcome,
    pub text: Bytes,
}

fn agree_of(alloc: Global, input: &Input) -> Result<Bytes, NoMemory>
    ensures { IfOk result (λ text. text ≡ agree_of input.now) }
{
    match input.made() {
        Some(n) => made_text(alloc, n, MadeVerdict::Agree),
        None => List::from_slice(alloc, b"agree\n"),
    }
}

// The text of a smallest counterexample.
fn witness_of(alloc: Global, input: &Input, keep: &Keep) -> Result<Bytes, NoMemory>
    requires { IsSmallest input.now keep.now }
    ensures { IfOk result (λ text. text ≡ witness_of input.now keep.now) }
{
    let schema = input.schema();
    if let Some(n) = input.made() {
        return made_text(alloc, n, MadeVerdict::Size(keep.size()));
    }
    let left = answers(alloc, input.left(), input.given(), keep)?;
    let right = answers(alloc, input.right(), input.given(), keep)?;
    witness_text(
        alloc,
        schema,
        input.given(),
        keep,
        left.as_slice(),
        right.as_slice(),
    )
}

fn agreement(alloc: Global, input: &Input) -> Result<Answer, NoMemory>
    requires { Agrees input.now }
    ensures { IfOk result (λ a. Judges input.now a.outcome a.text) }
{
    let text = agree_of(alloc, input)?;
    let outcome = Outcome::Agree;
    Ok(Answer { outcome, text })
}

fn witness(alloc: Global, input: &Input, keep: Keep) -> Result<Answer, NoMemory>
    requires { IsSmallest input.now keep }
    ensures { IfOk result (λ a. Judges input.now a.outcome a.text) }
{
    let text = witness_of(alloc, input, &keep)?;
    let outcome = Outcome::Witness(keep);
    Ok(Answer { outcome, text })
}

fn undecided(
    alloc: Global,
    input: &Input,
    budget: u64,
    found: SpentBest,
) -> Result<Answer, NoMemory>
    requires budget { input.now.conflicts ≡ Some budget }
    requires given_up { IsGivenUp input.now budget found.best found.least found.nogoods }
    ensures { IfOk result (λ a. Judges input.now a.outcome a.text) }
{
    let GivenUp { spent, text } = given_up(alloc, input, budget, found)?;
    let outcome = Outcome::Spent(spent);
    Ok(Answer { outcome, text })
}

/// The verdict on an accepted input, with its text: agreement, a smallest counterexample, or that
/// the budget is spent.
pub fn verdict(alloc: Global, input: &Input) -> Result<Answer, NoMemory>
    ensures { IfOk result (λ a. Judges input.now a.outcome a.text) }
{
    match decide(alloc, input)? {
        Best::Never => agreement(alloc, input),
        Best::Least(keep) => witness(alloc, input, keep),
        Best::Spent(found) => match input.conflicts() {
            Some(budget) => undecided(alloc, input, budget, found),
            None => unreachable!(),
        },
    }
}
