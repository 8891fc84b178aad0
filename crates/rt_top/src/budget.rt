//! What is said when the budget of conflicts is spent.

ghost use Rattle.std.specs.Prelude.{◌≡◌, IfOk, Some};
ghost use Rattle.rt_top.specs.Answers.{Judges};
ghost use Rattle.rt_top.specs.GivenUp.{IsGivenUp};
ghost use Rattle.rt_top.specs.Texts.{spent_of};
ghost use Rattle.rt_input.specs.declared.outcome.Outcome.TheVariants as outcome;

use rt_input::{Input, Spent};
use rt_print::{MadeVerdict, made_text, spent_text};
use rt_search::SpentBest;
use rt_value::{Bytes, NoMemory};
use std::alloc::Global;

/// A spent budget, and the text of that.
#[derive(Drop)]
pub struct GivenUp {
    pub spent: Spent,
    pub text: Bytes,
}

fn spent_of(alloc: Global, input: &Input, spent: &Spent) -> Result<Bytes, NoMemory>
    requires { IsGivenUp input.now spent.now.budget spent.now.best spent.now.least spent.now.nogoods }
    ensures { IfOk result (λ text. text ≡ spent_of input.now spent.now) }
{
    let schema = input.schema();
    if let Some(n) = input.made() {
        return made_text(alloc, n, MadeVerdict::Undecided(spent.budget));
    }
    spent_text(
        alloc,
        schema,
        input.given(),
        spent.budget,
        spent.best.as_ref(),
    )
}

/// The answer for a search that spent its budget: what it found, and its text.
pub fn given_up(
    alloc: Global,
    input: &Input,
    budget: u64,
    found: SpentBest,
) -> Result<GivenUp, NoMemory>
    requires budget { input.now.conflicts ≡ Some budget }
    requires given_up { IsGivenUp input.now budget found.best found.least found.nogoods }
    ensures { IfOk result (λ g. Judges input.now (outcome.Spent g.spent) g.text) }
{
    let spent = Spent {
        budget,
        best: found.best,
        least: found.least,
        nogoods: found.nogoods,
    };
    let text = spent_of(alloc, input, &spent)?;
    Ok(GivenUp { spent, text })
}
