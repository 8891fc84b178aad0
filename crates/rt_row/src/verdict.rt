//! The verdict on a row, over the input of a command.

ghost use Rattle.std.specs.Prelude.{◌≡◌, IfOk, IfErr, OnOk, Ok, Some};
ghost use Rattle.rt_io.specs.Edge.{NoneFell};
ghost use Rattle.rt_schema.specs.Given.{places};
ghost use Rattle.rt_least.specs.Least.{IsSpentBest};
ghost use Rattle.rt_io.specs.Command.{command};
ghost use Rattle.rt_input.specs.Begun.{BeganFor, Begins};
ghost use Rattle.rt_input.specs.Reading.{call, Stop};
ghost use Rattle.rt_row.specs.RowVerdicts.{Finds, HoldsIn, IsRowAnswer, Judges};
ghost use Rattle.rt_row.specs.Said.{fault_line, row_text};

use crate::fault::RowFault;
use crate::outcome::{RowAnswer, RowVerdict};
use crate::reader::read_row;
use crate::search::smallest_row;
use crate::text::{fault_line, rows_text, spent_text};
use rt_input::{Input, Outcome, Spent, read_input};
use rt_io::Files;
use rt_search::{Best, SpentBest};
use rt_value::{List, NoMemory, Row, Txt};
use std::alloc::Global;

fn given_up(
    alloc: Global,
    input: &Input,
    row: &Row,
    budget: u64,
    found: SpentBest,
) -> Result<RowAnswer, NoMemory>
    requires budget { input.now.conflicts ≡ Some budget }
    requires given_up { IsSpentBest (places input.now.given.tables) (HoldsIn input.now row.now) budget found.best found.least found.nogoods }
    ensures { IfOk result (λ a. Finds input.now row.now a.verdict × (a.text ≡ row_text input.now a.verdict)) }
{
    let spent = Spent {
        budget,
        best: found.best,
        least: found.least,
        nogoods: found.nogoods,
    };
    let text = spent_text(alloc, input, &spent)?;
    let verdict = RowVerdict::Spent(spent);
    Ok(RowAnswer { verdict, text })
}

// The answer for a row of the first query's columns.
fn found(alloc: Global, input: &Input, row: &Row) -> Result<RowAnswer, NoMemory>
    ensures { IfOk result (λ a. Finds input.now row.now a.verdict × (a.text ≡ row_text input.now a.verdict)) }
{
    match smallest_row(alloc, input, row)? {
        Best::Never => {
            let text = List::from_slice(alloc, b"never\n")?;
            let verdict = RowVerdict::Never;
            Ok(RowAnswer { verdict, text })
        }
        Best::Least(keep) => {
            let text = rows_text(alloc, input, &keep)?;
            let verdict = RowVerdict::Witness(keep);
            Ok(RowAnswer { verdict, text })
        }
        Best::Spent(found) => match input.conflicts() {
            Some(budget) => given_up(alloc, input, row, budget, found),
            None => unreachable!(),
        },
    }
}

fn refused(alloc: Global, fault: RowFault) -> Result<RowAnswer, NoMemory>
    ensures { IfOk result (λ a. (a.verdict ≡ RowVerdict.Refused fault) × (a.text ≡ fault_line fault)) }
{
    let text = fault_line(alloc, &fault)?;
    let verdict = RowVerdict::Refused(fault);
    Ok(RowAnswer { verdict, text })
}

// The answer for the row that a text is.
fn answer_on(alloc: Global, input: &Input, row: &Txt) -> Result<RowAnswer, NoMemory>
    ensures { IfOk result (λ a. Judges input.now row.now a.verdict × (a.text ≡ row_text input.now a.verdict)) }
{
    match read_row(alloc, row.as_bytes(), input.left()) {
        Ok(row) => found(alloc, input, &row),
        Err(RowFault::NoMemory) => Err(NoMemory),
        Err(fault) => refused(alloc, fault),
    }
}

fn or_outcome(answer: Result<RowAnswer, NoMemory>) -> Result<RowAnswer, Outcome>
    ensures ok { IfOk result (λ a. answer ≡ Ok a) }
    ensures err { IfErr result (λ o. o ≡ Outcome.NoMemory) }
{
    match answer {
        Ok(answer) => Ok(answer),
        Err(NoMemory) => Err(Outcome::NoMemory),
    }
}

/// The answer on the row that `row` spells, over the input of a command, or why there is no
/// input. `words` are the command's arguments.
pub fn row_answer<F: Files>(
    alloc: Global,
    row: &Txt,
    words: &[Txt],
    files: &mut F,
) -> Result<RowAnswer, Outcome>
    ensures ok { IfOk result (IsRowAnswer (call F.Files words.now files.old files.new) row.now) }
    ensures err { IfErr result (Stop (call F.Files words.now files.old files.new)) }
    ensures begun { Begins F.Files (command words.now) files.old files.new }
    ensures begun_ok { OnOk result (BeganFor F.tells (F.held files.old) (command words.now) (F.begun files.old) (F.begun files.new)) }
    ensures has { F.has files.new ≡ F.has files.old }
    ensures held { F.held files.new ≡ F.held files.old }
    ensures rises { NoneFell (F.faults files.old) (F.faults files.new) }
{
    match read_input(alloc, words, files) {
        Ok(input) => {
            let answer = answer_on(alloc, &input, row);
            drop(input);
            or_outcome(answer)
        }
        Err(outcome) => Err(outcome),
    }
}
