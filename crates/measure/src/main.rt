//! Measures a search, a line for each number. First come the rows that each query answers with,
//! the nodes of the formula, and the rows that can matter to it. Then come its clauses and the
//! conflicts of the search. A line comes as soon as its part is done, so that a reader of the
//! lines can take the times.
//!
//! The arguments are those of `ratest`, and so is the status if an input is refused. With the
//! argument `clauses` before them it prints the clauses that a certificate of the verdict goes on
//! from.

#![tactic(auto)]

mod encoding;
mod say;

ghost use Rattle.std.specs.Prelude.{◌≡◌, ◌<◌, ◌≤◌, IfSome, length};
ghost use Rattle.rt_algebra.specs.Typed.{IsTyped};
ghost use Rattle.rt_schema.specs.Given.{places};
ghost use Rattle.rt_least.specs.Least.{IsEnough};

use crate::encoding::measure_encoding;
use crate::say::say;
use rt_algebra::Typed;
use rt_annot::goal;
use rt_eval::answers;
use rt_formula::{Dag, Node};
use rt_input::{Input, Outcome, read_input};
use rt_io::{RealFiles, RealSink, Sink, given_words, refuse};
use rt_rules::cone;
use rt_schema::Given;
use rt_search::smallest_counted;
use rt_top::USAGE;
use rt_value::{Keep, Txt};
use std::alloc::Global;
use std::process::ExitCode;

// The number of rows that a query answers with.
fn rows_of(alloc: Global, query: &Typed, given: &Given, all: &Keep) -> Result<u64, Outcome>
    requires typed { IsTyped given.now.kinds query.now }
    requires places { places given.now.tables ≡ length all.now }
{
    let rows = answers(alloc, query, given, all)?;
    let number = rows.as_slice().len() as u64;
    drop(rows);
    Ok(number)
}

// Prints with how many rows each query answers.
fn measure_answers<S: Sink>(alloc: Global, input: &Input, out: &mut S) -> Result<(), Outcome> {
    // An accepted input has typed queries: the contract of `schema` says so.
    let _schema = input.schema();
    let given = input.given();
    let all = Keep::all(alloc, given.total(), true)?;
    let left = rows_of(alloc, input.left(), given, &all)?;
    say(alloc, out, "left", left)?;
    let right = rows_of(alloc, input.right(), given, &all)?;
    drop(all);
    say(alloc, out, "right", right)
}

// Searches within the cone, and prints into how many clauses and after how many conflicts.
fn search_within<S: Sink>(
    alloc: Global,
    dag: &Dag,
    goal: Node,
    cone: &Keep,
    budget: Option<u64>,
    out: &mut S,
) -> Result<(), Outcome>
    requires goal { goal < length dag.now.entries }
    requires long { length cone.now ≡ dag.now.rows }
    requires cone { IsEnough dag.now goal cone.now }
    requires budget { IfSome budget (λ b. 1 ≤ b) }
{
    let search = smallest_counted(alloc, dag, goal, cone, budget)?;
    let (clauses, conflicts) = (search.clauses, search.conflicts);
    drop(search);
    say(alloc, out, "clauses", clauses)?;
    say(alloc, out, "conflicts", conflicts)
}

// Searches as the program does, and prints how large each part is.
fn measure_search<S: Sink>(alloc: Global, input: &Input, out: &mut S) -> Result<(), Outcome> {
    let schema = input.schema();
    let given = input.given();
    let mut dag = Dag::new(alloc, given.total())?;
    let aim = goal(alloc, &mut dag, schema, given, input.left(), input.right())?;
    say(alloc, out, "nodes", dag.len() as u64)?;
    let cone = cone(alloc, &dag, aim.differs, schema, given)?;
    say(alloc, out, "rows", cone.size() as u64)?;
    let said = search_within(alloc, &dag, aim.goal, &cone, input.conflicts(), out);
    drop(cone);
    drop(dag);
    said
}

fn measure<S: Sink>(alloc: Global, input: &Input, out: &mut S) -> Result<(), Outcome> {
    measure_answers(alloc, input, out)?;
    measure_search(alloc, input, out)
}

fn read_and_measure<S: Sink>(
    alloc: Global,
    words: &[Txt],
    files: &mut RealFiles,
    out: &mut S,
) -> Result<(), Outcome> {
    let input = read_input(alloc, words, files)?;
    let said = measure(alloc, &input, out);
    drop(input);
    said
}

fn read_and_encode<S: Sink>(
    alloc: Global,
    words: &[Txt],
    files: &mut RealFiles,
    out: &mut S,
) -> Result<(), Outcome> {
    let input = read_input(alloc, words, files)?;
    let said = measure_encoding(alloc, &input, out);
    drop(input);
    said
}

fn answer<S: Sink>(
    alloc: Global,
    words: &[Txt],
    files: &mut RealFiles,
    out: &mut S,
) -> Result<(), Outcome> {
    match words.split_first() {
        Some((first, rest)) if first.as_str() == "clauses" => read_and_encode(
            alloc, rest, files, out,
        ),
        _ => read_and_measure(alloc, words, files, out),
    }
}

fn main(rt: HostRuntime) -> ExitCode {
    let mut out = RealSink::new(rt.stdout());
    let mut err = RealSink::new(rt.stderr());
    let words = match given_words(&rt) {
        Ok(words) => words,
        Err(error) => return ExitCode::from(refuse(&mut err, &error, USAGE)),
    };
    let alloc = rt.alloc();
    let mut files = RealFiles::new(rt);
    match answer(alloc, words.as_slice(), &mut files, &mut out) {
        Ok(()) => ExitCode::from(0),
        Err(outcome) => ExitCode::from(outcome.status()),
    }
}
