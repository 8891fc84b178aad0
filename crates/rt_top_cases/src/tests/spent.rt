//! Limits of work and budgets of clauses: what is still decided, and the verdict where one is
//! spent.

use super::files_end;
use super::worked::{MEET, MEETS};
use rt_cases::{ABC, MARY, ONE, ONES, REG, SCHOOL, SOME, STUDENT, TWOS, files, words};
use rt_input::{Input, Outcome, read_input};
use rt_io::MemSink;
use rt_top::{Best, decide, given_up, ratest, verdict};
use std::alloc::Global;
use std::process::Abort;

// Whether one clause spends the budget, before any counterexample is found.
fn is_spent_by_one_clause(best: &Best) -> bool {
    match best {
        Best::Spent(spent) => match spent.nogoods.as_slice() {
            [only] => spent.best.is_none() && !spent.least && !only.is_empty(),
            _ => false,
        },
        _ => false,
    }
}

fn is_spent(rt: &impl Abort, alloc: Global, input: &Input) -> bool {
    let best = decide(alloc, input).expect(rt, "memory");
    let found = is_spent_by_one_clause(&best);
    drop(best);
    found
}

fn is_input_spent(rt: &impl Abort, alloc: Global, read: Result<Input, Outcome>) -> bool {
    match read {
        Ok(input) => {
            let found = is_spent(rt, alloc, &input);
            drop(input);
            found
        }
        Err(outcome) => {
            drop(outcome);
            false
        }
    }
}

// The input of two queries that always agree, with a budget of one clause.
fn read(rt: &impl Abort, alloc: Global) -> Result<Input, Outcome> {
    let mut files = files(alloc, ABC, &ONES, MEET, MEETS).expect(rt, "memory");
    let command = words(alloc, &["s", "d", "p", "q", "--conflicts", "1"]).expect(rt, "memory");
    let read = read_input(alloc, command.as_slice(), &mut files);
    drop(command);
    drop(files);
    read
}

// Whether the outcome on this input says the same.
fn is_told_spent(rt: &impl Abort, alloc: Global) -> bool {
    let mut files = files(alloc, ABC, &ONES, MEET, MEETS).expect(rt, "memory");
    let command = words(alloc, &["s", "d", "p", "q", "--conflicts", "1"]).expect(rt, "memory");
    let (mut out, mut err) = (MemSink::new(alloc), MemSink::new(alloc));
    let outcome = ratest(alloc, command.as_slice(), &mut files, &mut out, &mut err);
    drop(command);
    drop(files);
    let found = match &outcome {
        Outcome::Spent(spent) => spent.best.is_none() && !spent.least,
        _ => false,
    };
    drop(outcome);
    found
}

// What a spent budget of one clause says of an input, and of the outcome whether it has a choice.
fn is_given_up(rt: &impl Abort, alloc: Global, input: &Input) -> bool {
    let (Best::Spent(found), Some(budget)) = (
        decide(alloc, input).expect(rt, "memory"),
        input.conflicts(),
    ) else {
        return false;
    };
    let told = given_up(alloc, input, budget, found).expect(rt, "memory");
    let is_said = told.text.as_slice() == b"undecided: 1 conflicts\n".as_slice()
        && told.spent.best.is_none();
    drop(told);
    is_said
}

// Whether the verdict on an input, by itself, says the same.
fn is_verdict(rt: &impl Abort, alloc: Global, input: &Input) -> bool {
    let answer = verdict(alloc, input).expect(rt, "memory");
    let found = matches!(answer.outcome, Outcome::Spent(_))
        && answer.text.as_slice() == b"undecided: 1 conflicts\n".as_slice();
    drop(answer);
    found
}

fn are_told(rt: &impl Abort, alloc: Global, read: Result<Input, Outcome>) -> bool {
    match read {
        Ok(input) => {
            let found = is_given_up(rt, alloc, &input) && is_verdict(rt, alloc, &input);
            drop(input);
            found
        }
        Err(outcome) => {
            drop(outcome);
            false
        }
    }
}

#[test]
fn verdicts_by_themselves(rt: HostRuntime) {
    let read = read(&rt, rt.alloc());
    assert!(rt; are_told(&rt, rt.alloc(), read));
}

#[test]
fn a_budget_of_one_clause(rt: HostRuntime) {
    let read = read(&rt, rt.alloc());
    assert!(rt; is_input_spent(&rt, rt.alloc(), read));
    assert!(rt; is_told_spent(&rt, rt.alloc()));
}

// Whether these arguments end so, over these files.
fn command_ends(
    rt: &impl Abort,
    alloc: Global,
    held: [&str; 3],
    tables: &[(&str, &str)],
    command: &[&str],
    ended: (u8, &str, &str),
) -> bool {
    let files = files(alloc, held[0], tables, held[1], held[2]).expect(rt, "memory");
    let (status, out, err) = ended;
    files_end(rt, alloc, files, command, status, out, err)
}

// The work of the first row is 663.
#[test]
fn work_of_the_first_row(rt: HostRuntime) {
    let limit = "ratest: limit: work 663 is above 662\n";
    let table: &[(&[&str], u8, &str, &str)] = &[
        (&["s", "d", "p", "q", "--work", "663"], 1, MARY, ""),
        (&["--work=662", "s", "d", "p", "q"], 5, "", limit),
    ];
    for (command, status, out, err) in table {
        let ended = (*status, *out, *err);
        let held = [SCHOOL, ONE, SOME];
        assert!(rt;
            command_ends(&rt, rt.alloc(), held, &[STUDENT, REG], command, ended),
            "{command:?}"
        );
    }
}

// One clause is learned where the queries meet.
#[test]
fn conflicts_of_a_meeting(rt: HostRuntime) {
    let spent = "undecided: 1 conflicts\n";
    let table: &[(&[(&str, &str)], &[&str], u8, &str)] = &[
        (
            &ONES,
            &["s", "d", "p", "q", "--conflicts", "8"],
            0,
            "agree\n",
        ),
        (&ONES, &["s", "d", "p", "q", "--conflicts", "1"], 4, spent),
        (&TWOS, &["s", "d", "p", "q", "--conflicts=64"], 0, "agree\n"),
    ];
    for (tables, command, status, out) in table {
        let ended = (*status, *out, "");
        let held = [ABC, MEET, MEETS];
        assert!(rt;
            command_ends(&rt, rt.alloc(), held, tables, command, ended),
            "{command:?}"
        );
    }
}
