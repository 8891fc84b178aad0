//! The least choice of rows with a row in the first answer alone.

use crate::held::{files, list_of};
use rt_input::{Input, Outcome, read_input};
use rt_search::Best;
use rt_tools::{read_row, smallest_row};
use rt_value::Row;
use std::alloc::Global;
use std::process::Abort;

// The input of the two queries over the rows of the files in memory.
fn read(rt: &impl Abort, alloc: Global) -> Result<Input, Outcome> {
    let mut files = files(rt, alloc);
    let words = list_of(rt, alloc, &["s", "d", "a.sql", "b.sql"]);
    let read = read_input(alloc, words.as_slice(), &mut files);
    drop(words);
    drop(files);
    read
}

// The least choice that has a row in the first answer alone.
fn least_choice(rt: &impl Abort, alloc: Global, input: &Input, row: &Row) -> Best {
    smallest_row(alloc, input, row).expect(rt, "memory")
}

// The same of a row that is a text.
fn least_of(rt: &impl Abort, alloc: Global, input: &Input, text: &str) -> Best {
    let row = read_row(alloc, text.as_bytes(), input.left()).expect(rt, "a row");
    let best = least_choice(rt, alloc, input, &row);
    drop(row);
    best
}

// Whether the best choice keeps just these of the five rows, or there is none.
fn is_choice(best: &Best, wanted: Option<[bool; 5]>) -> bool {
    match (best, wanted) {
        (Best::Least(keep), Some(places)) => keep.as_slice() == places.as_slice(),
        (Best::Never, None) => true,
        _ => false,
    }
}

fn is_least(
    rt: &impl Abort,
    alloc: Global,
    input: &Input,
    text: &str,
    wanted: Option<[bool; 5]>,
) -> bool {
    let best = least_of(rt, alloc, input, text);
    let found = is_choice(&best, wanted);
    drop(best);
    found
}

// Mary is in the first answer alone if only her second registration is kept. For John no row of
// his makes the two queries differ.
fn mary_and_john_are_told(rt: &impl Abort, alloc: Global, read: Result<Input, Outcome>) -> bool {
    match read {
        Ok(input) => {
            let mary = Some([true, false, false, true, false]);
            let found = is_least(rt, alloc, &input, "'Mary'", mary)
                && is_least(rt, alloc, &input, "'John'", None);
            drop(input);
            found
        }
        Err(outcome) => {
            drop(outcome);
            false
        }
    }
}

#[test]
fn mary_and_john(rt: HostRuntime) {
    let read = read(&rt, rt.alloc());
    assert!(rt; mary_and_john_are_told(&rt, rt.alloc(), read));
}
