//! The parts of the commands, each called by itself.

use crate::cert_held::{BOTH, SAME, files as cert_files};
use crate::held::{files, list_of};
use rt_cert::{Judgement, Proof, check, encode, prove};
use rt_input::{Input, Outcome, read_input};
use rt_io::MemFiles;
use rt_recorder::Encoded;
use rt_search::Best;
use rt_tools::{Grade, GradeFault, Graded, RowAnswer, grades, read_paths, row_answer};
use rt_top::decide;
use rt_value::{Keep, Txt};
use std::alloc::Global;
use std::process::Abort;

// Whether these are the two names.
fn are_two(names: &[Txt], first: &str, second: &str) -> bool {
    match names {
        [one, other] => one.as_str() == first && other.as_str() == second,
        _ => false,
    }
}

#[test]
fn paths_of_a_text(rt: HostRuntime) {
    let paths = read_paths(rt.alloc(), b"b.sql\n\nc.sql\r\n").expect(&rt, "paths");
    assert!(rt; are_two(paths.as_slice(), "b.sql", "c.sql"));
    drop(paths);
}

fn is_graded(graded: &Graded) -> bool {
    match graded.grades.as_slice() {
        [Grade::Witness(keep), Grade::Refused(_, _)] => keep.size() == 2,
        _ => false,
    }
}

fn are_told(graded: Result<Graded, GradeFault>) -> bool {
    match graded {
        Ok(graded) => {
            let found = is_graded(&graded) && are_two(graded.paths.as_slice(), "b.sql", "c.sql");
            drop(graded);
            found
        }
        Err(fault) => {
            drop(fault);
            false
        }
    }
}

// One candidate with a witness of two rows, and one that is refused.
#[test]
fn grades_of_a_list(rt: HostRuntime) {
    let alloc = rt.alloc();
    let mut held = files(&rt, alloc);
    held.hold("list", b"b.sql\nc.sql").expect(&rt, "memory");
    let words = list_of(&rt, alloc, &["s", "d", "a.sql", "list"]);
    let graded = grades(alloc, words.as_slice(), &mut held);
    drop(words);
    drop(held);
    assert!(rt; are_told(graded));
}

// Whether the answer has this text; what stopped it has none.
fn is_said(answer: Result<RowAnswer, Outcome>, text: &str) -> bool {
    match answer {
        Ok(answer) => {
            let found = answer.text.as_slice() == text.as_bytes();
            drop(answer);
            found
        }
        Err(outcome) => {
            drop(outcome);
            false
        }
    }
}

#[test]
fn answer_on_a_row(rt: HostRuntime) {
    let alloc = rt.alloc();
    let mut held = files(&rt, alloc);
    let words = list_of(&rt, alloc, &["s", "d", "a.sql", "b.sql"]);
    let row = Txt::of(alloc, "'John'").expect(&rt, "memory");
    let answer = row_answer(alloc, &row, words.as_slice(), &mut held);
    drop(row);
    drop(words);
    drop(held);
    assert!(rt; is_said(answer, "never\n"));
}

fn input_over(
    rt: &impl Abort,
    alloc: Global,
    mut held: MemFiles,
    words: &[&str],
) -> Result<Input, Outcome> {
    let words = list_of(rt, alloc, words);
    let read = read_input(alloc, words.as_slice(), &mut held);
    drop(words);
    drop(held);
    read
}

// The proof of the verdict on an input, and none where the budget is spent.
fn proof_of(rt: &impl Abort, alloc: Global, input: &Input) -> Option<Proof> {
    match decide(alloc, input).expect(rt, "memory") {
        Best::Never => Some(prove(alloc, input, &None).expect(rt, "memory")),
        Best::Least(keep) => {
            let keep = Some(keep);
            let proof = prove(alloc, input, &keep).expect(rt, "memory");
            drop(keep);
            Some(proof)
        }
        Best::Spent(found) => {
            drop(found);
            None
        }
    }
}

// Whether a judgement is that so many rows are the fewest, or with no number that the queries
// agree.
fn is_valid(judgement: &Judgement, size: Option<usize>) -> bool {
    match (judgement, size) {
        (Judgement::Valid(Some(keep)), Some(size)) => keep.size() == size,
        (Judgement::Valid(None), None) => true,
        _ => false,
    }
}

// Whether the check accepts a proof, and its lines are as many as the certificate says.
fn is_accepted(
    rt: &impl Abort,
    alloc: Global,
    input: &Input,
    proof: &Proof,
    size: Option<usize>,
) -> bool {
    let judgement = check(alloc, input, &proof.cert).expect(rt, "memory");
    let found = is_valid(&judgement, size);
    drop(judgement);
    found && proof.cert.added == proof.encoded.lines.len() as u64
}

// How many lines the encoding of an input has with no rows to be beaten.
fn lines_of(rt: &impl Abort, alloc: Global, input: &Input) -> usize {
    let mut encoded = Encoded::new(alloc);
    let none: Option<&Keep> = None;
    let assume = encode(alloc, input, none, &mut encoded).expect(rt, "memory");
    let lines = encoded.lines.len();
    drop(encoded);
    assert!(rt; assume.is_none());
    lines
}

// Whether the verdict on an input has a proof that the check accepts.
fn is_proved(rt: &impl Abort, alloc: Global, input: &Input, size: Option<usize>) -> bool {
    let Some(proof) = proof_of(rt, alloc, input) else {
        return false;
    };
    let found = is_accepted(rt, alloc, input, &proof, size);
    drop(proof);
    found && lines_of(rt, alloc, input) > 0
}

fn read_is_proved(
    rt: &impl Abort,
    alloc: Global,
    read: Result<Input, Outcome>,
    size: Option<usize>,
) -> bool {
    match read {
        Ok(input) => {
            let found = is_proved(rt, alloc, &input, size);
            drop(input);
            found
        }
        Err(outcome) => {
            drop(outcome);
            false
        }
    }
}

#[test]
fn proofs_and_their_check(rt: HostRuntime) {
    let alloc = rt.alloc();
    let two = input_over(&rt, alloc, cert_files(&rt, alloc), &BOTH);
    assert!(rt; read_is_proved(&rt, alloc, two, Some(2)));
    let same = input_over(&rt, alloc, cert_files(&rt, alloc), &SAME);
    assert!(rt; read_is_proved(&rt, alloc, same, None));
}
