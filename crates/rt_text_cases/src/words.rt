//! The command line of `ratest`: what is read and what is a usage error.

use rt_io::{WordFault, Words, read_words};
use rt_value::{List, Txt};
use std::alloc::Global;
use std::process::Abort;

// What the arguments, split at each space, ask for.
fn read(rt: &impl Abort, alloc: Global, line: &str) -> Result<Words, WordFault> {
    let mut words = List::new(alloc);
    for word in line.split(' ') {
        let word = Txt::of(alloc, word).expect(rt, "memory");
        words.push(word).expect(rt, "memory");
    }
    read_words(alloc, words.as_slice())
}

fn is_usage_fault(rt: &impl Abort, alloc: Global, line: &str) -> bool {
    matches!(read(rt, alloc, line), Err(WordFault::Usage))
}

// The paths, each after a `|`, and the numbers.
fn shown(rt: &impl Abort, alloc: Global, words: &Words) -> String {
    let mut text = String::new(alloc);
    for path in words.paths.as_slice() {
        text.push_str("|").expect(rt, "memory");
        text.push_str(path.as_str()).expect(rt, "memory");
    }
    let conflicts = words.conflicts.unwrap_or(0);
    let made = words.made.unwrap_or(0);
    let numbers = format!(in alloc; " {conflicts} {} {made}", words.work_limit);
    let numbers = numbers.expect(rt, "memory");
    text.push_str(numbers.as_str()).expect(rt, "memory");
    text
}

fn is_read(rt: &impl Abort, alloc: Global, line: &str, want: &str) -> bool {
    match read(rt, alloc, line) {
        Ok(words) => shown(rt, alloc, &words).as_str() == want,
        Err(_) => false,
    }
}

#[test]
fn both_forms_are_read(rt: HostRuntime) {
    let commands = &[
        ("-- s d q1 q2", "|s|d|q1|q2 0 16000000 0"),
        ("s --work=663 d q1 --conflicts 8 q2", "|s|d|q1|q2 8 663 0"),
        ("- d -- --work -x", "|-|d|--work|-x 0 16000000 0"),
        ("./made d q1 q2", "|./made|d|q1|q2 0 16000000 0"),
        ("made 400", " 0 16000000 400"),
        ("made --conflicts=64 3", " 64 16000000 3"),
        ("made 20 --work 28039", " 0 28039 20"),
        ("made 0000000001 --work 0032000000", " 0 32000000 1"),
    ];
    for (line, want) in commands {
        assert!(rt; is_read(&rt, rt.alloc(), line, want), "{line}");
    }
}

#[test]
fn all_else_is_a_usage_fault(rt: HostRuntime) {
    let lines = &[
        "",
        "s d q1",
        "s d q1 q2 q3",
        "made",
        "made 0",
        "made 401",
        "made x",
        "made 20 21",
        "-- made 3",
        "--work 9 made 3",
        "made 00000000001",
        "s d q1 q2 --conflicts 0",
        "s d q1 q2 --conflicts 10000001",
        "s d q1 q2 --work 32000001",
        "s d q1 q2 --work +9",
        "s d q1 q2 --work=",
        "s d q1 q2 --work",
        "s d q1 q2 --work --",
        "s d q1 q2 --work -9",
        "s d q1 q2 --work 9 --work 9",
        "s d q1 q2 --work=9 --work 9",
        "s d q1 -x",
        "s d q1 q2 --help",
        "s d q1 q2 --wor 9",
        "s d q1 q2 -work 9",
    ];
    for line in lines {
        assert!(rt; is_usage_fault(&rt, rt.alloc(), line), "{line}");
    }
    assert!(rt; read_words(rt.alloc(), &[]).is_err());
}
