//! Steps that are checked over two lines, the recording of accepted ones, and an encoding that is
//! kept.

use rt_clause::{Adds, Lines, Lit};
use rt_derive::Checker;
use rt_recorder::{Cert, Checked, Encoded, Recorder, Step, check_steps};
use rt_value::List;
use std::alloc::Global;
use std::process::Abort;

// The lines x0 or x1, and not x0 or x1.
fn two_lines(rt: &impl Abort, alloc: Global) -> Checker {
    let mut checker = Checker::new(alloc);
    checker
        .add(&[Lit::of(0, true), Lit::of(1, true)])
        .expect(rt, "memory");
    checker
        .add(&[Lit::of(0, false), Lit::of(1, true)])
        .expect(rt, "memory");
    checker
}

// A certificate of agreement with these steps.
fn cert_of(rt: &impl Abort, alloc: Global, steps: &[(&[Lit], &[u64])]) -> Cert {
    let mut list = List::new(alloc);
    for (lits, hints) in steps {
        list.push(step_of(rt, alloc, lits, hints))
            .expect(rt, "memory");
    }
    Cert {
        keep: None,
        added: 2,
        steps: list,
    }
}

fn step_of(rt: &impl Abort, alloc: Global, lits: &[Lit], hints: &[u64]) -> Step {
    let lits = List::from_slice(alloc, lits).expect(rt, "memory");
    let hints = List::from_slice(alloc, hints).expect(rt, "memory");
    Step { lits, hints }
}

fn checked(
    rt: &impl Abort,
    alloc: Global,
    steps: &[(&[Lit], &[u64])],
    assume: Option<Lit>,
) -> Checked {
    let mut checker = two_lines(rt, alloc);
    let cert = cert_of(rt, alloc, steps);
    let found = check_steps(alloc, &mut checker, &cert, assume).expect(rt, "memory");
    drop(cert);
    drop(checker);
    found
}

#[test]
fn steps_that_are_checked(rt: HostRuntime) {
    let alloc = rt.alloc();
    let second = [Lit::of(1, true)];
    let first = [Lit::of(0, true)];
    let denied = Lit::of(1, false);
    let good: (&[Lit], &[u64]) = (&second, &[0, 1]);
    let bare: (&[Lit], &[u64]) = (&second, &[0]);
    let past: (&[Lit], &[u64]) = (&second, &[0, 2]);
    let other: (&[Lit], &[u64]) = (&first, &[0, 1]);
    let again: (&[Lit], &[u64]) = (&second, &[2]);
    assert!(rt; checked(&rt, alloc, &[], Some(denied)) == Checked::NoRefutation);
    assert!(rt; checked(&rt, alloc, &[good], Some(denied)) == Checked::Yes);
    assert!(rt; checked(&rt, alloc, &[good], None) == Checked::NoRefutation);
    assert!(rt; checked(&rt, alloc, &[good, again], Some(denied)) == Checked::Yes);
    assert!(rt; checked(&rt, alloc, &[bare], Some(denied)) == Checked::Line(1));
    assert!(rt; checked(&rt, alloc, &[past], Some(denied)) == Checked::Line(1));
    assert!(rt; checked(&rt, alloc, &[again, good], Some(denied)) == Checked::Line(1));
    assert!(rt; checked(&rt, alloc, &[good, other], Some(denied)) == Checked::Line(2));
}

// Whether a step has just these literals and hints.
fn is_step(step: &Step, lits: &[Lit], hints: &[u64]) -> bool {
    step.lits.as_slice() == lits && step.hints.as_slice() == hints
}

#[test]
fn a_recorder_keeps_what_it_accepts(rt: HostRuntime) {
    let mut recorder = Recorder::new(rt.alloc());
    recorder
        .add(&[Lit::of(0, true), Lit::of(1, true)])
        .expect(&rt, "memory");
    let second = [Lit::of(1, true)];
    assert!(rt; !recorder.derive(&second, &[0]).expect(&rt, "memory"));
    assert!(rt; recorder.steps().is_empty());
    recorder
        .add(&[Lit::of(0, false), Lit::of(1, true)])
        .expect(&rt, "memory");
    assert!(rt; recorder.derive(&second, &[0, 1]).expect(&rt, "memory"));
    let steps = recorder.steps();
    assert!(rt; steps.len() == 1);
    assert!(rt; is_step(&steps[0], &second, &[0, 1]));
}

#[test]
fn an_encoding_keeps_its_lines(rt: HostRuntime) {
    let mut encoded = Encoded::new(rt.alloc());
    assert!(rt; encoded.assume.is_none());
    assert!(rt; encoded.lines.len() == 0);
    let line = [Lit::of(3, false), Lit::of(0, true)];
    encoded.add(&line).expect(&rt, "memory");
    encoded.add(&line[..0]).expect(&rt, "memory");
    assert!(rt; encoded.lines.len() == 2);
    assert!(rt; encoded.lines.at(0) == line.as_slice());
    assert!(rt; encoded.lines.at(1).is_empty());
}
