//! A checker that records: what the solver derives, in the form of a certificate's steps.

ghost use Rattle.std.specs.Prelude.{◌≡◌, ◌<◌, ◌^◌, [], IfOk};
ghost use Rattle.std.specs.List.{AllByRecursion as Each};
ghost use Rattle.rt_recorder.specs.Certificate.{IsNumber, IsStep};
ghost use Rattle.rt_recorder.specs.Recording.{AreSteps};

use crate::cert::Step;
use rt_clause::{Adds, Lines, Lit, LitList};
use rt_derive::Checker;
use rt_value::{List, NoMemory};
use std::alloc::Global;
use std::marker::Model;

// No line has a number of this size or more: its hint is answered as out of memory, and is not
// recorded, since a certificate could not spell it.
const MOST_LINES: usize = 1 << 62;

/// A checker that keeps each accepted step with its hints.
#[derive(Drop)]
pub struct Recorder {
    checker: Checker,
    steps: Vec<Step>,
    alloc: Global,
}

impl Model for Recorder {
    ghost use Rattle.rt_recorder.specs.Recording.{AreSteps, Recording};

    ghost Value = { Recording };

    ghost view = { λ r. record { lines = r.checker.lines; derived = r.checker.derived.items; steps = r.steps.items } };

    ghost invariant = { λ r. AreSteps r.checker.lines r.checker.derived.items r.steps.items };
}

fn lits_of(alloc: Global, lits: &[Lit]) -> Result<LitList, NoMemory>
    ensures same { IfOk result (λ l. l ≡ lits.now) }
    ensures small { IfOk result (λ l. Each (λ x. IsNumber x.var) l) }
{
    let mut copy = List::new(alloc);
    for lit in lits {
        let _var = lit.var();
        copy.push(*lit)?;
    }
    Ok(copy)
}

fn hints_of(alloc: Global, hints: &[usize]) -> Result<List<u64>, NoMemory>
    ensures same { IfOk result (λ l. l ≡ hints.now) }
    ensures small { IfOk result (λ l. Each IsNumber l) }
{
    let mut copy = List::new(alloc);
    for hint in hints {
        if *hint >= MOST_LINES {
            return Err(NoMemory);
        }
        copy.push(*hint as u64)?;
    }
    Ok(copy)
}

fn step_of(alloc: Global, lits: &[Lit], hints: &[usize]) -> Result<Step, NoMemory>
    ensures lits { IfOk result (λ s. s.lits ≡ lits.now) }
    ensures hints { IfOk result (λ s. s.hints ≡ hints.now) }
    ensures fits { IfOk result (λ s. IsStep s) }
{
    let lits = lits_of(alloc, lits)?;
    let hints = hints_of(alloc, hints)?;
    Ok(Step { lits, hints })
}

impl Recorder {
    /// No lines and no steps, which takes no memory.
    pub fn new(alloc: Global) -> Recorder
        ensures lines { result.lines ≡ [] }
        ensures derived { result.derived ≡ [] }
        ensures steps { result.steps ≡ [] }
    {
        Recorder {
            checker: Checker::new(alloc),
            steps: Vec::new(alloc),
            alloc,
        }
    }

    /// The accepted steps in order.
    pub fn steps(&self) -> &[Step]
        ensures is { result.now ≡ self.now.steps }
        ensures kept { AreSteps self.now.lines self.now.derived result.now }
    {
        self.steps.as_slice()
    }
}

impl Adds for Recorder {
    ghost lines = { λ r. r.lines };

    ghost derived = { λ r. r.derived };

    fn add(&mut self, lits: &[Lit]) -> Result<(), NoMemory> {
        self.checker.add(lits)
    }
}

impl Lines for Recorder {
    fn derive(&mut self, lits: &[Lit], hints: &[usize]) -> Result<bool, NoMemory> {
        let step = step_of(self.alloc, lits, hints)?;
        self.steps.reserve(1)?;
        let yes = self.checker.derive(lits, hints)?;
        if yes {
            self.steps.push_reserved(step);
        }
        Ok(yes)
    }
}
