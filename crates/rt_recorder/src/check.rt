//! The check of a certificate's steps: the checker of `rt_derive` takes them one after another.

ghost use Rattle.std.specs.Prelude.{◌≡◌, ◌<◌, ◌++◌, ◌∷◌, [], IfOk, IsTrue, ◌↔◌, if◌then◌else◌, length, MatchOption};
ghost use Rattle.std.specs.List.{All as Each};
ghost use Rattle.rt_recorder.specs.Recording.{IsAccepted};
ghost use Rattle.rt_recorder.specs.Checking.{IsChecked, IsSound};
ghost use Rattle.rt_recorder.specs.declared.check.Checked.{Checked};

use crate::cert::{Cert, Step};
use rt_clause::{Adds, Lines, Lit};
use rt_derive::Checker;
use rt_value::{List, NoMemory};
use std::alloc::Global;

/// The outcome of the check of a certificate's steps. All are accepted and refute, or one is the
/// first that is not accepted, counted from 1, or all are accepted and do not refute.
#[derive(Clone, Copy, PartialEq, Eq, Debug)]
pub enum Checked {
    Yes,
    Line(usize),
    NoRefutation,
}

// The hints as numbers of lines, where they are below the number of lines.
fn known(alloc: Global, hints: &[u64], lines: usize) -> Result<Option<List<usize>>, NoMemory>
    ensures { IfOk result (λ o. MatchOption o (Each (λ h. h < lines) hints.now → ⊥) (λ l. (l ≡ hints.now) × Each (λ h. h < lines) hints.now)) }
{
    let mut out = List::new(alloc);
    for hint in hints {
        if *hint >= lines as u64 {
            return Ok(None);
        }
        out.push(*hint as usize)?;
    }
    Ok(Some(out))
}

// Takes the clause of the step as a line where the step is accepted.
fn accept(alloc: Global, to: &mut Checker, step: &Step) -> Result<bool, NoMemory>
    ensures yes { IfOk result (λ yes. IsTrue yes ↔ IsAccepted (⟦<Checker as Adds>⟧.lines to.old) step.now) }
    ensures lines { IfOk result (λ yes. ⟦<Checker as Adds>⟧.lines to.new ≡ (if yes then ⟦<Checker as Adds>⟧.lines to.old ++ step.now.lits ∷ [] else ⟦<Checker as Adds>⟧.lines to.old)) }
{
    let Some(hints) = known(alloc, step.hints.as_slice(), to.len())? else {
        return Ok(false);
    };
    to.derive(step.lits.as_slice(), hints.as_slice())
}

/// Checks the steps of the certificate one after another over the checker's lines. The clauses of
/// the accepted steps become lines of the checker.
pub fn check_steps(
    alloc: Global,
    to: &mut Checker,
    cert: &Cert,
    assume: Option<Lit>,
) -> Result<Checked, NoMemory>
    ensures checked { IfOk result (λ checked. IsChecked (⟦<Checker as Adds>⟧.lines to.old) cert.now.steps assume checked) }
    ensures only { IfOk result (λ checked. (other : Checked) → IsChecked (⟦<Checker as Adds>⟧.lines to.old) cert.now.steps assume other → other ≡ checked) }
    ensures sound { IfOk result (λ checked. IsSound (⟦<Checker as Adds>⟧.lines to.old) assume checked) }
{
    check(alloc, to, cert.steps.as_slice(), assume)
}

fn check(
    alloc: Global,
    to: &mut Checker,
    steps: &[Step],
    assume: Option<Lit>,
) -> Result<Checked, NoMemory>
    ensures { IfOk result (λ checked. IsChecked (⟦<Checker as Adds>⟧.lines to.old) steps.now assume checked) }
{
    for (i, step) in steps.iter().enumerate() {
        if !accept(alloc, to, step)? {
            return Ok(Checked::Line(i + 1));
        }
    }
    if to.refutes(assume) {
        Ok(Checked::Yes)
    } else {
        Ok(Checked::NoRefutation)
    }
}
