//! The clauses that a certificate goes on from, for checkers of proofs that others wrote. A
//! clause is a line, with the literals as certificates have them; a last line has the literal
//! that is assumed.

ghost use Rattle.rt_cert.specs.Least.{IsSmallestOrNone};

use crate::say::say_text;
use rt_cert::{Proof, prove};
use rt_clause::{Clauses, Lit};
use rt_input::{Input, Outcome};
use rt_io::Sink;
use rt_search::Best;
use rt_top::decide;
use rt_value::Keep;
use std::alloc::Global;

fn say_literal<S: Sink>(alloc: Global, out: &mut S, lit: Lit) -> Result<(), Outcome> {
    let variable = lit.var();
    let sign = if lit.on() { "+" } else { "-" };
    let Ok(text) = format!(in alloc; "{sign}{variable} ") else {
        return Err(Outcome::NoMemory);
    };
    say_text(out, text.as_bytes())
}

fn say_clauses<S: Sink>(alloc: Global, lines: &Clauses, out: &mut S) -> Result<(), Outcome> {
    for i in 0..lines.len() {
        for lit in lines.at(i) {
            say_literal(alloc, out, *lit)?;
        }
        say_text(out, b"\n")?;
    }
    Ok(())
}

fn say_encoding<S: Sink>(
    alloc: Global,
    input: &Input,
    keep: &Option<Keep>,
    out: &mut S,
) -> Result<(), Outcome>
    requires { IsSmallestOrNone input.now keep.now }
{
    let Proof { cert, encoded } = prove(alloc, input, keep)?;
    drop(cert);
    say_clauses(alloc, &encoded.lines, out)?;
    say_text(out, b"assume ")?;
    if let Some(lit) = encoded.assume {
        say_literal(alloc, out, lit)?;
    }
    say_text(out, b"\n")
}

/// Prints the clauses that a certificate of the verdict on an input goes on from, and nothing if
/// a budget is spent.
pub fn measure_encoding<S: Sink>(alloc: Global, input: &Input, out: &mut S) -> Result<(), Outcome> {
    match decide(alloc, input)? {
        Best::Never => say_encoding(alloc, input, &None, out),
        Best::Least(keep) => {
            let keep = Some(keep);
            let said = say_encoding(alloc, input, &keep, out);
            drop(keep);
            said
        }
        Best::Spent(found) => {
            drop(found);
            Ok(())
        }
    }
}
