//! The text of a certificate, line by line, as `reader` reads it.

ghost use Rattle.std.specs.Prelude.{◌≡◌, ◌++◌, ◌∷◌, [], IfOk, OnOk, Some, map};
ghost use Rattle.std.specs.Fmt.{decimal};
ghost use Rattle.rt_recorder.specs.Certificate as spec;

use crate::cert::{Cert, Step};
use rt_clause::Lit;
use rt_value::{Bytes, List, NoMemory};
use std::alloc::Global;

fn put_number(alloc: Global, text: &mut Bytes, n: u64) -> Result<(), NoMemory>
    ensures { OnOk result (text.new ≡ text.old ++ decimal n) }
{
    let digits = format!(in alloc; "{n}")?;
    text.extend(digits.as_str().as_bytes())
}

fn put_numbers(alloc: Global, text: &mut Bytes, numbers: &[u64]) -> Result<(), NoMemory>
    ensures { OnOk result (text.new ≡ text.old ++ spec.spaced decimal numbers.now) }
{
    for n in numbers {
        text.push(b' ')?;
        put_number(alloc, text, *n)?;
    }
    Ok(())
}

fn put_literal(alloc: Global, text: &mut Bytes, lit: Lit) -> Result<(), NoMemory>
    ensures { OnOk result (text.new ≡ text.old ++ spec.literal lit) }
{
    let sign = if lit.on() { b'+' } else { b'-' };
    text.push(sign)?;
    put_number(alloc, text, lit.var() as u64)
}

fn put_literals(alloc: Global, text: &mut Bytes, lits: &[Lit]) -> Result<(), NoMemory>
    ensures { OnOk result (text.new ≡ text.old ++ spec.spaced spec.literal lits.now) }
{
    for lit in lits {
        text.push(b' ')?;
        put_literal(alloc, text, *lit)?;
    }
    Ok(())
}

fn put_step(alloc: Global, text: &mut Bytes, step: &Step) -> Result<(), NoMemory>
    ensures { OnOk result (text.new ≡ text.old ++ (spec.step_line step.now ++ 10 ∷ [])) }
{
    text.push(b'd')?;
    put_literals(alloc, text, step.lits.as_slice())?;
    text.extend(b" ;")?;
    put_numbers(alloc, text, step.hints.as_slice())?;
    text.push(b'\n')
}

fn put_steps(alloc: Global, text: &mut Bytes, steps: &[Step]) -> Result<(), NoMemory>
    ensures { OnOk result (text.new ≡ text.old ++ spec.text_of (map spec.step_line steps.now)) }
{
    for step in steps {
        put_step(alloc, text, step)?;
    }
    Ok(())
}

fn put_witness(alloc: Global, text: &mut Bytes, places: &[u64]) -> Result<(), NoMemory>
    ensures { OnOk result (text.new ≡ text.old ++ spec.text_of (spec.verdict_lines (Some places.now))) }
{
    text.extend(b"verdict witness ")?;
    put_number(alloc, text, places.len() as u64)?;
    text.extend(b"\nkeep")?;
    put_numbers(alloc, text, places)?;
    text.push(b'\n')
}

fn put_verdict(alloc: Global, text: &mut Bytes, keep: &Option<List<u64>>) -> Result<(), NoMemory>
    ensures { OnOk result (text.new ≡ text.old ++ spec.text_of (spec.verdict_lines keep.now)) }
{
    match keep {
        None => text.extend(b"verdict agree\n"),
        Some(places) => put_witness(alloc, text, places.as_slice()),
    }
}

fn put_added(alloc: Global, text: &mut Bytes, added: u64) -> Result<(), NoMemory>
    ensures { OnOk result (text.new ≡ text.old ++ (spec.added_line added ++ 10 ∷ [])) }
{
    text.extend(b"added ")?;
    put_number(alloc, text, added)?;
    text.push(b'\n')
}

/// The text of a certificate, each line ended by a line feed.
pub fn cert_text(alloc: Global, cert: &Cert) -> Result<Bytes, NoMemory>
    requires { spec.IsCert cert.now }
    ensures { IfOk result (λ text. text ≡ spec.cert_text cert.now) }
{
    let mut text = List::from_slice(alloc, b"ratest certificate 1\n")?;
    put_verdict(alloc, &mut text, &cert.keep)?;
    put_added(alloc, &mut text, cert.added)?;
    put_steps(alloc, &mut text, cert.steps.as_slice())?;
    text.extend(b"end\n")?;
    Ok(text)
}
