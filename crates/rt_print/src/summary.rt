//! What `made N` prints in place of rows.

ghost use Rattle.std.specs.Prelude.{◌≡◌, ◌++◌, IfOk, OnOk};
ghost use Rattle.rt_print.specs.Summary as spec;

use crate::cells::put_count;
use crate::spent::put_budget;
use crate::verdict::MadeVerdict;
use rt_value::{Bytes, List, NoMemory};
use std::alloc::Global;

/// The summary of a search over the generated input for `n` students, which has 5 * n rows.
pub fn made_text(alloc: Global, n: u64, verdict: MadeVerdict) -> Result<Bytes, NoMemory>
    ensures { IfOk result (λ text. text ≡ spec.made_text n verdict) }
{
    let rows = 5 * u128::from(n);
    let head = format!(in alloc; "made {n}\nrows {rows}\n")?;
    let mut text = List::from_slice(alloc, head.as_str().as_bytes())?;
    put_verdict(alloc, &mut text, verdict)?;
    Ok(text)
}

fn put_verdict(alloc: Global, text: &mut Bytes, verdict: MadeVerdict) -> Result<(), NoMemory>
    ensures { OnOk result (text.new ≡ text.old ++ spec.verdict_line verdict) }
{
    match verdict {
        MadeVerdict::Agree => text.extend(b"agree\n"),
        MadeVerdict::Size(rows) => put_count(alloc, text, "witness", rows),
        MadeVerdict::Undecided(budget) => put_budget(alloc, text, budget),
    }
}
