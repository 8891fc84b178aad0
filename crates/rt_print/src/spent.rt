//! What is printed when a search spends its budget of conflicts (`--conflicts`).

ghost use Rattle.std.specs.Prelude.{◌≡◌, ◌++◌, IfOk, OnOk, Some, length};
ghost use Rattle.std.specs.Option.{ForSome, option_copied};
ghost use Rattle.rt_schema.specs.Given.{IsOf, places};
ghost use Rattle.rt_print.specs.Texts as spec;

use crate::cells::{put_count, put_number};
use crate::kept::put_kept;
use rt_schema::{Given, Schema};
use rt_value::{Bytes, Keep, List, NoMemory};
use std::alloc::Global;

/// That a search ended at its budget of conflicts, and the best choice of rows that it had found.
pub fn spent_text(
    alloc: Global,
    schema: &Schema,
    given: &Given,
    budget: u64,
    best: Option<&Keep>,
) -> Result<Bytes, NoMemory>
    requires of_schema { IsOf schema.now given.now }
    requires total { ForSome best (λ keep. places given.now.tables ≡ length keep.now) }
    ensures { IfOk result (λ text. text ≡ spec.spent_text schema.now given.now.tables budget (option_copied best.entry)) }
{
    let mut text = List::new(alloc);
    put_budget(alloc, &mut text, budget)?;
    match best {
        None => Ok(text),
        Some(keep) => {
            put_best(alloc, &mut text, schema, given, keep)?;
            Ok(text)
        }
    }
}

/// That the budget of conflicts was spent.
pub(crate) fn put_budget(alloc: Global, text: &mut Bytes, budget: u64) -> Result<(), NoMemory>
    ensures { OnOk result (text.new ≡ text.old ++ spec.budget_line budget) }
{
    text.extend(b"undecided: ")?;
    put_number(alloc, text, budget)?;
    text.extend(b" conflicts")?;
    text.push(b'\n')
}

fn put_best(
    alloc: Global,
    text: &mut Bytes,
    schema: &Schema,
    given: &Given,
    keep: &Keep,
) -> Result<(), NoMemory>
    requires { places given.now.tables ≡ length keep.now }
    ensures { OnOk result (text.new ≡ text.old ++ spec.best_lines schema.now given.now.tables (Some keep.now)) }
{
    put_count(alloc, text, "best so far", keep.size())?;
    put_kept(alloc, text, schema, given, keep)
}
