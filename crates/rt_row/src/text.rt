//! The texts of a verdict on a row.

ghost use Rattle.std.specs.Prelude.{◌≡◌, length, IfOk};
ghost use Rattle.std.specs.Option.{ForSome};
ghost use Rattle.rt_schema.specs.Given.{places};
ghost use Rattle.rt_print.specs.Texts.{spent_text};
ghost use Rattle.rt_top.specs.Texts.{rows_text};
ghost use Rattle.rt_row.specs.Said.{fault_line, fault_text};

use crate::fault::RowFault;
use rt_eval::answers;
use rt_input::{Fault, Input, Spent};
use rt_print::witness_text;
use rt_value::{Bytes, Keep, List, NoMemory};
use std::alloc::Global;

/// The kept rows, and what the two queries answer with on them.
pub(crate) fn rows_text(alloc: Global, input: &Input, keep: &Keep) -> Result<Bytes, NoMemory>
    requires { length keep.now ≡ places input.now.given.tables }
    ensures { IfOk result (λ text. text ≡ rows_text input.now keep.now) }
{
    let schema = input.schema();
    let left = answers(alloc, input.left(), input.given(), keep)?;
    let right = answers(alloc, input.right(), input.given(), keep)?;
    witness_text(
        alloc,
        schema,
        input.given(),
        keep,
        left.as_slice(),
        right.as_slice(),
    )
}

/// The text of a spent budget, with the best choice so far if there is one.
pub(crate) fn spent_text(alloc: Global, input: &Input, spent: &Spent) -> Result<Bytes, NoMemory>
    requires { ForSome spent.now.best (λ keep. places input.now.given.tables ≡ length keep) }
    ensures { IfOk result (λ text. text ≡ spent_text input.now.schema input.now.given.tables spent.now.budget spent.now.best) }
{
    let schema = input.schema();
    rt_print::spent_text(
        alloc,
        schema,
        input.given(),
        spent.budget,
        spent.best.as_ref(),
    )
}

fn fault_text(alloc: Global, fault: &RowFault) -> Result<Bytes, NoMemory>
    ensures { IfOk result (λ text. text ≡ fault_text fault.now) }
{
    match fault {
        RowFault::Lex(fault) => rt_input::fault_text(alloc, &Fault::Lex(*fault)),
        RowFault::RowSyntax => List::from_slice(alloc, b"syntax fault"),
        RowFault::RowWidth => List::from_slice(alloc, b"numbers of columns differ"),
        RowFault::RowKind => List::from_slice(alloc, b"types do not match"),
        RowFault::NoMemory => Ok(List::new(alloc)),
    }
}

/// The line of a text that is no row of the query's columns.
pub(crate) fn fault_line(alloc: Global, fault: &RowFault) -> Result<Bytes, NoMemory>
    ensures { IfOk result (λ text. text ≡ fault_line fault.now) }
{
    let mut line = List::from_slice(alloc, b"ratest: row: ")?;
    let text = fault_text(alloc, fault)?;
    line.extend(text.as_slice())?;
    line.push(b'\n')?;
    Ok(line)
}
