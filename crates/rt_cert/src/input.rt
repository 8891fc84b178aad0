//! The encoding of an input, which both the writer and the checker of a certificate make anew.
//! Certificates count its lines, so a change of their order makes old ones invalid.

ghost use Rattle.std.specs.Prelude.{◌≡◌, [], IfOk, length};
ghost use Rattle.std.specs.Option.{ForSome, option_copied};
ghost use Rattle.rt_schema.specs.Given.{places};
ghost use Rattle.rt_cert.specs.Encoding.{IsEncoding, most_of};

use crate::goal::encode_goal;
use rt_annot::goal;
use rt_clause::{Adds, Lit};
use rt_formula::Dag;
use rt_input::Input;
use rt_value::{Keep, NoMemory};
use std::alloc::Global;

// The number of rows that are to be beaten; 0 without a choice.
fn most_of(keep: Option<&Keep>) -> usize
    ensures { result ≡ most_of (option_copied keep.entry) }
{
    match keep {
        None => 0,
        Some(keep) => keep.size(),
    }
}

/// Adds the clauses of the counterexamples of an input to no lines yet. For a choice of rows they
/// also count the kept rows up to that choice's number. The literal that is answered is true
/// where fewer are kept. Without a choice, or for one of no rows, there is no literal. After an
/// error some clauses may have been added.
pub fn encode<A: Adds>(
    alloc: Global,
    input: &Input,
    keep: Option<&Keep>,
    to: &mut A,
) -> Result<Option<Lit>, NoMemory>
    requires empty { A.lines to.old ≡ [] }
    requires long { ForSome (option_copied keep) (λ k. length k ≡ places input.now.given.tables) }
    ensures { IfOk result (IsEncoding input.now (option_copied keep.entry) (A.lines to.new)) }
{
    let most = most_of(keep);
    let schema = input.schema();
    let given = input.given();
    let mut dag = Dag::new(alloc, given.total())?;
    let aim = goal(alloc, &mut dag, schema, given, input.left(), input.right())?;
    encode_goal(alloc, &dag, aim.goal, most, to)
}
