//! Nogoods of a question, made to hold without what the question assumed.

ghost use Rattle.std.specs.Prelude.{◌≡◌, IfOk, map};
ghost use Rattle.rt_clause.specs.Lists.{has};
ghost use Rattle.rt_least.specs.Widened.{widened};

use rt_clause::{Lit, LitList};
use rt_value::{List, NoMemory};
use std::alloc::Global;

fn has(clause: &LitList, lit: Lit) -> bool
    ensures { result ≡ has clause.now lit }
{
    clause.as_slice().iter().any(|l| lit == *l)
}

// Those of the literals that the clause does not have, and then the clause.
fn widened(alloc: Global, lits: &LitList, clause: &LitList) -> Result<LitList, NoMemory>
    ensures { IfOk result (λ c. c ≡ widened lits.now clause.now) }
{
    let mut wide: LitList = List::new(alloc);
    for lit in lits.as_slice() {
        if !has(clause, *lit) {
            wide.push(*lit)?;
        }
    }
    wide.extend(clause.as_slice())?;
    Ok(wide)
}

/// For each clause, those of the literals that it does not have, and then the clause.
pub(crate) fn all_widened(
    alloc: Global,
    lits: &LitList,
    clauses: &List<LitList>,
) -> Result<List<LitList>, NoMemory>
    ensures { IfOk result (λ cs. cs ≡ map (widened lits.now) clauses.now) }
{
    let mut wide: List<LitList> = List::new(alloc);
    for clause in clauses.as_slice() {
        wide.push(widened(alloc, lits, clause)?)?;
    }
    Ok(wide)
}
