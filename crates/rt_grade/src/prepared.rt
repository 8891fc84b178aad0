//! The reference, prepared once for all candidates. Each candidate's nodes are taken back after
//! it.

ghost use Rattle.std.specs.Prelude.{IfOk, IfSome, ◌≤◌};
ghost use Rattle.rt_algebra.specs.Typed.{IsTypedOf};
ghost use Rattle.rt_input.specs.First.{IsFirst};
ghost use Rattle.rt_grade.specs.Prepared.{IsPreparedOf, IsVerdictBeside};

use crate::beside::decide_beside;
use rt_algebra::Typed;
use rt_annot::Reference;
use rt_formula::Dag;
use rt_input::First;
use rt_search::Best;
use rt_value::NoMemory;
use std::alloc::Global;

/// The law and the reference on a Dag of their own. Each candidate finds the Dag as it was made.
#[derive(Drop)]
pub(crate) struct Prepared {
    dag: Dag,
    reference: Reference,
}

impl Prepared {
    fn of(alloc: Global, first: &First) -> Result<Prepared, NoMemory>
        requires { IsFirst first.now }
        ensures { IfOk result (IsPreparedOf first.now) }
    {
        let mut dag = Dag::new(alloc, first.given.total())?;
        let reference = Reference::of(alloc, &mut dag, &first.schema, &first.given, &first.left)?;
        Ok(Prepared { dag, reference })
    }

    // The verdict on the reference and a second query.
    fn decide(
        &mut self,
        alloc: Global,
        first: &First,
        right: &Typed,
        conflicts: Option<u64>,
    ) -> Result<Best, NoMemory>
        requires first { IsFirst first.now }
        requires prepared { IsPreparedOf first.now self.old }
        requires right { IsTypedOf first.now.schema right.now }
        requires conflicts { IfSome conflicts (λ b. 1 ≤ b) }
        ensures verdict { IfOk result (IsVerdictBeside first.now right.now conflicts) }
        ensures prepared { IsPreparedOf first.now self.new }
    {
        decide_beside(
            alloc,
            &mut self.dag,
            &self.reference,
            first,
            right,
            conflicts,
        )
    }
}

/// The verdict on the first query and a second one. The reference is prepared if no candidate has
/// asked for it yet.
pub(crate) fn decide_prepared(
    alloc: Global,
    first: &First,
    prepared: &mut Option<Prepared>,
    right: &Typed,
    conflicts: Option<u64>,
) -> Result<Best, NoMemory>
    requires first { IsFirst first.now }
    requires prepared { IfSome prepared.old (IsPreparedOf first.now) }
    requires right { IsTypedOf first.now.schema right.now }
    requires conflicts { IfSome conflicts (λ b. 1 ≤ b) }
    ensures verdict { IfOk result (IsVerdictBeside first.now right.now conflicts) }
    ensures prepared { IfSome prepared.new (IsPreparedOf first.now) }
{
    match prepared {
        Some(known) => known.decide(alloc, first, right, conflicts),
        None => {
            let mut made = Prepared::of(alloc, first)?;
            let best = made.decide(alloc, first, right, conflicts);
            *prepared = Some(made);
            best
        }
    }
}
