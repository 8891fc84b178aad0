//! The walk over a tree: the operands from the left, then the operator. A query is never copied:
//! where an operand comes more than once, its tree is walked again.

ghost use Rattle.std.specs.Prelude.{◌≡◌, IfOk, Ok};
ghost use Rattle.rt_relation.specs.Operators as operators;
ghost use Rattle.rt_ra.specs.Lowered as spec;
ghost use Rattle.rt_ra_tree.specs.Refusals.{is_memory};
ghost use Rattle.rt_ra_tree.specs.declared.tree.RaOp.TheVariants as op;
ghost use Rattle.rt_value.specs.Gives.{Gives};

use crate::crosses::cross;
use crate::joins::join;
use crate::left_joins::{Doubled, left_join};
use crate::names::texts;
use crate::projections::project;
use crate::renaming::rename;
use crate::selections::select;
use crate::semijoins::{anti_join, semi_join};
use crate::set_operators::united;
use crate::table::table_named;
use rt_algebra::{Query, SetOp};
use rt_ra_tree::{Ra, RaFault, RaNames, RaOp, RaTests};
use rt_relation::{Dividend, Relation, divide};
use rt_schema::Table;
use rt_value::{Boxed, NoMemory};
use std::alloc::Global;

// The query once more, of a tree that has one: there is no error then but out of memory.
#[cycle(walk)]
fn again(alloc: Global, tables: &[Table], of: &Ra) -> Result<Boxed<Query>, NoMemory>
    ensures { IfOk result (λ q. IfOk (spec.relation of.now tables.now) (λ r. q ≡ r.query)) }
{
    match relation(alloc, tables, of) {
        Ok(relation) => Ok(relation.query),
        Err(_) => Err(NoMemory),
    }
}

#[cycle(walk)]
fn doubled(
    alloc: Global,
    tables: &[Table],
    of: &Ra,
    relation: Relation,
) -> Result<Doubled, NoMemory>
    requires of { spec.relation of.now tables.now ≡ Ok relation }
    ensures relation { IfOk result (λ d. d.relation ≡ relation) }
    ensures again { IfOk result (λ d. d.again ≡ relation.query) }
{
    let again = again(alloc, tables, of)?;
    Ok(Doubled { relation, again })
}

#[cycle(walk)]
fn dividend(
    alloc: Global,
    tables: &[Table],
    of: &Ra,
    relation: Relation,
) -> Result<Dividend, NoMemory>
    requires of { spec.relation of.now tables.now ≡ Ok relation }
    ensures relation { IfOk result (λ d. d.relation ≡ relation) }
    ensures second { IfOk result (λ d. d.second ≡ relation.query) }
    ensures third { IfOk result (λ d. d.third ≡ relation.query) }
{
    let second = again(alloc, tables, of)?;
    let third = again(alloc, tables, of)?;
    Ok(Dividend {
        relation,
        second,
        third,
    })
}

#[cycle(walk)]
fn divided(
    alloc: Global,
    tables: &[Table],
    left: &Ra,
    first: Relation,
    second: Relation,
) -> Result<Relation, RaFault>
    requires left { spec.relation left.now tables.now ≡ Ok first }
    ensures { Gives is_memory result (operators.two op.Divide first second) }
{
    let first = dividend(alloc, tables, left, first)?;
    divide(alloc, first, second)
}

#[cycle(walk)]
fn selected(alloc: Global, tables: &[Table], of: &Ra, tests: &RaTests) -> Result<Relation, RaFault>
    ensures { Gives is_memory result (spec.selected (spec.relation of.now tables.now) tests.now) }
{
    let rows = relation(alloc, tables, of)?;
    select(alloc, rows, tests)
}

#[cycle(walk)]
fn projected(alloc: Global, tables: &[Table], of: &Ra, names: &RaNames) -> Result<Relation, RaFault>
    ensures { Gives is_memory result (spec.projected (spec.relation of.now tables.now) names.now) }
{
    let rows = relation(alloc, tables, of)?;
    let names = texts(alloc, names)?;
    project(alloc, rows, names.as_slice())
}

#[cycle(walk)]
fn renamed(alloc: Global, tables: &[Table], of: &Ra, names: &RaNames) -> Result<Relation, RaFault>
    ensures { Gives is_memory result (spec.renamed (spec.relation of.now tables.now) names.now) }
{
    let rows = relation(alloc, tables, of)?;
    let names = texts(alloc, names)?;
    rename(alloc, rows, names.as_slice())
}

/// The query of the tree, with its columns, or its first error.
#[cycle(walk)]
pub(crate) fn relation(alloc: Global, tables: &[Table], of: &Ra) -> Result<Relation, RaFault>
    ensures { Gives is_memory result (spec.relation of.now tables.now) }
{
    match of {
        Ra::Table(name) => table_named(alloc, &name.text, tables),
        Ra::Select(of, tests) => selected(alloc, tables, of.get(), tests),
        Ra::Project(of, names) => projected(alloc, tables, of.get(), names),
        Ra::Rename(of, names) => renamed(alloc, tables, of.get(), names),
        Ra::Two(op, left, right) => {
            let first = relation(alloc, tables, left.get())?;
            let second = relation(alloc, tables, right.get())?;
            match *op {
                RaOp::Cross => cross(alloc, first, second),
                RaOp::Join => join(alloc, first, second),
                RaOp::Semi => semi_join(alloc, first, second),
                RaOp::Anti => anti_join(alloc, first, second),
                RaOp::LeftJoin => {
                    let first = doubled(alloc, tables, left.get(), first)?;
                    let second = doubled(alloc, tables, right.get(), second)?;
                    left_join(alloc, first, second)
                }
                RaOp::Divide => divided(alloc, tables, left.get(), first, second),
                RaOp::Union => united(alloc, SetOp::Union, first, second),
                RaOp::Except => united(alloc, SetOp::Except, first, second),
                RaOp::Intersect => united(alloc, SetOp::Intersect, first, second),
            }
        }
    }
}
