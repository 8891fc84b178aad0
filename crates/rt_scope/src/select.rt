//! The items of a SELECT, their types and their names.

ghost use Rattle.std.specs.Prelude.{◌≡◌, IfOk, Ok, map};
ghost use Rattle.rt_scope.specs.Fault.{is_memory};
ghost use Rattle.rt_scope.specs.Select as spec;
ghost use Rattle.rt_value.specs.Gives.{Gives};

use crate::column::Column;
use crate::fault::NameFault;
use crate::lookup::after;
use crate::scalar::Scalar;
use crate::source::{Source, source_named};
use crate::sums::{has_more, sum};
use rt_algebra::Expr;
use rt_token::Name;
use rt_tree::{Alias, Factor, Item, Items, Leaf, Mul, Sum};
use rt_value::{List, NoMemory, Txt};
use std::alloc::Global;

/// The items of a SELECT: their expressions, and the columns that they make.
#[derive(Drop)]
pub struct SelectList {
    pub exprs: List<Expr>,
    pub columns: List<Column>,
}

fn with_column(list: SelectList, expr: Expr, column: Column) -> Result<SelectList, NoMemory>
    ensures { IfOk result (λ more. more ≡ spec.with_column list expr column) }
{
    let SelectList {
        mut exprs,
        mut columns,
    } = list;
    exprs.push(expr)?;
    columns.push(column)?;
    Ok(SelectList { exprs, columns })
}

fn with_columns(
    alloc: Global,
    start: SelectList,
    first: usize,
    columns: &[Column],
) -> Result<SelectList, NameFault>
    ensures { Gives is_memory result (Ok (spec.with_columns start first columns.now)) }
{
    let mut list = start;
    let mut at = first;
    for column in columns {
        let copy = column.copy(alloc)?;
        list = with_column(list, Expr::Col(0, at), copy)?;
        at = after(at)?;
    }
    Ok(list)
}

fn with_sources(
    alloc: Global,
    start: SelectList,
    sources: &[Source],
) -> Result<SelectList, NameFault>
    ensures { Gives is_memory result (Ok (spec.with_sources start sources.now)) }
{
    let mut list = start;
    for source in sources {
        list = with_columns(alloc, list, source.start, source.columns.as_slice())?;
    }
    Ok(list)
}

// The name of a leaf that is just a column.
fn leaf_name(alloc: Global, of: &Leaf) -> Result<Option<Txt>, NoMemory>
    ensures { IfOk result (λ name. name ≡ spec.leaf_name of.now) }
{
    match of {
        Leaf::Col(_, name) => Ok(Some(name.text.copy(alloc)?)),
        _ => Ok(None),
    }
}

fn factor_name(alloc: Global, of: &Factor) -> Result<Option<Txt>, NoMemory>
    ensures { IfOk result (λ name. name ≡ spec.factor_name of.now) }
{
    if of.minuses == 0 {
        leaf_name(alloc, &of.of)
    } else {
        Ok(None)
    }
}

#[tactic(auto, using(crate::proofs::More::more_map))]
fn mul_name(alloc: Global, of: &Mul) -> Result<Option<Txt>, NoMemory>
    ensures { IfOk result (λ name. name ≡ spec.mul_name of.now) }
{
    if has_more(of.tail.as_slice()) {
        Ok(None)
    } else {
        factor_name(alloc, &of.head)
    }
}

#[tactic(auto, using(crate::proofs::More::more_map))]
fn sum_name(alloc: Global, of: &Sum) -> Result<Option<Txt>, NoMemory>
    ensures { IfOk result (λ name. name ≡ spec.sum_name of.now) }
{
    if has_more(of.tail.as_slice()) {
        Ok(None)
    } else {
        mul_name(alloc, &of.head)
    }
}

fn item_name(alloc: Global, alias: &Option<Alias>, of: &Sum) -> Result<Option<Txt>, NoMemory>
    ensures { IfOk result (λ name. name ≡ spec.item_name alias.now of.now) }
{
    match alias {
        Some(alias) => Ok(Some(alias.name.text.copy(alloc)?)),
        None => sum_name(alloc, of),
    }
}

fn with_value(list: SelectList, name: Option<Txt>, x: Scalar) -> Result<SelectList, NameFault>
    ensures { Gives is_memory result (spec.with_value list name x x.kind) }
{
    let Scalar { expr, kind, bound } = x;
    let Some(kind) = kind else {
        return Err(NameFault::TypeMismatch);
    };
    Ok(with_column(list, expr, Column { name, kind, bound })?)
}

fn with_item(
    alloc: Global,
    list: SelectList,
    item: &Item,
    own: &[Source],
    scopes: &[&[Source]],
) -> Result<SelectList, NameFault>
    ensures { Gives is_memory result (spec.with_item list item.now own.now (map (λ s. s.now) scopes.now)) }
{
    match item {
        Item::All(name) => match source_named(&name.text, own) {
            Some(source) => with_columns(alloc, list, source.start, source.columns.as_slice()),
            None => Err(NameFault::UnknownTable(name.text.copy(alloc)?)),
        },
        Item::One(of, alias) => {
            let x = sum(alloc, of, scopes)?;
            let name = item_name(alloc, alias, of)?;
            with_value(list, name, x)
        }
    }
}

fn with_items(
    alloc: Global,
    start: SelectList,
    items: &[Item],
    own: &[Source],
    scopes: &[&[Source]],
) -> Result<SelectList, NameFault>
    ensures { Gives is_memory result (spec.with_items start items.now own.now (map (λ s. s.now) scopes.now)) }
{
    let mut list = start;
    for item in items {
        list = with_item(alloc, list, item, own, scopes)?;
    }
    Ok(list)
}

/// The items over the sources of their own SELECT and over all scopes, of which that SELECT's is
/// the first.
pub fn select_list(
    alloc: Global,
    items: &Items,
    own: &[Source],
    scopes: &[&[Source]],
) -> Result<SelectList, NameFault>
    ensures { Gives is_memory result (spec.select_list items.now own.now (map (λ s. s.now) scopes.now)) }
{
    let none = SelectList {
        exprs: List::new(alloc),
        columns: List::new(alloc),
    };
    match items {
        Items::Star => with_sources(alloc, none, own),
        Items::Some(head, tail) => {
            let first = with_item(alloc, none, head, own, scopes)?;
            with_items(alloc, first, tail.as_slice(), own, scopes)
        }
    }
}
