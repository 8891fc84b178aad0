//! Reading a column: its name, its kind and the rules after it; and lists of names.

ghost use Rattle.std.specs.Prelude.{◌≡◌};
ghost use Rattle.rt_ddl_tree.specs.Reads as spec;
ghost use Rattle.rt_token.specs.Readers.{list_of, optional, paren, read_name, starts as starts_spec};
ghost use Rattle.rt_token.specs.Reads.{Reads};
ghost use Rattle.rt_token.specs.declared.fixed.Fixed.TheVariants as fixed;

use crate::checks::condition;
use crate::member::{Member, in_parentheses};
use crate::tree::{Column, ColumnConstraint, ColumnRule, KindWord, Names};
use rt_token::{
    Fixed, Name, ReadFault, Terminal, after, after_word, expect, expect_word, name, starts,
};
use rt_value::List;
use std::alloc::Global;

impl Member for Name {
    ghost parser = { read_name };

    fn read<'t>(
        alloc: Global,
        terminals: &'t [Terminal],
    ) -> Result<(Name, &'t [Terminal]), ReadFault> {
        name(alloc, terminals)
    }
}

/// Names in parentheses.
#[tactic(auto, unfolding(crate::specs::Reads::read_names))]
pub(crate) fn names<'t>(
    alloc: Global,
    terminals: &'t [Terminal],
) -> Result<(Names, &'t [Terminal]), ReadFault>
    ensures { Reads result (spec.read_names terminals.now) }
{
    let ((head, tail), rest) = in_parentheses(alloc, terminals)?;
    Ok((Names { head, tail }, rest))
}

/// Names in parentheses, or None where no parenthesis opens.
#[tactic(auto, unfolding(crate::specs::Reads::read_maybe_names))]
pub(crate) fn maybe_names<'t>(
    alloc: Global,
    terminals: &'t [Terminal],
) -> Result<(Option<Names>, &'t [Terminal]), ReadFault>
    ensures { Reads result (spec.read_maybe_names terminals.now) }
{
    if !starts(terminals, Fixed::OpenParen) {
        return Ok((None, terminals));
    }
    let (names, rest) = names(alloc, terminals)?;
    Ok((Some(names), rest))
}

// The number in parentheses after CHAR or VARCHAR.
#[tactic(auto, unfolding(crate::specs::Reads::read_size))]
fn size(terminals: &[Terminal]) -> Result<(Option<i128>, &[Terminal]), ReadFault>
    ensures { Reads result (spec.read_size terminals.now) }
{
    if !starts(terminals, Fixed::OpenParen) {
        return Ok((None, terminals));
    }
    match expect(terminals, Fixed::OpenParen)? {
        [Terminal::Number(number), rest @ ..] => {
            Ok((Some(*number), expect(rest, Fixed::CloseParen)?))
        }
        rest => Err(ReadFault::Syntax(rest.len())),
    }
}

fn sized_kind(terminals: &[Terminal]) -> Result<(KindWord, &[Terminal]), ReadFault>
    ensures { Reads result (spec.read_sized_kind terminals.now) }
{
    if let Some(rest) = after_word(terminals, "char") {
        let (size, rest) = size(rest)?;
        return Ok((KindWord::Char(size), rest));
    }
    if let Some(rest) = after_word(terminals, "varchar") {
        let (size, rest) = size(rest)?;
        return Ok((KindWord::VarChar(size), rest));
    }
    Err(ReadFault::Syntax(terminals.len()))
}

#[tactic(auto, unfolding(crate::specs::Reads::read_kind))]
fn kind(terminals: &[Terminal]) -> Result<(KindWord, &[Terminal]), ReadFault>
    ensures { Reads result (spec.read_kind terminals.now) }
{
    if let Some(rest) = after_word(terminals, "integer") {
        return Ok((KindWord::Integer, rest));
    }
    if let Some(rest) = after_word(terminals, "int") {
        return Ok((KindWord::Int, rest));
    }
    if let Some(rest) = after_word(terminals, "bigint") {
        return Ok((KindWord::BigInt, rest));
    }
    if let Some(rest) = after_word(terminals, "text") {
        return Ok((KindWord::Text, rest));
    }
    sized_kind(terminals)
}

fn maybe_name<'t>(
    alloc: Global,
    terminals: &'t [Terminal],
) -> Result<(Option<Name>, &'t [Terminal]), ReadFault>
    ensures { Reads result (optional (starts_spec fixed.OpenParen) (paren read_name) terminals.now) }
{
    if !starts(terminals, Fixed::OpenParen) {
        return Ok((None, terminals));
    }
    let rest = expect(terminals, Fixed::OpenParen)?;
    let (name, rest) = name(alloc, rest)?;
    Ok((Some(name), expect(rest, Fixed::CloseParen)?))
}

#[tactic(auto, unfolding(crate::specs::Reads::read_references))]
fn references<'t>(
    alloc: Global,
    terminals: &'t [Terminal],
) -> Result<((Name, Option<Name>), &'t [Terminal]), ReadFault>
    ensures { Reads result (spec.read_references terminals.now) }
{
    let (table, rest) = name(alloc, terminals)?;
    let (column, rest) = maybe_name(alloc, rest)?;
    Ok(((table, column), rest))
}

fn other_column_rule<'t>(
    alloc: Global,
    terminals: &'t [Terminal],
) -> Result<(ColumnRule, &'t [Terminal]), ReadFault>
    ensures { Reads result (spec.read_other_column_rule terminals.now) }
{
    if let Some(rest) = after(terminals, Fixed::Unique) {
        return Ok((ColumnRule::Unique, rest));
    }
    if let Some(rest) = after(terminals, Fixed::Check) {
        let (test, rest) = condition(alloc, rest)?;
        return Ok((ColumnRule::Check(test), rest));
    }
    let rest = expect(terminals, Fixed::References)?;
    let ((table, column), rest) = references(alloc, rest)?;
    Ok((ColumnRule::References(table, column), rest))
}

#[tactic(auto, unfolding(crate::specs::Reads::read_column_rule))]
fn column_rule<'t>(
    alloc: Global,
    terminals: &'t [Terminal],
) -> Result<(ColumnRule, &'t [Terminal]), ReadFault>
    ensures { Reads result (spec.read_column_rule terminals.now) }
{
    if let Some(rest) = after(terminals, Fixed::Not) {
        let rest = expect(rest, Fixed::Null)?;
        return Ok((ColumnRule::NotNull, rest));
    }
    if let Some(rest) = after(terminals, Fixed::Null) {
        return Ok((ColumnRule::Null, rest));
    }
    if let Some(rest) = after(terminals, Fixed::Primary) {
        let rest = expect_word(rest, "key")?;
        return Ok((ColumnRule::PrimaryKey, rest));
    }
    other_column_rule(alloc, terminals)
}

/// The name after CONSTRAINT, if the terminals begin with that.
#[tactic(auto, unfolding(crate::specs::Reads::read_constraint))]
pub(crate) fn constraint<'t>(
    alloc: Global,
    terminals: &'t [Terminal],
) -> Result<(Option<Name>, &'t [Terminal]), ReadFault>
    ensures { Reads result (spec.read_constraint terminals.now) }
{
    if !starts(terminals, Fixed::Constraint) {
        return Ok((None, terminals));
    }
    let rest = expect(terminals, Fixed::Constraint)?;
    let (name, rest) = name(alloc, rest)?;
    Ok((Some(name), rest))
}

#[tactic(auto, unfolding(crate::specs::Reads::read_column_constraint))]
fn column_constraint<'t>(
    alloc: Global,
    terminals: &'t [Terminal],
) -> Result<(ColumnConstraint, &'t [Terminal]), ReadFault>
    ensures { Reads result (spec.read_column_constraint terminals.now) }
{
    let (name, rest) = constraint(alloc, terminals)?;
    let (rule, rest) = column_rule(alloc, rest)?;
    Ok((ColumnConstraint { name, rule }, rest))
}

fn is_column_rule(terminals: &[Terminal]) -> bool
    ensures { result ≡ spec.is_column_rule terminals.now }
{
    starts(terminals, Fixed::Constraint)
        || (starts(terminals, Fixed::Not)
            || (starts(terminals, Fixed::Null)
                || (starts(terminals, Fixed::Primary)
                    || (starts(terminals, Fixed::Unique)
                        || (starts(terminals, Fixed::References)
                            || starts(terminals, Fixed::Check))))))
}

fn column_constraints<'t>(
    alloc: Global,
    terminals: &'t [Terminal],
) -> Result<(List<ColumnConstraint>, &'t [Terminal]), ReadFault>
    ensures { Reads result (list_of spec.column_constraint_step terminals.now) }
{
    let mut items = List::new(alloc);
    let mut rest = terminals;
    'items: while is_column_rule(rest) {
        let (item, more) = column_constraint(alloc, rest)?;
        items.push(item)?;
        rest = more;
    }
    Ok((items, rest))
}

/// The column at the front, with its rules, and what follows it.
#[tactic(auto, unfolding(crate::specs::Reads::read_column))]
pub(crate) fn column<'t>(
    alloc: Global,
    terminals: &'t [Terminal],
) -> Result<(Column, &'t [Terminal]), ReadFault>
    ensures { Reads result (spec.read_column terminals.now) }
{
    let (name, rest) = name(alloc, terminals)?;
    let (kind, rest) = kind(rest)?;
    let (rules, rest) = column_constraints(alloc, rest)?;
    Ok((Column { name, kind, rules }, rest))
}
