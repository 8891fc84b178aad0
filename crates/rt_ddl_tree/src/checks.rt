//! Reading the conditions of CHECK. What follows a form's first side decides which form is read.

ghost use Rattle.std.specs.Prelude.{◌≡◌};
ghost use Rattle.rt_ddl_tree.specs.TestReads as spec;
ghost use Rattle.rt_token.specs.Readers.{lead};
ghost use Rattle.rt_token.specs.Reads.{Reads};
ghost use Rattle.rt_token.specs.declared.fixed.Fixed.TheVariants as fixed;

use crate::counted::Counted;
use crate::member::{Member, in_parentheses, list};
use crate::test_tree::{Test, TestForm, TestLeaf, TestPart, TestSide};
use rt_token::{
    Fixed, ReadFault, Terminal, after, expect, flag, front, name_of, op_at, starts, tail,
};
use rt_value::List;
use std::alloc::Global;

// A name, a number or a text.
fn plain_side<'t>(
    alloc: Global,
    terminals: &'t [Terminal],
) -> Result<(TestSide, &'t [Terminal]), ReadFault>
    ensures { Reads result (spec.read_plain_side terminals.now) }
{
    match terminals {
        [Terminal::Name(name), rest @ ..] => Ok((
            TestSide::Column(name_of(alloc, &name.text, name.quoted)?),
            rest,
        )),
        [Terminal::Number(number), rest @ ..] => Ok((TestSide::Number(false, *number), rest)),
        [Terminal::Str(text), rest @ ..] => Ok((TestSide::Str(text.copy(alloc)?), rest)),
        _ => Err(ReadFault::Syntax(terminals.len())),
    }
}

// What follows a minus.
fn negative(terminals: &[Terminal]) -> Result<(TestSide, &[Terminal]), ReadFault>
    ensures { Reads result (spec.read_negative terminals.now) }
{
    match terminals {
        [Terminal::Number(number), rest @ ..] => Ok((TestSide::Number(true, *number), rest)),
        _ => Err(ReadFault::Syntax(terminals.len())),
    }
}

impl Member for TestSide {
    ghost use Rattle.rt_ddl_tree.specs.TestReads.{read_side};

    ghost parser = { read_side };

    #[tactic(auto, unfolding(crate::specs::TestReads::read_side))]
    fn read<'t>(
        alloc: Global,
        terminals: &'t [Terminal],
    ) -> Result<(TestSide, &'t [Terminal]), ReadFault> {
        if let Some(rest) = after(terminals, Fixed::Minus) {
            return negative(rest);
        }
        if let Some(rest) = after(terminals, Fixed::Null) {
            return Ok((TestSide::Null, rest));
        }
        plain_side(alloc, terminals)
    }
}

#[tactic(auto, unfolding(crate::specs::TestReads::read_compared))]
fn compared<'t>(
    alloc: Global,
    terminals: &'t [Terminal],
) -> Result<(TestForm, &'t [Terminal]), ReadFault>
    ensures { Reads result (spec.read_compared terminals.now) }
{
    let (left, rest) = TestSide::read(alloc, terminals)?;
    let Some(op) = op_at(front(rest)) else {
        return Err(ReadFault::Syntax(rest.len()));
    };
    let (right, rest) = TestSide::read(alloc, tail(rest))?;
    Ok((TestForm::Cmp(left, op, right), rest))
}

#[tactic(auto, unfolding(crate::specs::TestReads::read_is_null))]
fn is_null<'t>(
    alloc: Global,
    terminals: &'t [Terminal],
) -> Result<(TestForm, &'t [Terminal]), ReadFault>
    ensures { Reads result (spec.read_is_null terminals.now) }
{
    let (side, rest) = TestSide::read(alloc, terminals)?;
    let rest = expect(rest, Fixed::Is)?;
    let (not, rest) = flag(rest, Fixed::Not);
    let rest = expect(rest, Fixed::Null)?;
    Ok((TestForm::IsNull(side, not), rest))
}

// IN and its sides.
#[tactic(auto, unfolding(crate::specs::TestReads::read_sides))]
fn listed<'t>(
    alloc: Global,
    terminals: &'t [Terminal],
) -> Result<((TestSide, List<TestSide>), &'t [Terminal]), ReadFault>
    ensures { Reads result (lead fixed.In spec.read_sides terminals.now) }
{
    in_parentheses(alloc, expect(terminals, Fixed::In)?)
}

#[tactic(auto, unfolding(crate::specs::TestReads::read_one_of))]
fn one_of<'t>(
    alloc: Global,
    terminals: &'t [Terminal],
) -> Result<(TestForm, &'t [Terminal]), ReadFault>
    ensures { Reads result (spec.read_one_of terminals.now) }
{
    let (side, rest) = TestSide::read(alloc, terminals)?;
    let (not, rest) = flag(rest, Fixed::Not);
    let ((head, tail), rest) = listed(alloc, rest)?;
    Ok((TestForm::OneOf(side, not, head, tail), rest))
}

// BETWEEN and its bounds.
#[tactic(auto, unfolding(crate::specs::TestReads::read_bounds))]
fn bounds<'t>(
    alloc: Global,
    terminals: &'t [Terminal],
) -> Result<((TestSide, TestSide), &'t [Terminal]), ReadFault>
    ensures { Reads result (spec.read_bounds terminals.now) }
{
    let rest = expect(terminals, Fixed::Between)?;
    let (low, rest) = TestSide::read(alloc, rest)?;
    let rest = expect(rest, Fixed::And)?;
    let (high, rest) = TestSide::read(alloc, rest)?;
    Ok(((low, high), rest))
}

#[tactic(auto, unfolding(crate::specs::TestReads::read_between))]
fn between<'t>(
    alloc: Global,
    terminals: &'t [Terminal],
) -> Result<(TestForm, &'t [Terminal]), ReadFault>
    ensures { Reads result (spec.read_between terminals.now) }
{
    let (side, rest) = TestSide::read(alloc, terminals)?;
    let (not, rest) = flag(rest, Fixed::Not);
    let ((low, high), rest) = bounds(alloc, rest)?;
    Ok((TestForm::Between(side, not, low, high), rest))
}

// What follows the side at the front.
fn past_side(terminals: &[Terminal]) -> &[Terminal]
    ensures { result.now ≡ spec.past_side terminals.now }
{
    if starts(terminals, Fixed::Minus) {
        tail(tail(terminals))
    } else {
        tail(terminals)
    }
}

fn is_compared(terminals: &[Terminal]) -> bool
    ensures { result ≡ spec.is_compared terminals.now }
{
    op_at(front(past_side(terminals))).is_some()
}

fn is_null_test(terminals: &[Terminal]) -> bool
    ensures { result ≡ spec.is_null_test terminals.now }
{
    starts(past_side(terminals), Fixed::Is)
}

fn is_one_of(terminals: &[Terminal]) -> bool
    ensures { result ≡ spec.is_one_of terminals.now }
{
    starts(flag(past_side(terminals), Fixed::Not).1, Fixed::In)
}

#[tactic(auto, unfolding(crate::specs::TestReads::read_form))]
fn form<'t>(
    alloc: Global,
    terminals: &'t [Terminal],
) -> Result<(TestForm, &'t [Terminal]), ReadFault>
    ensures { Reads result (spec.read_form terminals.now) }
{
    if is_compared(terminals) {
        return compared(alloc, terminals);
    }
    if is_null_test(terminals) {
        return is_null(alloc, terminals);
    }
    if is_one_of(terminals) {
        return one_of(alloc, terminals);
    }
    between(alloc, terminals)
}

impl Member for TestLeaf {
    ghost use Rattle.rt_ddl_tree.specs.TestReads.{read_leaf};

    ghost parser = { read_leaf };

    #[tactic(auto, unfolding(crate::specs::TestReads::read_leaf))]
    fn read<'t>(
        alloc: Global,
        terminals: &'t [Terminal],
    ) -> Result<(TestLeaf, &'t [Terminal]), ReadFault> {
        let (not, rest) = flag(terminals, Fixed::Not);
        let (form, rest) = form(alloc, rest)?;
        Ok((TestLeaf { not, form }, rest))
    }
}

impl Member for TestPart {
    ghost use Rattle.rt_ddl_tree.specs.TestReads.{read_part};

    ghost parser = { read_part };

    #[tactic(auto, unfolding(crate::specs::TestReads::read_part))]
    fn read<'t>(
        alloc: Global,
        terminals: &'t [Terminal],
    ) -> Result<(TestPart, &'t [Terminal]), ReadFault> {
        let ((head, tail), rest) = list(alloc, terminals, Fixed::And)?;
        Ok((TestPart { head, tail }, rest))
    }
}

#[tactic(auto, unfolding(crate::specs::TestReads::read_test))]
fn test<'t>(
    alloc: Global,
    terminals: &'t [Terminal],
) -> Result<(Counted<Test>, &'t [Terminal]), ReadFault>
    ensures { Reads result (spec.read_test terminals.now) }
{
    let ((head, tail), rest) = list(alloc, terminals, Fixed::Or)?;
    let test = Counted::new(alloc, Test { head, tail })?;
    Ok((test, rest))
}

/// A condition in parentheses.
#[tactic(auto, unfolding(crate::specs::TestReads::read_condition))]
pub(crate) fn condition<'t>(
    alloc: Global,
    terminals: &'t [Terminal],
) -> Result<(Counted<Test>, &'t [Terminal]), ReadFault>
    ensures { Reads result (spec.read_condition terminals.now) }
{
    let rest = expect(terminals, Fixed::OpenParen)?;
    let (test, rest) = test(alloc, rest)?;
    let rest = expect(rest, Fixed::CloseParen)?;
    Ok((test, rest))
}
