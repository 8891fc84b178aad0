//! Reading a table: its rules, its columns and rules in turn, and the whole text of tables.

ghost use Rattle.std.specs.Prelude.{◌≡◌, codes};
ghost use Rattle.rt_ddl_tree.specs.Reads as spec;
ghost use Rattle.rt_token.specs.Readers.{both, lead, lead_word, list_of, made as made_spec, read_name};
ghost use Rattle.rt_token.specs.Reads.{Answers, Reads};
ghost use Rattle.rt_token.specs.declared.fixed.Fixed.TheVariants as fixed;

use crate::checks::condition;
use crate::columns::{column, constraint, maybe_names, names};
use crate::member::{Member, in_parentheses};
use crate::tree::{Create, Item, Names, SchemaText, TableRule};
use rt_token::{
    Fixed, Name, ReadFault, Terminal, after, after_word, end, expect, expect_word, name, starts,
    tail,
};
use rt_value::List;
use std::alloc::Global;

// REFERENCES, a table and its columns.
fn references<'t>(
    alloc: Global,
    terminals: &'t [Terminal],
) -> Result<((Name, Option<Names>), &'t [Terminal]), ReadFault>
    ensures { Reads result (lead fixed.References (both read_name spec.read_maybe_names) terminals.now) }
{
    let rest = expect(terminals, Fixed::References)?;
    let (table, rest) = name(alloc, rest)?;
    let (to, rest) = maybe_names(alloc, rest)?;
    Ok(((table, to), rest))
}

// What follows FOREIGN KEY.
#[tactic(auto, unfolding(crate::specs::Reads::read_foreign))]
fn foreign<'t>(
    alloc: Global,
    terminals: &'t [Terminal],
) -> Result<((Names, (Name, Option<Names>)), &'t [Terminal]), ReadFault>
    ensures { Reads result (spec.read_foreign terminals.now) }
{
    let (from, rest) = names(alloc, terminals)?;
    let (references, rest) = references(alloc, rest)?;
    Ok(((from, references), rest))
}

// Names after KEY.
fn key_names<'t>(
    alloc: Global,
    terminals: &'t [Terminal],
) -> Result<(Names, &'t [Terminal]), ReadFault>
    ensures { Reads result (lead_word (codes "key") spec.read_names terminals.now) }
{
    names(alloc, expect_word(terminals, "key")?)
}

// A foreign key from KEY on.
fn key_foreign<'t>(
    alloc: Global,
    terminals: &'t [Terminal],
) -> Result<((Names, (Name, Option<Names>)), &'t [Terminal]), ReadFault>
    ensures { Reads result (lead_word (codes "key") spec.read_foreign terminals.now) }
{
    foreign(alloc, expect_word(terminals, "key")?)
}

// Names after DETERMINES.
fn determined<'t>(
    alloc: Global,
    terminals: &'t [Terminal],
) -> Result<(Names, &'t [Terminal]), ReadFault>
    ensures { Reads result (lead_word (codes "determines") spec.read_names terminals.now) }
{
    names(alloc, expect_word(terminals, "determines")?)
}

// What follows DEPENDENCY.
#[tactic(auto, unfolding(crate::specs::Reads::read_depend))]
fn depend<'t>(
    alloc: Global,
    terminals: &'t [Terminal],
) -> Result<((Names, Names), &'t [Terminal]), ReadFault>
    ensures { Reads result (spec.read_depend terminals.now) }
{
    let (from, rest) = names(alloc, terminals)?;
    let (to, rest) = determined(alloc, rest)?;
    Ok(((from, to), rest))
}

fn other_table_rule<'t>(
    alloc: Global,
    terminals: &'t [Terminal],
) -> Result<(TableRule, &'t [Terminal]), ReadFault>
    ensures { Reads result (spec.read_other_table_rule terminals.now) }
{
    if let Some(rest) = after(terminals, Fixed::Check) {
        let (test, rest) = condition(alloc, rest)?;
        return Ok((TableRule::Check(test), rest));
    }
    let rest = expect_word(terminals, "dependency")?;
    let ((from, to), rest) = depend(alloc, rest)?;
    Ok((TableRule::Depend(from, to), rest))
}

#[tactic(auto, unfolding(crate::specs::Reads::read_table_rule))]
fn table_rule<'t>(
    alloc: Global,
    terminals: &'t [Terminal],
) -> Result<(TableRule, &'t [Terminal]), ReadFault>
    ensures { Reads result (spec.read_table_rule terminals.now) }
{
    if let Some(rest) = after(terminals, Fixed::Primary) {
        let (columns, rest) = key_names(alloc, rest)?;
        return Ok((TableRule::PrimaryKey(columns), rest));
    }
    if let Some(rest) = after(terminals, Fixed::Unique) {
        let (columns, rest) = names(alloc, rest)?;
        return Ok((TableRule::Unique(columns), rest));
    }
    if let Some(rest) = after(terminals, Fixed::Foreign) {
        let ((from, (table, to)), rest) = key_foreign(alloc, rest)?;
        return Ok((TableRule::Foreign(from, table, to), rest));
    }
    other_table_rule(alloc, terminals)
}

// Whether DEPENDENCY comes next as a keyword, and not as a column's name: it isn't reserved, and a
// parenthesis follows the keyword alone.
fn is_dependency(terminals: &[Terminal]) -> bool
    ensures { result ≡ spec.is_dependency terminals.now }
{
    starts(tail(terminals), Fixed::OpenParen) && after_word(terminals, "dependency").is_some()
}

fn is_table_rule(terminals: &[Terminal]) -> bool
    ensures { result ≡ spec.is_table_rule terminals.now }
{
    starts(terminals, Fixed::Constraint)
        || (starts(terminals, Fixed::Primary)
            || (starts(terminals, Fixed::Unique)
                || (starts(terminals, Fixed::Foreign)
                    || (starts(terminals, Fixed::Check) || is_dependency(terminals)))))
}

impl Member for Item {
    ghost use Rattle.rt_ddl_tree.specs.Reads.{read_item};

    ghost parser = { read_item };

    #[tactic(auto, unfolding(crate::specs::Reads::read_item))]
    fn read<'t>(
        alloc: Global,
        terminals: &'t [Terminal],
    ) -> Result<(Item, &'t [Terminal]), ReadFault> {
        if is_table_rule(terminals) {
            let (name, rest) = constraint(alloc, terminals)?;
            let (rule, rest) = table_rule(alloc, rest)?;
            return Ok((Item::Rule(name, rule), rest));
        }
        let (column, rest) = column(alloc, terminals)?;
        Ok((Item::Column(column), rest))
    }
}

// A table's name and what it is made of.
#[tactic(auto, unfolding(crate::specs::Reads::read_made, crate::specs::Reads::read_items))]
fn made<'t>(
    alloc: Global,
    terminals: &'t [Terminal],
) -> Result<((Name, (Item, List<Item>)), &'t [Terminal]), ReadFault>
    ensures { Reads result (spec.read_made terminals.now) }
{
    let (name, rest) = name(alloc, terminals)?;
    let (items, rest) = in_parentheses(alloc, rest)?;
    Ok(((name, items), rest))
}

// Whether IF comes next as a keyword, and not as the table's name: NOT follows the keyword alone.
fn is_if(terminals: &[Terminal]) -> bool
    ensures { result ≡ spec.is_if terminals.now }
{
    match terminals {
        [_, rest @ ..] => starts(rest, Fixed::Not),
        _ => false,
    }
}

fn created<'t>(
    alloc: Global,
    if_not_exists: bool,
    terminals: &'t [Terminal],
) -> Result<(Create, &'t [Terminal]), ReadFault>
    ensures { Reads result (made_spec (spec.create_of if_not_exists) spec.read_made terminals.now) }
{
    let ((name, (head, tail)), rest) = made(alloc, terminals)?;
    Ok((
        Create {
            if_not_exists,
            name,
            head,
            tail,
        },
        rest,
    ))
}

#[tactic(auto, unfolding(crate::specs::Reads::read_create))]
fn create<'t>(
    alloc: Global,
    terminals: &'t [Terminal],
) -> Result<(Create, &'t [Terminal]), ReadFault>
    ensures { Reads result (spec.read_create terminals.now) }
{
    let rest = expect(expect(terminals, Fixed::Create)?, Fixed::Table)?;
    if is_if(rest) {
        let rest = expect_word(rest, "if")?;
        let rest = expect(expect(rest, Fixed::Not)?, Fixed::Exists)?;
        return created(alloc, true, rest);
    }
    created(alloc, false, rest)
}

// Whether another table follows a semicolon.
fn starts_more(terminals: &[Terminal]) -> bool
    ensures { result ≡ spec.starts_more terminals.now }
{
    match terminals {
        [_, rest @ ..] => starts(terminals, Fixed::Semicolon) && starts(rest, Fixed::Create),
        _ => false,
    }
}

fn next_create<'t>(
    alloc: Global,
    terminals: &'t [Terminal],
) -> Result<(Create, &'t [Terminal]), ReadFault>
    ensures { Reads result (lead fixed.Semicolon spec.read_create terminals.now) }
{
    create(alloc, expect(terminals, Fixed::Semicolon)?)
}

fn more_creates<'t>(
    alloc: Global,
    terminals: &'t [Terminal],
) -> Result<(List<Create>, &'t [Terminal]), ReadFault>
    ensures { Reads result (list_of spec.create_step terminals.now) }
{
    let mut items = List::new(alloc);
    let mut rest = terminals;
    'items: while starts_more(rest) {
        let (item, more) = next_create(alloc, rest)?;
        items.push(item)?;
        rest = more;
    }
    Ok((items, rest))
}

// A table and those after it.
fn creates<'t>(
    alloc: Global,
    terminals: &'t [Terminal],
) -> Result<((Create, List<Create>), &'t [Terminal]), ReadFault>
    ensures { Reads result (both spec.read_create (list_of spec.create_step) terminals.now) }
{
    let (head, rest) = create(alloc, terminals)?;
    let (tail, rest) = more_creates(alloc, rest)?;
    Ok(((head, tail), rest))
}

/// The tree of all the terminals.
#[tactic(auto, unfolding(crate::specs::Reads::read_text))]
pub(crate) fn text(alloc: Global, terminals: &[Terminal]) -> Result<SchemaText, ReadFault>
    ensures { Answers result (spec.read_text terminals.now) }
{
    if terminals.is_empty() {
        return Ok(SchemaText::Empty);
    }
    let ((head, tail), rest) = creates(alloc, terminals)?;
    let semi = end(rest)?;
    Ok(SchemaText::Creates(head, tail, semi))
}
