//! From names to numbers: the tables and rules that the texts make, once all names are known.

ghost use Rattle.std.specs.Prelude.{◌≡◌, ◌++◌, ◌∷◌, [], IfOk, OnOk, map, option_map};
ghost use Rattle.std.specs.List.{flat_map};
ghost use Rattle.rt_ddl.specs.Meaning as spec;
ghost use Rattle.rt_ddl.specs.declared.parts.RuleText.TheVariants as told;
ghost use Rattle.rt_schema.specs.declared.table.Rule.TheVariants as made;

use crate::build_check::check_made;
use crate::known::{KnownTable, columns_of};
use crate::known_tables::KnownTables;
use crate::parts::{Part, RuleText};
use rt_schema::{Depend, Foreign, Rule, Table};
use rt_value::{List, NoMemory, Txt};
use std::alloc::Global;

fn columns_at(alloc: Global, table: &KnownTable, names: &[Txt]) -> Result<List<usize>, NoMemory>
    ensures { IfOk result (λ places. places ≡ spec.columns_at (spec.columns_of table.now.parts) names.now) }
{
    let mut places = List::new(alloc);
    for name in names {
        places.push(table.column_at(name))?;
    }
    Ok(places)
}

// The places of the referenced columns.
fn target(
    alloc: Global,
    table: Option<&KnownTable>,
    to: &Option<List<Txt>>,
) -> Result<List<usize>, NoMemory>
    ensures { IfOk result (λ places. places ≡ spec.target (option_map (λ t. t.now) table.entry) to.now) }
{
    let Some(table) = table else {
        return Ok(List::new(alloc));
    };
    match to {
        Some(to) => columns_at(alloc, table, to.as_slice()),
        None => columns_at(alloc, table, table.primary()),
    }
}

// Puts NOT NULL for each of the columns at the end of the rules.
fn push_not_null(rules: &mut List<Rule>, columns: &[usize]) -> Result<(), NoMemory>
    ensures { OnOk result (rules.new ≡ rules.old ++ map (λ c. made.NotNull c) columns.now) }
{
    for column in columns {
        rules.push(Rule::NotNull(*column))?;
    }
    Ok(())
}

// Puts a primary key and that its columns are NOT NULL at the end of the rules.
fn push_primary(
    alloc: Global,
    rules: &mut List<Rule>,
    table: &KnownTable,
    names: &[Txt],
) -> Result<(), NoMemory>
    ensures { let places = spec.columns_at (spec.columns_of table.now.parts) names.now in OnOk result (rules.new ≡ rules.old ++ made.Key places ∷ map (λ c. made.NotNull c) places) }
{
    rules.push(Rule::Key(columns_at(alloc, table, names)?))?;
    let not_null = columns_at(alloc, table, names)?;
    push_not_null(rules, not_null.as_slice())
}

fn foreign_of(
    alloc: Global,
    tables: &KnownTables,
    table: &KnownTable,
    from: &[Txt],
    name: &Txt,
    to: &Option<List<Txt>>,
) -> Result<Rule, NoMemory>
    ensures { IfOk result (λ key. key ∷ [] ≡ spec.rules_made tables.now (spec.columns_of table.now.parts) (told.Foreign from.now name.now to.now)) }
{
    let table_at = tables.place(name);
    let to = target(alloc, tables.named(name), to)?;
    let from = columns_at(alloc, table, from)?;
    Ok(Rule::Foreign(Foreign {
        from,
        table: table_at,
        to,
    }))
}

fn depend_of(alloc: Global, table: &KnownTable, from: &[Txt], to: &[Txt]) -> Result<Rule, NoMemory>
    ensures { let columns = spec.columns_of table.now.parts in IfOk result (λ rule. rule ≡ made.Depend (record { from = spec.columns_at columns from.now; to = spec.columns_at columns to.now })) }
{
    let from = columns_at(alloc, table, from)?;
    let to = columns_at(alloc, table, to)?;
    Ok(Rule::Depend(Depend { from, to }))
}

// Puts what a rule's text makes at the end of the rules.
fn push_rule(
    alloc: Global,
    rules: &mut List<Rule>,
    tables: &KnownTables,
    table: &KnownTable,
    rule: &RuleText,
) -> Result<(), NoMemory>
    ensures { OnOk result (rules.new ≡ rules.old ++ spec.rules_made tables.now (spec.columns_of table.now.parts) rule.now) }
{
    match rule {
        RuleText::NotNull(column) => rules.push(Rule::NotNull(table.column_at(column))),
        RuleText::PrimaryKey(names) => push_primary(alloc, rules, table, names.as_slice()),
        RuleText::Unique(names) => {
            rules.push(Rule::Key(columns_at(alloc, table, names.as_slice())?))
        }
        RuleText::Foreign(from, name, to) => {
            rules.push(foreign_of(alloc, tables, table, from.as_slice(), name, to)?)
        }
        RuleText::Check(test) => rules.push(Rule::Check(check_made(alloc, table, test.get())?)),
        RuleText::Depend(from, to) => {
            rules.push(depend_of(alloc, table, from.as_slice(), to.as_slice())?)
        }
    }
}

// Puts the rules that are items of the table, or those written with a column, at the end.
fn push_rules(
    alloc: Global,
    rules: &mut List<Rule>,
    of_table: bool,
    tables: &KnownTables,
    table: &KnownTable,
) -> Result<(), NoMemory>
    ensures { OnOk result (rules.new ≡ rules.old ++ flat_map (spec.part_rules of_table tables.now (spec.columns_of table.now.parts)) table.now.parts) }
{
    let parts = table.parts();
    for part in parts {
        if let Part::Rule(alone, rule) = part {
            if *alone == of_table {
                push_rule(alloc, rules, tables, table, rule)?;
            }
        }
    }
    Ok(())
}

fn table_of(alloc: Global, tables: &KnownTables, table: &KnownTable) -> Result<Table, NoMemory>
    ensures { IfOk result (λ t. t ≡ spec.table_of tables.now table.now) }
{
    let name = table.name().copy(alloc)?;
    let columns = columns_of(alloc, table.parts())?;
    let mut rules = List::new(alloc);
    push_rules(alloc, &mut rules, false, tables, table)?;
    push_rules(alloc, &mut rules, true, tables, table)?;
    Ok(Table {
        name,
        columns,
        rules,
    })
}

/// The tables that the texts make, in text order; the rules of columns come before the others. An
/// unknown name gets the number after the last one.
pub(crate) fn tables_of(alloc: Global, texts: &KnownTables) -> Result<List<Table>, NoMemory>
    ensures { IfOk result (λ tables. tables ≡ spec.tables_of texts.now) }
{
    let mut tables = List::new(alloc);
    for text in texts.as_slice() {
        tables.push(table_of(alloc, texts, text)?)?;
    }
    Ok(tables)
}
