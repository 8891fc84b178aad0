//! From the tree of a schema text to what it says, part by part.

ghost use Rattle.std.specs.Prelude.{◌≡◌, ◌++◌, ◌∷◌, [], IfOk, OnOk, map, option_map};
ghost use Rattle.std.specs.List.{flat_map};
ghost use Rattle.rt_ddl.specs.Parts as spec;
ghost use Rattle.rt_ddl.specs.declared.parts.RuleText.TheVariants as rule_texts;

use crate::known::KnownTable;
use crate::known_tables::KnownTables;
use crate::parts::{Part, RuleText, TableText};
use rt_ddl_tree::{
    Column, ColumnConstraint, ColumnRule, Create, Item, KindWord, Names, SchemaText, TableRule,
};
use rt_schema::ColKind;
use rt_token::Name;
use rt_value::{List, NoMemory, Txt};
use std::alloc::Global;

fn names_of(alloc: Global, names: &Names) -> Result<List<Txt>, NoMemory>
    ensures { IfOk result (λ texts. texts ≡ spec.names_of names.now) }
{
    let mut texts = List::new(alloc);
    texts.push(names.head.text.copy(alloc)?)?;
    for name in names.tail.as_slice() {
        texts.push(name.text.copy(alloc)?)?;
    }
    Ok(texts)
}

fn maybe_names_of(alloc: Global, names: &Option<Names>) -> Result<Option<List<Txt>>, NoMemory>
    ensures { IfOk result (λ texts. texts ≡ option_map spec.names_of names.now) }
{
    match names {
        Some(names) => Ok(Some(names_of(alloc, names)?)),
        None => Ok(None),
    }
}

// The list of one name.
fn only(alloc: Global, name: &Txt) -> Result<List<Txt>, NoMemory>
    ensures { IfOk result (λ texts. texts ≡ name.now ∷ []) }
{
    let mut texts = List::new(alloc);
    texts.push(name.copy(alloc)?)?;
    Ok(texts)
}

fn maybe_only(alloc: Global, name: &Option<Name>) -> Result<Option<List<Txt>>, NoMemory>
    ensures { IfOk result (λ texts. texts ≡ option_map (λ n. n.text ∷ []) name.now) }
{
    match name {
        Some(name) => Ok(Some(only(alloc, &name.text)?)),
        None => Ok(None),
    }
}

fn kind_of(kind: &KindWord) -> ColKind
    ensures { result ≡ spec.kind_of kind.now }
{
    match kind {
        KindWord::Integer => ColKind::Whole,
        KindWord::Int => ColKind::Whole,
        KindWord::BigInt => ColKind::Whole,
        KindWord::Text => ColKind::Text,
        KindWord::Char(_) => ColKind::Text,
        KindWord::VarChar(_) => ColKind::Text,
    }
}

// The foreign key of the column of this name.
fn column_foreign(
    alloc: Global,
    column: &Txt,
    table: &Txt,
    to: &Option<Name>,
) -> Result<RuleText, NoMemory>
    ensures { IfOk result (λ r. r ≡ rule_texts.Foreign (column.now ∷ []) table.now (option_map (λ n. n.text ∷ []) to.now)) }
{
    let from = only(alloc, column)?;
    let table = table.copy(alloc)?;
    Ok(RuleText::Foreign(from, table, maybe_only(alloc, to)?))
}

// The rule written with the column of this name, unless it has no effect.
fn column_rule(alloc: Global, column: &Txt, rule: &ColumnRule) -> Result<Option<RuleText>, NoMemory>
    ensures { IfOk result (λ r. spec.rule_parts r ≡ spec.column_rule_parts column.now rule.now) }
{
    match rule {
        ColumnRule::NotNull => Ok(Some(RuleText::NotNull(column.copy(alloc)?))),
        ColumnRule::Null => Ok(None),
        ColumnRule::PrimaryKey => Ok(Some(RuleText::PrimaryKey(only(alloc, column)?))),
        ColumnRule::Unique => Ok(Some(RuleText::Unique(only(alloc, column)?))),
        ColumnRule::References(table, to) => {
            Ok(Some(column_foreign(alloc, column, &table.text, to)?))
        }
        ColumnRule::Check(test) => Ok(Some(RuleText::Check(test.share()?))),
    }
}

// Puts the rules of a column at the end of the parts.
fn push_column_rules(
    alloc: Global,
    parts: &mut List<Part>,
    column: &Txt,
    rules: &[ColumnConstraint],
) -> Result<(), NoMemory>
    ensures { OnOk result (parts.new ≡ parts.old ++ flat_map (λ r. spec.column_rule_parts column.now r.rule) rules.now) }
{
    for constraint in rules {
        if let Some(rule) = column_rule(alloc, column, &constraint.rule)? {
            parts.push(Part::Rule(false, rule))?;
        }
    }
    Ok(())
}

fn push_column(alloc: Global, parts: &mut List<Part>, column: &Column) -> Result<(), NoMemory>
    ensures { OnOk result (parts.new ≡ parts.old ++ spec.column_parts column.now) }
{
    let name = column.name.text.copy(alloc)?;
    let kind = kind_of(&column.kind);
    parts.push(Part::Column(rt_schema::Column { name, kind }))?;
    push_column_rules(alloc, parts, &column.name.text, column.rules.as_slice())
}

fn table_foreign(
    alloc: Global,
    from: &Names,
    table: &Txt,
    to: &Option<Names>,
) -> Result<RuleText, NoMemory>
    ensures { IfOk result (λ r. r ≡ rule_texts.Foreign (spec.names_of from.now) table.now (option_map spec.names_of to.now)) }
{
    let from = names_of(alloc, from)?;
    let table = table.copy(alloc)?;
    Ok(RuleText::Foreign(from, table, maybe_names_of(alloc, to)?))
}

fn table_rule(alloc: Global, rule: &TableRule) -> Result<RuleText, NoMemory>
    ensures { IfOk result (λ r. r ≡ spec.table_rule_text rule.now) }
{
    match rule {
        TableRule::PrimaryKey(columns) => Ok(RuleText::PrimaryKey(names_of(alloc, columns)?)),
        TableRule::Unique(columns) => Ok(RuleText::Unique(names_of(alloc, columns)?)),
        TableRule::Foreign(from, table, to) => table_foreign(alloc, from, &table.text, to),
        TableRule::Check(test) => Ok(RuleText::Check(test.share()?)),
        TableRule::Depend(from, to) => {
            let from = names_of(alloc, from)?;
            Ok(RuleText::Depend(from, names_of(alloc, to)?))
        }
    }
}

fn push_item(alloc: Global, parts: &mut List<Part>, item: &Item) -> Result<(), NoMemory>
    ensures { OnOk result (parts.new ≡ parts.old ++ spec.item_parts item.now) }
{
    match item {
        Item::Column(column) => push_column(alloc, parts, column),
        Item::Rule(_, rule) => {
            parts.push(Part::Rule(true, table_rule(alloc, rule)?))?;
            Ok(())
        }
    }
}

fn table_text(alloc: Global, create: &Create) -> Result<TableText, NoMemory>
    ensures { IfOk result (λ t. t ≡ spec.table_text create.now) }
{
    let name = create.name.text.copy(alloc)?;
    let mut parts = List::new(alloc);
    push_item(alloc, &mut parts, &create.head)?;
    for item in create.tail.as_slice() {
        push_item(alloc, &mut parts, item)?;
    }
    Ok(TableText { name, parts })
}

fn known_table(alloc: Global, create: &Create) -> Result<KnownTable, NoMemory>
    ensures { IfOk result (λ t. t ≡ spec.table_text create.now) }
{
    let text = table_text(alloc, create)?;
    KnownTable::of(alloc, text)
}

// The tables with one more at the end.
fn with_created(
    alloc: Global,
    tables: KnownTables,
    create: &Create,
) -> Result<KnownTables, NoMemory>
    ensures { IfOk result (λ ts. ts ≡ tables ++ spec.table_text create.now ∷ []) }
{
    let table = known_table(alloc, create)?;
    tables.with(alloc, table)
}

fn created(alloc: Global, head: &Create, tail: &[Create]) -> Result<KnownTables, NoMemory>
    ensures { IfOk result (λ ts. ts ≡ spec.table_text head.now ∷ map spec.table_text tail.now) }
{
    let mut tables = with_created(alloc, KnownTables::new(alloc), head)?;
    for create in tail {
        tables = with_created(alloc, tables, create)?;
    }
    Ok(tables)
}

/// The tables of a text, in text order.
pub(crate) fn table_texts(alloc: Global, text: &SchemaText) -> Result<KnownTables, NoMemory>
    ensures { IfOk result (λ ts. ts ≡ spec.table_texts text.now) }
{
    match text {
        SchemaText::Empty => Ok(KnownTables::new(alloc)),
        SchemaText::Creates(head, tail, _) => created(alloc, head, tail.as_slice()),
    }
}
