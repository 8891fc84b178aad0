//! The third test: foreign keys whose columns match in number and kind those they refer to.

ghost use Rattle.std.specs.Prelude.{◌≡◌, option_map};
ghost use Rattle.std.specs.List.{list_all};
ghost use Rattle.rt_ddl.specs.Meaning as spec;
ghost use Rattle.rt_ddl.specs.Matches.{part_matches, rules_match, target_matches};
ghost use Rattle.rt_schema.specs.Schema.{columns_match, same_kind};

use crate::known::KnownTable;
use crate::known_tables::KnownTables;
use crate::parts::{Part, RuleText};
use rt_schema::Column;
use rt_value::{List, Txt};

fn same_kind(column: Option<&Column>, other: Option<&Column>) -> bool
    ensures { result ≡ same_kind (option_map (λ c. c.now) column.entry) (option_map (λ c. c.now) other.entry) }
{
    match (column, other) {
        (Some(column), Some(other)) => column.kind == other.kind,
        _ => false,
    }
}

fn columns_match(table: &KnownTable, from: &[Txt], other: &KnownTable, to: &[Txt]) -> bool
    ensures { result ≡ columns_match (spec.columns_of table.now.parts) (spec.columns_at (spec.columns_of table.now.parts) from.now) (spec.columns_of other.now.parts) (spec.columns_at (spec.columns_of other.now.parts) to.now) }
{
    let mut left = from;
    let mut right = to;
    'columns: while let [name, left_rest @ ..] = left {
        let [other_name, right_rest @ ..] = right else {
            return false;
        };
        if !same_kind(table.column(name), other.column(other_name)) {
            return false;
        }
        left = left_rest;
        right = right_rest;
    }
    right.is_empty()
}

// Whether the columns of a foreign key match those of the table that it refers to.
fn target_matches(
    table: &KnownTable,
    from: &[Txt],
    other: Option<&KnownTable>,
    to: &Option<List<Txt>>,
) -> bool
    ensures { result ≡ target_matches (spec.columns_of table.now.parts) from.now (option_map (λ t. t.now) other.entry) to.now }
{
    let Some(other) = other else {
        return false;
    };
    match to {
        Some(to) => columns_match(table, from, other, to.as_slice()),
        None => columns_match(table, from, other, other.primary()),
    }
}

fn rule_matches(tables: &KnownTables, table: &KnownTable, rule: &RuleText) -> bool
    ensures { result ≡ rules_match tables.now (spec.columns_of table.now.parts) (spec.rules_made tables.now (spec.columns_of table.now.parts) rule.now) }
{
    match rule {
        RuleText::NotNull(_) => true,
        RuleText::PrimaryKey(_) => true,
        RuleText::Unique(_) => true,
        RuleText::Foreign(from, name, to) => {
            target_matches(table, from.as_slice(), tables.named(name), to)
        }
        RuleText::Check(_) => true,
        RuleText::Depend(_, _) => true,
    }
}

fn part_matches(tables: &KnownTables, table: &KnownTable, part: &Part) -> bool
    ensures { result ≡ part_matches tables.now (spec.columns_of table.now.parts) part.now }
{
    match part {
        Part::Column(_) => true,
        Part::Rule(_, rule) => rule_matches(tables, table, rule),
    }
}

fn parts_match(tables: &KnownTables, table: &KnownTable, parts: &[Part]) -> bool
    ensures { result ≡ list_all (part_matches tables.now (spec.columns_of table.now.parts)) parts.now }
{
    parts.iter().all(|part| part_matches(tables, table, part))
}

fn keys_match(tables: &KnownTables, table: &KnownTable) -> bool
    ensures { result ≡ spec.keys_match (spec.tables_of tables.now) (spec.table_of tables.now table.now) }
{
    parts_match(tables, table, table.parts())
}

// The name of a table with a foreign key whose columns do not match.
#[tactic(auto, unfolding(crate::specs::Meaning::mismatch))]
fn mismatch<'t>(tables: &KnownTables, table: &'t KnownTable) -> Option<&'t Txt>
    ensures { option_map (λ name. name.now) result ≡ spec.mismatch (spec.tables_of tables.now) (spec.table_of tables.now table.now) }
{
    if keys_match(tables, table) {
        None
    } else {
        Some(table.name())
    }
}

/// The first table with a foreign key whose columns do not match.
pub(crate) fn mismatched(tables: &KnownTables) -> Option<&Txt>
    ensures { option_map (λ name. name.now) result ≡ spec.mismatched (spec.tables_of tables.now) (spec.tables_of tables.now) }
{
    for table in tables.as_slice() {
        if let Some(name) = mismatch(tables, table) {
            return Some(name);
        }
    }
    None
}
