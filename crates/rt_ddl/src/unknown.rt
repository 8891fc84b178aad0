//! The second test: each name of a rule is that of a table or a column.

ghost use Rattle.std.specs.Prelude.{◌≡◌, option_map};
ghost use Rattle.rt_ddl.specs.Meaning as spec;

use crate::known::KnownTable;
use crate::known_tables::KnownTables;
use crate::parts::{Part, RuleText};
use crate::unknown_test::test_unknown;
use rt_value::{List, Txt};

/// The name, where no column has it.
#[tactic(auto, unfolding(crate::specs::Meaning::unknown_column))]
pub(crate) fn unknown_column<'t>(table: &KnownTable, name: &'t Txt) -> Option<&'t Txt>
    ensures { option_map (λ name. name.now) result ≡ spec.unknown_column table.now.parts name.now }
{
    if table.has_column(name) {
        None
    } else {
        Some(name)
    }
}

// The first of the names that no column has.
fn missing<'t>(table: &KnownTable, names: &'t [Txt]) -> Option<&'t Txt>
    ensures { option_map (λ name. name.now) result ≡ spec.missing table.now.parts names.now }
{
    for name in names {
        if let Some(name) = unknown_column(table, name) {
            return Some(name);
        }
    }
    None
}

fn target_unknown<'t>(
    name: &'t Txt,
    table: Option<&KnownTable>,
    to: &'t Option<List<Txt>>,
) -> Option<&'t Txt>
    ensures { option_map (λ n. n.now) result ≡ spec.target_unknown name.now (option_map (λ t. t.now) table.entry) to.now }
{
    let Some(table) = table else {
        return Some(name);
    };
    match to {
        Some(to) => missing(table, to.as_slice()),
        None => {
            if table.has_primary() {
                None
            } else {
                Some(name)
            }
        }
    }
}

fn rule_unknown<'t>(tables: &KnownTables, table: &KnownTable, rule: &'t RuleText) -> Option<&'t Txt>
    ensures { option_map (λ name. name.now) result ≡ spec.rule_unknown tables.now table.now.parts rule.now }
{
    match rule {
        RuleText::NotNull(column) => unknown_column(table, column),
        RuleText::PrimaryKey(columns) => missing(table, columns.as_slice()),
        RuleText::Unique(columns) => missing(table, columns.as_slice()),
        RuleText::Foreign(from, name, to) => match missing(table, from.as_slice()) {
            Some(column) => Some(column),
            None => target_unknown(name, tables.named(name), to),
        },
        RuleText::Check(test) => test_unknown(table, test.get()),
        RuleText::Depend(from, to) => match missing(table, from.as_slice()) {
            Some(column) => Some(column),
            None => missing(table, to.as_slice()),
        },
    }
}

fn parts_unknown<'t>(tables: &KnownTables, table: &'t KnownTable) -> Option<&'t Txt>
    ensures { option_map (λ name. name.now) result ≡ spec.parts_unknown tables.now table.now.parts table.now.parts }
{
    let parts = table.parts();
    for part in parts {
        if let Part::Rule(_, rule) = part {
            if let Some(name) = rule_unknown(tables, table, rule) {
                return Some(name);
            }
        }
    }
    None
}

/// The first name of a rule that is unknown, or the table without a primary key that is meant.
pub(crate) fn tables_unknown(tables: &KnownTables) -> Option<&Txt>
    ensures { option_map (λ name. name.now) result ≡ spec.tables_unknown tables.now tables.now }
{
    for table in tables.as_slice() {
        if let Some(name) = parts_unknown(tables, table) {
            return Some(name);
        }
    }
    None
}
