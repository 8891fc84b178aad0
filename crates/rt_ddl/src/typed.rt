//! The last test: no check compares a whole number with a text.

ghost use Rattle.std.specs.Prelude.{◌≡◌, option_map};
ghost use Rattle.rt_ddl.specs.Meaning as spec;

use rt_schema::{Column, Rule, Table, check_typed};
use rt_value::Txt;

fn rule_typed(columns: &[Column], rule: &Rule) -> bool
    ensures { result ≡ spec.rule_typed columns.now rule.now }
{
    match rule {
        Rule::Check(check) => check_typed(columns, check),
        _ => true,
    }
}

fn checks_typed(table: &Table) -> bool
    ensures { result ≡ spec.checks_typed table.now }
{
    let columns = table.columns.as_slice();
    let mut rules = table.rules.as_slice().iter();
    rules.all(|rule| rule_typed(columns, rule))
}

// The name of a table with such a check.
#[tactic(auto, unfolding(crate::specs::Meaning::mistyped))]
fn mistyped(table: &Table) -> Option<&Txt>
    ensures { option_map (λ name. name.now) result ≡ spec.mistyped table.now }
{
    if checks_typed(table) {
        None
    } else {
        Some(&table.name)
    }
}

/// The first table with such a check.
pub(crate) fn untyped(tables: &[Table]) -> Option<&Txt>
    ensures { option_map (λ name. name.now) result ≡ spec.untyped tables.now }
{
    for table in tables {
        if let Some(name) = mistyped(table) {
            return Some(name);
        }
    }
    None
}
