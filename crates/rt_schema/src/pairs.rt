//! How much work the law is, counted before it is encoded. Only the value is public.

ghost use Rattle.std.specs.Prelude.{◌≡◌, count_by};
ghost use Rattle.rt_schema.specs.Capped.{capped};
ghost use Rattle.rt_schema.specs.Given.{IsOf};
ghost use Rattle.rt_schema.specs.Cells.{agree};
ghost use Rattle.rt_schema.specs.LawWork.{law_work, rules_pairs, rule_pairs, key_pairs, foreign_pairs};

use crate::capped::capped_add;
use crate::cells::agree;
use crate::given::{Given, rows_at};
use crate::schema::Schema;
use crate::table::Rule;
use rt_value::{List, Row};

/// The work of the law, summed over all rules. A key or a dependency counts the pairs of rows that
/// agree on its columns, a foreign key the pairs that match, and a check the rows of its table.
pub fn law_work(schema: &Schema, given: &Given) -> u128
    requires of_schema { IsOf schema.now given.now }
    ensures { result ≡ law_work schema.now given.now.tables }
{
    let all = given.tables();
    let mut pairs: u128 = 0;
    for (at, table) in schema.tables().iter().enumerate() {
        let Some(rows) = all.get(at) else {
            return pairs;
        };
        pairs = capped_add(
            pairs,
            rules_pairs(table.rules.as_slice(), rows.as_slice(), all),
        );
    }
    pairs
}

fn rules_pairs(rules: &[Rule], rows: &[Row], all: &[List<Row>]) -> u128
    ensures { result ≡ capped (rules_pairs rules.now rows.now all.now) }
{
    let mut pairs: u128 = 0;
    for rule in rules {
        pairs = capped_add(pairs, rule_pairs(rule, rows, all));
    }
    pairs
}

fn rule_pairs(rule: &Rule, rows: &[Row], all: &[List<Row>]) -> u128
    ensures { result ≡ capped (rule_pairs rule.now rows.now all.now) }
{
    match rule {
        Rule::NotNull(_) => 0,
        Rule::Key(key) => key_pairs(key.as_slice(), rows),
        Rule::Foreign(foreign) => {
            let others = rows_at(all, foreign.table);
            foreign_pairs(foreign.from.as_slice(), foreign.to.as_slice(), others, rows)
        }
        Rule::Check(_) => rows.len() as u128,
        Rule::Depend(depend) => key_pairs(depend.from.as_slice(), rows),
    }
}

fn key_pairs(key: &[usize], rows: &[Row]) -> u128
    ensures { result ≡ capped (key_pairs key.now rows.now) }
{
    let mut pairs: u128 = 0;
    for (at, row) in rows.iter().enumerate() {
        pairs = capped_add(pairs, agreeing(key, key, row, &rows[at + 1..]));
    }
    pairs
}

fn foreign_pairs(from: &[usize], to: &[usize], others: &[Row], rows: &[Row]) -> u128
    ensures { result ≡ capped (foreign_pairs from.now to.now others.now rows.now) }
{
    let mut pairs: u128 = 0;
    for row in rows {
        pairs = capped_add(pairs, agreeing(from, to, row, others));
    }
    pairs
}

// How many of the rows `others` the row agrees with.
fn agreeing(from: &[usize], to: &[usize], row: &Row, others: &[Row]) -> u128
    ensures { result ≡ count_by (agree from.now to.now row.now) others.now }
{
    others
        .iter()
        .filter(|other| agree(from, to, row, *other))
        .count() as u128
}
