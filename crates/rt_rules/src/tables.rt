//! The law of a schema, from tables to rules. The place of a row is its number among the rows of
//! all tables, in the order of the tables; that is also its variable.

ghost use Rattle.std.specs.Prelude.{◌≡◌, ◌<◌, ◌≤◌, ◌+◌, ◌^◌, Bool, List, length, drop, IfOk};
ghost use Rattle.rt_schema.specs.Given.{IsOf, base_of, places, rows_at};
ghost use Rattle.rt_schema.specs.Kept.{kept, kept_rows};
ghost use Rattle.rt_schema.specs.Law.{lawful, tables_hold, rules_hold, rule_holds};
ghost use Rattle.rt_formula.specs.Shared.{IsGrown, val};
ghost use Rattle.rt_rules.specs.Meaning.{Means};

use crate::clauses::{check, foreign, key, not_null};
use crate::dependencies::depend;
use crate::index::index;
use rt_formula::{Dag, Node};
use rt_schema::{Given, Rule, Schema, Table};
use rt_value::{List, NoMemory, Row};
use std::alloc::Global;

/// The node that is true at just the lawful choices of the given rows.
pub fn law(alloc: Global, dag: &mut Dag, schema: &Schema, given: &Given) -> Result<Node, NoMemory>
    requires rows { dag.old.rows ≡ places given.now.tables }
    requires of_schema { IsOf schema.now given.now }
    ensures grown { IsGrown dag.old dag.new }
    ensures node { IfOk result (λ n. n < length dag.new.entries) }
    ensures means { IfOk result (λ n. (keep : List Bool) → length keep ≡ dag.old.rows → val dag.new keep n ≡ lawful schema.now (kept given.now.tables keep)) }
{
    let all = given.tables();
    tables_node(alloc, dag, schema.tables(), all, 0, all)
}

// That the rules of these tables hold; `rest` has their rows, and `base` is the place of the
// first.
fn tables_node(
    alloc: Global,
    dag: &mut Dag,
    tables: &[Table],
    rest: &[List<Row>],
    base: usize,
    all: &[List<Row>],
) -> Result<Node, NoMemory>
    requires rest { base + places rest.now ≤ dag.old.rows }
    requires all { places all.now ≤ dag.old.rows }
    ensures grown { IsGrown dag.old dag.new }
    ensures means { IfOk result (λ n. Means dag.new n (λ keep. tables_hold tables.now (kept rest.now (drop base keep)) (kept all.now keep))) }
{
    let _places = dag.rows();
    match tables {
        [] => Ok(dag.yes()),
        [table, tables_rest @ ..] => match rest {
            [] => Ok(dag.yes()),
            [rows, rows_rest @ ..] => {
                let rows = rows.as_slice();
                let here = rules_node(alloc, dag, table.rules.as_slice(), rows, base, all)?;
                let there = tables_node(
                    alloc,
                    dag,
                    tables_rest,
                    rows_rest,
                    base + rows.len(),
                    all,
                )?;
                let both = dag.all(&[here, there])?;
                Ok(both)
            }
        },
    }
}

// That these rules of one table hold.
fn rules_node(
    alloc: Global,
    dag: &mut Dag,
    rules: &[Rule],
    rows: &[Row],
    base: usize,
    all: &[List<Row>],
) -> Result<Node, NoMemory>
    requires rows { base + length rows.now ≤ dag.old.rows }
    requires all { places all.now ≤ dag.old.rows }
    ensures grown { IsGrown dag.old dag.new }
    ensures means { IfOk result (λ n. Means dag.new n (λ keep. rules_hold rules.now (kept_rows rows.now (drop base keep)) (kept all.now keep))) }
{
    match rules {
        [] => Ok(dag.yes()),
        [rule, rest @ ..] => {
            let here = rule_node(alloc, dag, rule, rows, base, all)?;
            let there = rules_node(alloc, dag, rest, rows, base, all)?;
            let both = dag.all(&[here, there])?;
            Ok(both)
        }
    }
}

fn rule_node(
    alloc: Global,
    dag: &mut Dag,
    rule: &Rule,
    rows: &[Row],
    base: usize,
    all: &[List<Row>],
) -> Result<Node, NoMemory>
    requires rows { base + length rows.now ≤ dag.old.rows }
    requires all { places all.now ≤ dag.old.rows }
    ensures grown { IsGrown dag.old dag.new }
    ensures means { IfOk result (λ n. Means dag.new n (λ keep. rule_holds rule.now (kept_rows rows.now (drop base keep)) (kept all.now keep))) }
{
    match rule {
        Rule::NotNull(column) => not_null(alloc, dag, *column, rows, base),
        Rule::Key(columns) => key(alloc, dag, columns.as_slice(), rows, base),
        Rule::Foreign(rule) => {
            let _rows = dag.rows();
            let (others, others_base) = table_at(all, rule.table, 0);
            let groups = index(alloc, dag, rule.to.as_slice(), others, others_base)?;
            foreign(alloc, dag, rule, rows, base, &groups, others, others_base)
        }
        Rule::Check(rule) => check(alloc, dag, rule, rows, base),
        Rule::Depend(rule) => depend(alloc, dag, rule, rows, base),
    }
}

/// The rows of the table with this number and the place of the first. `base` is the place of the
/// first row of all.
pub(crate) fn table_at<'a>(all: &'a [List<Row>], table: usize, base: usize) -> (&'a [Row], usize)
    requires { base + places all.now < 2 ^ 64 }
    ensures in_range { result.1 + length result.0.now ≤ base + places all.now }
    ensures of { result.0.now ≡ rows_at all.now table }
    ensures first { result.1 ≡ base + base_of table all.now }
    ensures rows { (keep : List Bool) → kept_rows result.0.now (drop result.1 keep) ≡ rows_at (kept all.now (drop base keep)) table }
{
    match all {
        [] => (&[], base),
        [rows, rest @ ..] => {
            let rows = rows.as_slice();
            if table == 0 {
                (rows, base)
            } else {
                table_at(rest, table - 1, base + rows.len())
            }
        }
    }
}
