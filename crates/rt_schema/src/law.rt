//! Which sub-instances are lawful, tested rule by rule on the kept rows. Pairs of rows are
//! compared one by one; a faster way with the same value would change no proof of a crate above.

ghost use Rattle.std.specs.Prelude.{◌≡◌, ◌+◌, ◌≤◌, ◌||◌, [], drop, length, not};
ghost use Rattle.std.specs.List.{list_all, list_any};
ghost use Rattle.rt_schema.specs.Given.{IsOf, places, rows_at};
ghost use Rattle.rt_schema.specs.Kept.{kept, kept_rows};
ghost use Rattle.rt_schema.specs.Cells.{agree, same_in};
ghost use Rattle.rt_schema.specs.Law.{lawful, rules_hold, rule_holds, key_holds, foreign_holds, not_null_holds, check_holds, depend_holds};

use crate::cells::{agree, has_null, null_at, same_in};
use crate::check::Check;
use crate::check_truth::passes;
use crate::given::Given;
use crate::schema::Schema;
use crate::table::{Depend, Foreign, Rule};
use rt_value::{Keep, List, Row};

/// Whether the kept rows meet the rules of the schema (ISO/IEC 9075-2, unique, referential and
/// check constraint definition). Rows with NULL in a key break no key; a row with NULL in a
/// referencing column needs no referenced row.
pub fn lawful(schema: &Schema, given: &Given, keep: &Keep) -> bool
    requires of_schema { IsOf schema.now given.now }
    requires places { places given.now.tables ≡ length keep.now }
    ensures { result ≡ lawful schema.now (kept given.now.tables keep.now) }
{
    let all = given.tables();
    let mut base: usize = 0;
    for (at, table) in schema.tables().iter().enumerate() {
        let Some(rows) = all.get(at) else {
            return true;
        };
        if !rules_hold(table.rules.as_slice(), rows.as_slice(), base, all, keep) {
            return false;
        }
        base += rows.len();
    }
    true
}

// Whether the rules hold for the kept rows of a table. `base` is the place of its first row.
fn rules_hold(rules: &[Rule], rows: &[Row], base: usize, all: &[List<Row>], keep: &Keep) -> bool
    requires rows { base + length rows.now ≤ length keep.now }
    requires all { places all.now ≡ length keep.now }
    ensures { result ≡ rules_hold rules.now (kept_rows rows.now (drop base keep.now)) (kept all.now keep.now) }
{
    for rule in rules {
        if !rule_holds(rule, rows, base, all, keep) {
            return false;
        }
    }
    true
}

fn rule_holds(rule: &Rule, rows: &[Row], base: usize, all: &[List<Row>], keep: &Keep) -> bool
    requires rows { base + length rows.now ≤ length keep.now }
    requires all { places all.now ≡ length keep.now }
    ensures { result ≡ rule_holds rule.now (kept_rows rows.now (drop base keep.now)) (kept all.now keep.now) }
{
    match rule {
        Rule::NotNull(column) => not_null_holds(*column, rows, base, keep),
        Rule::Key(key) => key_holds(key.as_slice(), rows, base, keep),
        Rule::Foreign(foreign) => foreign_holds(foreign, rows, base, all, keep),
        Rule::Check(check) => check_holds(check, rows, base, keep),
        Rule::Depend(depend) => depend_holds(depend, rows, base, keep),
    }
}

fn not_null_holds(column: usize, rows: &[Row], base: usize, keep: &Keep) -> bool
    requires { base + length rows.now ≤ length keep.now }
    ensures { result ≡ not_null_holds column (kept_rows rows.now (drop base keep.now)) }
{
    let _places = keep.len();
    for (at, row) in rows.iter().enumerate() {
        if keep.is(base + at) && null_at(row, column) {
            return false;
        }
    }
    true
}

fn key_holds(key: &[usize], rows: &[Row], base: usize, keep: &Keep) -> bool
    requires { base + length rows.now ≤ length keep.now }
    ensures { result ≡ key_holds key.now (kept_rows rows.now (drop base keep.now)) }
{
    let _places = keep.len();
    for (at, row) in rows.iter().enumerate() {
        if keep.is(base + at)
            && agrees_with_one(key, key, row, &rows[at + 1..], base + at + 1, keep)
        {
            return false;
        }
    }
    true
}

// Whether a row agrees with a kept one of the rows `others`.
fn agrees_with_one(
    from: &[usize],
    to: &[usize],
    row: &Row,
    others: &[Row],
    base: usize,
    keep: &Keep,
) -> bool
    requires { base + length others.now ≤ length keep.now }
    ensures { result ≡ list_any (agree from.now to.now row.now) (kept_rows others.now (drop base keep.now)) }
{
    let _places = keep.len();
    for (at, other) in others.iter().enumerate() {
        if keep.is(base + at) && agree(from, to, row, other) {
            return true;
        }
    }
    false
}

fn foreign_holds(
    foreign: &Foreign,
    rows: &[Row],
    base: usize,
    all: &[List<Row>],
    keep: &Keep,
) -> bool
    requires rows { base + length rows.now ≤ length keep.now }
    requires all { places all.now ≡ length keep.now }
    ensures { result ≡ foreign_holds foreign.now.from foreign.now.to (rows_at (kept all.now keep.now) foreign.now.table) (kept_rows rows.now (drop base keep.now)) }
{
    let _places = keep.len();
    let from = foreign.from.as_slice();
    let to = foreign.to.as_slice();
    let (others, others_base) = table_at(all, foreign.table, 0, keep);
    for (at, row) in rows.iter().enumerate() {
        if keep.is(base + at)
            && !has_null(row, from)
            && !agrees_with_one(from, to, row, others, others_base, keep)
        {
            return false;
        }
    }
    true
}

fn check_holds(check: &Check, rows: &[Row], base: usize, keep: &Keep) -> bool
    requires { base + length rows.now ≤ length keep.now }
    ensures { result ≡ check_holds check.now (kept_rows rows.now (drop base keep.now)) }
{
    let _places = keep.len();
    for (at, row) in rows.iter().enumerate() {
        if keep.is(base + at) && !passes(check, row) {
            return false;
        }
    }
    true
}

fn depend_holds(depend: &Depend, rows: &[Row], base: usize, keep: &Keep) -> bool
    requires { base + length rows.now ≤ length keep.now }
    ensures { result ≡ depend_holds depend.now.from depend.now.to (kept_rows rows.now (drop base keep.now)) }
{
    let _places = keep.len();
    let from = depend.from.as_slice();
    let to = depend.to.as_slice();
    for (at, row) in rows.iter().enumerate() {
        if keep.is(base + at) && !determines(from, to, row, &rows[at + 1..], base + at + 1, keep) {
            return false;
        }
    }
    true
}

// Whether the kept ones of the rows `others` that agree with a row on `from` are the same on `to`.
fn determines(
    from: &[usize],
    to: &[usize],
    row: &Row,
    others: &[Row],
    base: usize,
    keep: &Keep,
) -> bool
    requires { base + length others.now ≤ length keep.now }
    ensures { result ≡ list_all (λ other. not (agree from.now from.now row.now other) || same_in to.now row.now other) (kept_rows others.now (drop base keep.now)) }
{
    let _places = keep.len();
    for (at, other) in others.iter().enumerate() {
        if keep.is(base + at) && agree(from, from, row, other) && !same_in(to, row, other) {
            return false;
        }
    }
    true
}

// The rows of a table and the place of the first; `base` is the place of the first row of `all`.
fn table_at<'a>(all: &'a [List<Row>], table: usize, base: usize, keep: &Keep) -> (&'a [Row], usize)
    requires { base + places all.now ≤ length keep.now }
    ensures in_range { result.1 + length result.0.now ≤ length keep.now }
    ensures rows { kept_rows result.0.now (drop result.1 keep.now) ≡ rows_at (kept all.now (drop base keep.now)) table }
{
    let _places = keep.len();
    match all {
        [] => (&[], 0),
        [rows, rest @ ..] => {
            let rows = rows.as_slice();
            if table == 0 {
                (rows, base)
            } else {
                table_at(rest, table - 1, base + rows.len(), keep)
            }
        }
    }
}
