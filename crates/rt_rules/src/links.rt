//! Which row refers to which, by the foreign keys of a schema.

ghost use Rattle.std.specs.Prelude.{◌≡◌, ◌<◌, ◌≤◌, ◌+◌, ◌^◌, ◌++◌, ◌∷◌, [], List as Values, map, length, OnOk, IfOk};
ghost use Rattle.rt_value.specs.Row.{row_eq};
ghost use Rattle.rt_value.specs.declared.value.Value.{Value};
ghost use Rattle.rt_schema.specs.Given.{places};
ghost use Rattle.rt_schema.specs.Cells.{agree, cells};
ghost use Rattle.rt_schema.specs.declared.table.Rule.TheVariants.{Foreign as ForeignRule};
ghost use Rattle.rt_formula.specs.Groups.{group_at};
ghost use Rattle.rt_rules.specs.Cone.{link, places_where, references, rule_links, rules_links, tables_links};

use crate::cells::cells;
use crate::place_groups::PlaceGroups;
use crate::tables::table_at;
use rt_schema::{Foreign, Given, Rule, Schema, Table, has_null};
use rt_value::{List, NoMemory, Row};
use std::alloc::Global;

/// That the row at a place refers to that at another.
#[derive(Clone, Copy, Debug)]
pub struct Link {
    pub from: usize,
    pub to: usize,
}

/// All links of the given rows, table by table, rule by rule, and row by row.
pub(crate) fn references(
    alloc: Global,
    schema: &Schema,
    given: &Given,
) -> Result<List<Link>, NoMemory>
    requires { places given.now.tables ≤ 2000 }
    ensures { IfOk result (λ links. links ≡ references schema.now given.now.tables) }
{
    let all = given.tables();
    let mut links = List::new(alloc);
    link_tables(alloc, schema.tables(), all, 0, all, &mut links)?;
    Ok(links)
}

// The links of these tables; `rest` has their rows, and `base` is the place of the first.
fn link_tables(
    alloc: Global,
    tables: &[Table],
    rest: &[List<Row>],
    base: usize,
    all: &[List<Row>],
    links: &mut List<Link>,
) -> Result<(), NoMemory>
    requires rest { base + places rest.now ≤ 2000 }
    requires all { places all.now ≤ 2000 }
    ensures { OnOk result (links.new ≡ links.old ++ tables_links all.now base tables.now rest.now) }
{
    match tables {
        [] => Ok(()),
        [table, tables_rest @ ..] => match rest {
            [] => Ok(()),
            [rows, rows_rest @ ..] => {
                let rows = rows.as_slice();
                link_rules(alloc, table.rules.as_slice(), rows, base, all, links)?;
                link_tables(alloc, tables_rest, rows_rest, base + rows.len(), all, links)
            }
        },
    }
}

fn link_rules(
    alloc: Global,
    rules: &[Rule],
    rows: &[Row],
    base: usize,
    all: &[List<Row>],
    links: &mut List<Link>,
) -> Result<(), NoMemory>
    requires rows { base + length rows.now ≤ 2000 }
    requires all { places all.now ≤ 2000 }
    ensures { OnOk result (links.new ≡ links.old ++ rules_links all.now base rows.now rules.now) }
{
    for rule in rules {
        link_rule(alloc, rule, rows, base, all, links)?;
    }
    Ok(())
}

fn link_rule(
    alloc: Global,
    rule: &Rule,
    rows: &[Row],
    base: usize,
    all: &[List<Row>],
    links: &mut List<Link>,
) -> Result<(), NoMemory>
    requires rows { base + length rows.now ≤ 2000 }
    requires all { places all.now ≤ 2000 }
    ensures { OnOk result (links.new ≡ links.old ++ rule_links all.now base rows.now rule.now) }
{
    match rule {
        Rule::NotNull(_) | Rule::Key(_) | Rule::Check(_) | Rule::Depend(_) => Ok(()),
        Rule::Foreign(foreign) => link_foreign(alloc, foreign, rows, base, all, links),
    }
}

fn link_foreign(
    alloc: Global,
    foreign: &Foreign,
    rows: &[Row],
    base: usize,
    all: &[List<Row>],
    links: &mut List<Link>,
) -> Result<(), NoMemory>
    requires rows { base + length rows.now ≤ 2000 }
    requires all { places all.now ≤ 2000 }
    ensures { OnOk result (links.new ≡ links.old ++ rule_links all.now base rows.now (ForeignRule foreign.now)) }
{
    let (others, others_base) = table_at(all, foreign.table, 0);
    let groups = PlaceGroups::of(alloc, foreign.to.as_slice(), others, others_base)?;
    for (at, row) in rows.iter().enumerate() {
        link_row(
            alloc,
            foreign,
            row,
            base + at,
            &groups,
            others,
            others_base,
            links,
        )?;
    }
    Ok(())
}

// The links of the row at a place to those of `others`, which `groups` has by their values in the
// referenced columns. `others_base` is the place of the first of them.
fn link_row(
    alloc: Global,
    foreign: &Foreign,
    row: &Row,
    place: usize,
    groups: &PlaceGroups,
    others: &[Row],
    others_base: usize,
    links: &mut List<Link>,
) -> Result<(), NoMemory>
    requires { (key : Values Value) → group_at groups.now key ≡ places_where (λ other. row_eq key (cells foreign.now.to other)) others_base others.now }
    ensures { OnOk result (links.new ≡ links.old ++ map (link place) (places_where (agree foreign.now.from foreign.now.to row.now) others_base others.now)) }
{
    let _others = others.len();
    let from = foreign.from.as_slice();
    if has_null(row, from) {
        return Ok(());
    }
    let values = cells(alloc, from, row)?;
    link_all(place, groups.get(&values), links)
}

// From one row to several.
fn link_all(from: usize, to: &[usize], links: &mut List<Link>) -> Result<(), NoMemory>
    ensures { OnOk result (links.new ≡ links.old ++ map (link from) to.now) }
{
    for place in to {
        link_one(from, *place, links)?;
    }
    Ok(())
}

fn link_one(from: usize, to: usize, links: &mut List<Link>) -> Result<(), NoMemory>
    ensures { OnOk result (links.new ≡ links.old ++ link from to ∷ []) }
{
    links.push(Link { from, to })
}
