//! The first test: no name is given twice, and no table has two primary keys.

ghost use Rattle.std.specs.Prelude.{◌≡◌, ◌++◌, ◌∷◌, [], IfOk, option_map};
ghost use Rattle.rt_ddl.specs.Meaning as spec;
ghost use Rattle.rt_ddl.specs.Places.{column_names};

use crate::known::{KnownTable, has_primary};
use crate::name_list::NameList;
use crate::parts::{Part, RuleText};
use rt_value::{List, NoMemory, Txt};
use std::alloc::Global;

fn name_twice(alloc: Global, names: &[Txt]) -> Result<Option<&Txt>, NoMemory>
    ensures { IfOk result (λ twice. option_map (λ name. name.now) twice ≡ spec.name_twice [] names.now) }
{
    let mut before = NameList::new(alloc);
    for name in names {
        if before.has(name) {
            return Ok(Some(name));
        }
        before = before.with(alloc, name)?;
    }
    Ok(None)
}

fn maybe_twice(alloc: Global, names: &Option<List<Txt>>) -> Result<Option<&Txt>, NoMemory>
    ensures { IfOk result (λ twice. option_map (λ name. name.now) twice ≡ spec.maybe_twice names.now) }
{
    match names {
        Some(names) => name_twice(alloc, names.as_slice()),
        None => Ok(None),
    }
}

fn key_twice<'t>(
    alloc: Global,
    from: &'t [Txt],
    to: &'t Option<List<Txt>>,
) -> Result<Option<&'t Txt>, NoMemory>
    ensures { IfOk result (λ twice. option_map (λ name. name.now) twice ≡ spec.or_else (spec.name_twice [] from.now) (spec.maybe_twice to.now)) }
{
    match name_twice(alloc, from)? {
        Some(name) => Ok(Some(name)),
        None => maybe_twice(alloc, to),
    }
}

fn lists_twice<'t>(
    alloc: Global,
    from: &'t [Txt],
    to: &'t [Txt],
) -> Result<Option<&'t Txt>, NoMemory>
    ensures { IfOk result (λ twice. option_map (λ name. name.now) twice ≡ spec.or_else (spec.name_twice [] from.now) (spec.name_twice [] to.now)) }
{
    if let Some(name) = name_twice(alloc, from)? {
        return Ok(Some(name));
    }
    name_twice(alloc, to)
}

fn rule_twice<'t>(
    alloc: Global,
    table: &'t Txt,
    before: &[Part],
    rule: &'t RuleText,
) -> Result<Option<&'t Txt>, NoMemory>
    ensures { IfOk result (λ twice. option_map (λ name. name.now) twice ≡ spec.rule_twice table.now before.now rule.now) }
{
    match rule {
        RuleText::NotNull(_) => Ok(None),
        RuleText::PrimaryKey(columns) => {
            if has_primary(before) {
                return Ok(Some(table));
            }
            name_twice(alloc, columns.as_slice())
        }
        RuleText::Unique(columns) => name_twice(alloc, columns.as_slice()),
        RuleText::Foreign(from, _, to) => key_twice(alloc, from.as_slice(), to),
        RuleText::Check(_) => Ok(None),
        RuleText::Depend(from, to) => lists_twice(alloc, from.as_slice(), to.as_slice()),
    }
}

fn part_twice<'t>(
    alloc: Global,
    table: &'t Txt,
    before: &[Part],
    columns: &NameList,
    part: &'t Part,
) -> Result<Option<&'t Txt>, NoMemory>
    requires { columns.now ≡ column_names before.now }
    ensures { IfOk result (λ twice. option_map (λ name. name.now) twice ≡ spec.part_twice table.now before.now part.now) }
{
    match part {
        Part::Column(column) => {
            if columns.has(&column.name) {
                Ok(Some(&column.name))
            } else {
                Ok(None)
            }
        }
        Part::Rule(_, rule) => rule_twice(alloc, table, before, rule),
    }
}

// The names with that of the part at the end, if it is a column.
fn with_part(alloc: Global, columns: NameList, part: &Part) -> Result<NameList, NoMemory>
    ensures { IfOk result (λ more. more ≡ columns ++ column_names (part.now ∷ [])) }
{
    match part {
        Part::Column(column) => columns.with(alloc, &column.name),
        Part::Rule(_, _) => Ok(columns),
    }
}

fn parts_twice<'t>(
    alloc: Global,
    table: &'t Txt,
    parts: &'t [Part],
) -> Result<Option<&'t Txt>, NoMemory>
    ensures { IfOk result (λ twice. option_map (λ name. name.now) twice ≡ spec.parts_twice table.now [] parts.now) }
{
    let mut columns = NameList::new(alloc);
    for (at, part) in parts.iter().enumerate() {
        if let Some(name) = part_twice(alloc, table, &parts[..at], &columns, part)? {
            return Ok(Some(name));
        }
        columns = with_part(alloc, columns, part)?;
    }
    Ok(None)
}

/// The first name that is given twice, or the table of the first primary key that is a second one.
pub(crate) fn tables_twice(alloc: Global, tables: &[KnownTable]) -> Result<Option<&Txt>, NoMemory>
    ensures { IfOk result (λ twice. option_map (λ name. name.now) twice ≡ spec.tables_twice [] tables.now) }
{
    let mut names = NameList::new(alloc);
    for table in tables {
        let name = table.name();
        if names.has(name) {
            return Ok(Some(name));
        }
        let parts = table.parts();
        if let Some(twice) = parts_twice(alloc, name, parts)? {
            return Ok(Some(twice));
        }
        names = names.with(alloc, name)?;
    }
    Ok(None)
}
