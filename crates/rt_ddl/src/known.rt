//! A table's text with what the later passes look up, computed once. Contracts see the text alone,
//! so what is kept for speed may change.

ghost use Rattle.std.specs.Prelude.{◌≡◌, IfOk, map, option_map, slice_get};
ghost use Rattle.rt_ddl.specs.Meaning as spec;

use crate::name_list::NameList;
use crate::parts::{Part, RuleText, TableText};
use rt_schema::Column;
use rt_value::{List, NoMemory, Txt};
use std::alloc::Global;
use std::marker::Model;

/// A table's text. Finding a column takes time in the logarithm of their number.
pub struct KnownTable {
    text: TableText,
    columns: List<Column>,
    names: NameList,
    has_primary: bool,
    primary: List<Txt>,
}

impl Drop for KnownTable {
    fn drop(self) {
        let KnownTable {
            text: _,
            columns: _,
            names: _,
            has_primary: _,
            primary: _,
        } = self;
    }
}

impl Model for KnownTable {
    ghost use Rattle.rt_ddl.specs.Places.{IsKnown};
    ghost use Rattle.rt_ddl.specs.declared.parts.TableText.{TableText as Text};

    ghost Value = { Text };

    ghost view = { λ t. t.text };

    ghost invariant = { λ t. IsKnown t.text.parts t.columns t.names t.has_primary t.primary };
}

/// The columns among the parts of a table.
pub(crate) fn columns_of(alloc: Global, parts: &[Part]) -> Result<List<Column>, NoMemory>
    ensures { IfOk result (λ columns. columns ≡ spec.columns_of parts.now) }
{
    let mut columns = List::new(alloc);
    for part in parts {
        if let Part::Column(column) = part {
            let name = column.name.copy(alloc)?;
            columns.push(Column {
                name,
                kind: column.kind,
            })?;
        }
    }
    Ok(columns)
}

fn names_of(alloc: Global, columns: &[Column]) -> Result<NameList, NoMemory>
    ensures { IfOk result (λ names. names ≡ map (λ c. c.name) columns.now) }
{
    let mut names = NameList::new(alloc);
    for column in columns {
        names = names.with(alloc, &column.name)?;
    }
    Ok(names)
}

fn is_primary(part: &Part) -> bool
    ensures { result ≡ spec.is_primary part.now }
{
    match part {
        Part::Rule(_, RuleText::PrimaryKey(_)) => true,
        _ => false,
    }
}

pub(crate) fn has_primary(parts: &[Part]) -> bool
    ensures { result ≡ spec.has_primary parts.now }
{
    parts.iter().any(|part| is_primary(part))
}

// The columns of the primary key.
fn primary_of(parts: &[Part]) -> &[Txt]
    ensures { result.now ≡ spec.primary_of parts.now }
{
    for part in parts {
        if let Part::Rule(_, RuleText::PrimaryKey(columns)) = part {
            return columns.as_slice();
        }
    }
    &[]
}

fn copied(alloc: Global, names: &[Txt]) -> Result<List<Txt>, NoMemory>
    ensures { IfOk result (λ texts. texts ≡ names.now) }
{
    let mut texts = List::new(alloc);
    for name in names {
        texts.push(name.copy(alloc)?)?;
    }
    Ok(texts)
}

impl KnownTable {
    /// The table of a text, with what is looked up in it.
    pub fn of(alloc: Global, text: TableText) -> Result<KnownTable, NoMemory>
        ensures { IfOk result (λ table. table ≡ text) }
    {
        let parts = text.parts.as_slice();
        let columns = columns_of(alloc, parts)?;
        let names = names_of(alloc, columns.as_slice())?;
        let has_primary = has_primary(parts);
        let primary = copied(alloc, primary_of(parts))?;
        Ok(KnownTable {
            text,
            columns,
            names,
            has_primary,
            primary,
        })
    }

    pub fn name(&self) -> &Txt
        ensures { result.now ≡ self.now.name }
    {
        &self.text.name
    }

    pub fn parts(&self) -> &[Part]
        ensures { result.now ≡ self.now.parts }
    {
        self.text.parts.as_slice()
    }

    /// Whether a column has this name.
    pub fn has_column(&self, name: &Txt) -> bool
        ensures { result ≡ spec.has_column self.now.parts name.now }
    {
        self.names.has(name)
    }

    /// The first column of this name.
    pub fn column(&self, name: &Txt) -> Option<&Column>
        ensures { option_map (λ column. column.now) result ≡ slice_get (spec.columns_of self.now.parts) (spec.column_at (spec.columns_of self.now.parts) name.now) }
    {
        let place = self.column_at(name);
        self.columns.as_slice().get(place)
    }

    /// The place, from 0, of the first column of this name, or the number of columns.
    pub fn column_at(&self, name: &Txt) -> usize
        ensures { result ≡ spec.column_at (spec.columns_of self.now.parts) name.now }
    {
        match self.names.place(name) {
            Some(place) => place,
            None => self.names.len(),
        }
    }

    pub fn has_primary(&self) -> bool
        ensures { result ≡ spec.has_primary self.now.parts }
    {
        self.has_primary
    }

    /// The columns of the first primary key, or none without one.
    pub fn primary(&self) -> &[Txt]
        ensures { result.now ≡ spec.primary_of self.now.parts }
    {
        self.primary.as_slice()
    }
}
