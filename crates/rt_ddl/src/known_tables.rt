//! All tables of a text, found by name. Contracts see the list of their texts alone.

ghost use Rattle.std.specs.Prelude.{◌≡◌, ◌++◌, ◌∷◌, [], IfOk, option_map, slice_get};
ghost use Rattle.rt_ddl.specs.Meaning as spec;

use crate::known::KnownTable;
use crate::name_list::NameList;
use rt_value::{List, NoMemory, Txt};
use std::alloc::Global;
use std::marker::Model;

/// The tables of a text, in text order. Finding one takes time in the logarithm of
/// their number.
#[derive(Drop)]
pub struct KnownTables {
    list: List<KnownTable>,
    names: NameList,
}

impl Model for KnownTables {
    ghost use Rattle.std.specs.Prelude.{◌≡◌, List as Items};
    ghost use Rattle.rt_ddl.specs.Places.{table_names};
    ghost use Rattle.rt_ddl.specs.declared.parts.TableText.{TableText as Text};

    ghost Value = { Items Text };

    ghost view = { λ t. t.list };

    ghost invariant = { λ t. t.names ≡ table_names t.list };
}

fn nth(tables: &[KnownTable], place: usize) -> Option<&KnownTable>
    ensures { option_map (λ table. table.now) result ≡ slice_get tables.now place }
{
    tables.get(place)
}

impl KnownTables {
    /// No tables, which takes no memory.
    pub fn new(alloc: Global) -> KnownTables
        ensures { result ≡ [] }
    {
        KnownTables {
            list: List::new(alloc),
            names: NameList::new(alloc),
        }
    }

    /// The tables in text order.
    pub fn as_slice(&self) -> &[KnownTable]
        ensures { result.now ≡ self.now }
    {
        self.list.as_slice()
    }

    /// The first table of this name.
    pub fn named(&self, name: &Txt) -> Option<&KnownTable>
        ensures { option_map (λ table. table.now) result ≡ spec.table_named self.now name.now }
    {
        match self.names.place(name) {
            Some(place) => nth(self.list.as_slice(), place),
            None => None,
        }
    }

    /// The place of the first table of this name, or the number of tables.
    pub fn place(&self, name: &Txt) -> usize
        ensures { result ≡ spec.table_at self.now name.now }
    {
        match self.names.place(name) {
            Some(place) => place,
            None => self.list.len(),
        }
    }

    /// The tables with one more at the end.
    pub fn with(self, alloc: Global, table: KnownTable) -> Result<KnownTables, NoMemory>
        ensures { IfOk result (λ more. more ≡ self ++ table ∷ []) }
    {
        let KnownTables { mut list, names } = self;
        let names = names.with(alloc, table.name())?;
        list.push(table)?;
        Ok(KnownTables { list, names })
    }
}
