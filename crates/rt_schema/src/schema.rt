//! Sound schemas: whoever has a `Schema` need not test that a column or a table is there.

ghost use Rattle.std.specs.Prelude.{◌≡◌, IsTrue};
ghost use Rattle.rt_schema.specs.Schema.{is_sound};

use crate::table::Table;
use rt_value::List;
use std::marker::Model;

/// A list of tables whose rules name only columns and tables that are there. Each foreign key has
/// columns of the same kinds on both sides, and no check compares a whole number with a text.
/// Contracts see the list of the tables.
pub struct Schema {
    tables: List<Table>,
}

impl Drop for Schema {
    fn drop(self) {
        let Schema { tables: _ } = self;
    }
}

impl Model for Schema {
    ghost use Rattle.std.specs.Prelude.{List, IsTrue};
    ghost use Rattle.rt_schema.specs.declared.table.Table.{Table};
    ghost use Rattle.rt_schema.specs.Schema.{is_sound};

    ghost Value = { List Table };

    ghost view = { λ s. s.tables };

    ghost invariant = { λ s. IsTrue (is_sound s.tables) };
}

impl Schema {
    /// The schema of these tables, which have to be sound.
    pub fn new(tables: List<Table>) -> Schema
        requires { IsTrue (is_sound tables) }
        ensures { result ≡ tables }
    {
        Schema { tables }
    }

    /// The tables, in the order in which they were given.
    pub fn tables(&self) -> &[Table]
        ensures same { result.now ≡ self.now }
        ensures sound { IsTrue (is_sound self.now) }
    {
        self.tables.as_slice()
    }
}
