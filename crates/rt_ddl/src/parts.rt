//! What a table's text says, part by part in text order, without what has no effect. Later passes
//! work on this, and no longer on the tree.

use rt_ddl_tree::{Counted, Test};
use rt_schema::Column;
use rt_value::{List, Txt};

/// A table's name and its parts, in text order.
pub struct TableText {
    pub name: Txt,
    pub parts: List<Part>,
}

impl Drop for TableText {
    fn drop(self) {
        let TableText { name: _, parts: _ } = self;
    }
}

/// A column, or a rule. The bool of a rule is true where it is an item of the table, false where it
/// was written with a column.
#[derive(Drop)]
pub enum Part {
    Column(Column),
    Rule(bool, RuleText),
}

/// A rule over columns by their names. One that was written with a column names that column alone,
/// but a CHECK may name others.
#[derive(Drop)]
pub enum RuleText {
    NotNull(Txt),
    PrimaryKey(List<Txt>),
    Unique(List<Txt>),
    /// The referencing columns, the referenced table, and its columns if they are given.
    Foreign(List<Txt>, Txt, Option<List<Txt>>),
    Check(Counted<Test>),
    /// The determining columns, and those that they determine.
    Depend(List<Txt>, List<Txt>),
}
