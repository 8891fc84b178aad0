//! Tables and their rules. Each type has a drop of its own: one call wherever a value goes, while a
//! derived one would be made anew in each crate.

use crate::check::Check;
use rt_value::{List, Txt};

/// The type of a column: INTEGER or TEXT.
#[derive(Clone, Copy, PartialEq, Eq, Debug)]
pub enum ColKind {
    Whole,
    Text,
}

/// A column. A name that wasn't quoted in the schema is in lower case.
#[derive(PartialEq, Eq)]
pub struct Column {
    pub name: Txt,
    pub kind: ColKind,
}

impl Drop for Column {
    fn drop(self) {
        let Column { name: _, kind: _ } = self;
    }
}

/// A foreign key: the referencing columns, the number of the referenced table, and its columns in
/// the same order.
#[derive(PartialEq, Eq)]
pub struct Foreign {
    pub from: List<usize>,
    pub table: usize,
    pub to: List<usize>,
}

impl Drop for Foreign {
    fn drop(self) {
        let Foreign {
            from: _,
            table: _,
            to: _,
        } = self;
    }
}

/// A functional dependency: rows with the same values in the columns `from`, none of them NULL, are
/// the same in the columns `to`.
#[derive(PartialEq, Eq)]
pub struct Depend {
    pub from: List<usize>,
    pub to: List<usize>,
}

impl Drop for Depend {
    fn drop(self) {
        let Depend { from: _, to: _ } = self;
    }
}

/// A rule of a table. Columns and tables are named by their numbers from 0.
#[derive(PartialEq, Eq)]
pub enum Rule {
    NotNull(usize),
    Key(List<usize>),
    Foreign(Foreign),
    Check(Check),
    Depend(Depend),
}

impl Drop for Rule {
    fn drop(self) {
        match self {
            Rule::NotNull(_) => {}
            Rule::Key(_) => {}
            Rule::Foreign(_) => {}
            Rule::Check(_) => {}
            Rule::Depend(_) => {}
        }
    }
}

/// A table: its columns in the order of its definition, and its rules.
#[derive(PartialEq, Eq)]
pub struct Table {
    pub name: Txt,
    pub columns: List<Column>,
    pub rules: List<Rule>,
}

impl Drop for Table {
    fn drop(self) {
        let Table {
            name: _,
            columns: _,
            rules: _,
        } = self;
    }
}
