//! The tree of a schema text (ISO/IEC 9075-2, table definition), and its reader from tokens.
//!
//! `tree` and `test_tree` have one type for each line of the grammar; `specs/Spelled.antt` and
//! `specs/TestSpelled.antt` say which tokens a tree has.

#![tactic(auto)]

mod checks;
mod columns;
mod counted;
mod member;
mod reader;
mod tables;
mod test_tree;
mod tree;

pub use counted::Counted;
pub use reader::{one_tree, read_is_tree, read_tree};
pub use test_tree::{Test, TestForm, TestLeaf, TestPart, TestSide};
pub use tree::{
    Column, ColumnConstraint, ColumnRule, Create, Item, KindWord, Names, SchemaText, TableRule,
};
