//! Reading a schema: CREATE TABLE statements (ISO/IEC 9075-2, table definition), from bytes to the
//! tables and rules that they make.
//!
//! The trees of texts are those of rt_ddl_tree; `specs/Meaning.antt` says which schema a text
//! makes.

#![tactic(auto)]

mod build;
mod build_check;
mod fault;
mod known;
mod known_tables;
mod limits;
mod made;
mod matches;
mod name_list;
mod parts;
mod reader;
mod texts;
mod twice;
mod typed;
mod unknown;
mod unknown_test;

pub use fault::{Excess, SchemaFault};
pub use parts::{Part, RuleText, TableText};
pub use reader::read_schema;
