//! Schemas, the rows given for their tables, and the law that the rules of a schema are.
//!
//! Tables, columns, keys, foreign keys and checks are those of SQL (ISO/IEC 9075-2, table
//! definition); `specs/` says when kept rows are lawful.

#![tactic(auto)]

mod capped;
mod cells;
mod check;
mod check_kinds;
mod check_truth;
mod given;
mod law;
mod pairs;
mod schema;
mod table;

pub use capped::{capped_add, capped_mul};
pub use cells::{agree, has_null, is_null, null_at, same_in};
pub use check::{Check, CheckAtom, CheckLeaf, CheckPart, Side};
pub use check_kinds::{check_typed, comparable};
pub use check_truth::passes;
pub use given::{Given, ROW_LIMIT, rows_at};
pub use law::lawful;
pub use pairs::law_work;
pub use schema::Schema;
pub use table::{ColKind, Column, Depend, Foreign, Rule, Table};
