//! The rows of a table's file. Records are those of the crate `csv` (RFC 4180); a file's header
//! names the table's columns, and each further record is a row. Also here: the texts of a generated
//! input for 1 to 400 students.

#![tactic(auto)]

mod cells;
mod fault;
mod file;
mod generator;
mod header;
mod input;
mod integer;
mod records;

pub use fault::LoadFault;
pub use file::load;
pub use generator::made;
pub use input::Made;
