//! Values, rows, truth and lists: what every other crate of the project is written in.
//!
//! The order of values, the three truth values and arithmetic are those of SQL (ISO/IEC 9075-2);
//! `specs/` has their definitions. What allocates answers `NoMemory` when out of memory.

#![tactic(auto)]

mod arith;
mod boxed;
mod keep;
mod list;
mod no_memory;
mod numeral;
mod row;
mod truth;
mod txt;
mod value;

pub use arith::{add, mul, sub};
pub use boxed::Boxed;
pub use keep::Keep;
pub use list::{Bytes, List};
pub use no_memory::NoMemory;
pub use numeral::{all_digits, decimal_up_to};
pub use row::Row;
pub use truth::Truth;
pub use txt::Txt;
pub use value::{Op, Value, compare, null_truth};
