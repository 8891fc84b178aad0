//! Relations of algebra texts: a query with named columns; DIVIDE, and what operators share.
//!
//! `specs/Operators.antt` says which query and which columns each operator of two operands becomes,
//! or its first error. The other operators, and the laws of all, are in `rt_ra`.

#![tactic(auto)]

mod column;
mod division;
mod faults;
mod items;
mod lists;
mod products;
mod relation;

pub use column::Column;
pub use division::{Dividend, divide};
pub use faults::{check_fit, unless_twice};
pub use items::{matching, own, with_further as items_further, with_nulls, with_placed};
pub use lists::{
    column_at, concatenated, copied, next, picked, place_of, shared_name, with_further,
};
pub use products::product;
pub use relation::{Relation, typed_of};
