//! The trees of queries (ISO/IEC 9075-2, query expression), the readers of their names, sums and
//! items, and when their parentheses are nested too deep.
//!
//! `tree` has one type for each line of the grammar, and `specs/Spelled.antt` says which terminals
//! a tree has. Lists that may not be empty are a first member and the others.

#![tactic(auto)]

mod ends;
mod items;
mod names;
mod nesting;
mod sums;
mod tree;

pub use ends::{before, boxed_before};
pub use items::items as read_items;
pub use names::{alias, maybe_alias};
pub use nesting::{NESTED, is_left, opens_too_many};
pub use sums::sum_at;
pub use tree::{
    Alias, Atom, Base, Chain, ChainLink, Cond, Conj, Factor, Item, Items, Join, Leaf, Meet,
    MeetLink, Mul, Neg, Op, Pick, Primary, Source, Sql, Sum, SumLink,
};
