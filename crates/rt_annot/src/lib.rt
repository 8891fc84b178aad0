//! Annotated evaluation: one evaluation over all given rows that answers for every choice of them
//! at once. Each row that may come out gets a node of a `Dag`, true at just the choices at which
//! the row is in the answer. (Provenance as Boolean formulas; Miao, Roy and Yang, SIGMOD 2019.)

#![tactic(auto)]

mod aim;
mod annotation;
mod conditions;
mod evaluate;
pub mod laws;
mod operand;
mod reference;
mod sets;

pub use aim::{Aim, goal, goal_beside};
pub use annotation::annotate;
pub use reference::Reference;
pub use rt_noted::{Ann, differ};
