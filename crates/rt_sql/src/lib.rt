//! Parsing a query (ISO/IEC 9075-2, query expression): from tokens to the tree that they spell.
//!
//! `specs/Formed.antt` says which trees are formed and which tokens a tree has, and
//! `specs/Refusals.antt` when each error comes.

#![tactic(auto)]

mod chains;
mod conditions;
mod depth;
mod fault;
mod looks;
mod parser;
mod ranges;
mod sources;
mod tested;
mod words;

pub use depth::{REPEATED, SELECTS};
pub use fault::SqlFault;
pub use parser::{one_tree, parse, read_is_tree};
pub use rt_tree::NESTED;
pub use tested::{Range, Test};
