//! The trees of relational algebra texts, and `parse_ra`: from tokens to the tree that they spell.
//!
//! The spelling of the algebra (Codd 1970) is our own, over the tokens and terminals of SQL:
//!
//! ```text
//! text  = ra [ ";" ]
//! ra    = name
//!       | SELECT "(" ra "," cond ")"
//!       | PROJECT "(" ra "," names ")" | RENAME "(" ra "," names ")"
//!       | two "(" ra "," ra ")"
//! two   = CROSS | JOIN | SEMI | ANTI | LEFTJOIN | DIVIDE | UNION | EXCEPT | INTERSECT
//! names = "(" name { "," name } ")"
//! cond  = test { AND test }
//! test  = side op side | name IS [ NOT ] NULL
//! side  = name | [ "-" ] number | text
//! ```
//!
//! The keyword of an operator is the operator where an opening parenthesis follows it. Elsewhere it
//! is a name, if it isn't reserved.

#![tactic(auto)]

mod conditions;
mod depth;
mod fault;
mod heads;
mod parser;
mod reader;
mod tree;

pub use depth::DOUBLED;
pub use fault::RaFault;
pub use heads::Head;
pub use parser::{one_tree, parse_ra, read_is_tree};
pub use rt_tree::NESTED;
pub use tree::{Ra, RaNames, RaOp, RaSide, RaTest, RaTests, RaText};
