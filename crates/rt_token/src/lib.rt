//! The tokens of SQL text (ISO/IEC 9075-2, 5.2 and 5.3): words, quoted names, numbers, texts and
//! symbols, each with its place; and which words are reserved.
//!
//! Also here is what the readers of the schema language and of queries share. These are terminals,
//! the pass from tokens to terminals, looks at the terminal at the front, and readers with the laws
//! by which rules of a grammar are put together.
//!
//! A grammar is read both ways: what a reader accepts is spelled so, and what is spelled so is
//! accepted. The laws of `proofs/` say this once for each way to put readers together.

#![tactic(auto)]

mod bytes;
mod comparisons;
mod content;
mod fault;
mod fixed;
mod lexeme;
mod lexer;
mod looks;
mod marks;
mod place;
mod read_fault;
mod reads;
mod reserved;
mod span;
mod sym;
mod terminal;
mod token;
mod words;

pub use comparisons::op_at;
pub use fault::LexFault;
pub use fixed::{Fixed, code};
pub use lexer::tokens;
pub use looks::{END, NAME, after, code_of, counted, flag, front, starts, tail};
pub use marks::{name_of, terminals};
pub use place::syntax_place;
pub use read_fault::ReadFault;
pub use reads::{after_word, end, expect, expect_word, name, starts_name};
pub use reserved::is_reserved;
pub use span::Span;
pub use sym::Sym;
pub use terminal::{Name, Terminal};
pub use token::{Token, TokenKind};
