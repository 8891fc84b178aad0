//! The tests of what reads: values, files and arguments, tokens, and the texts of schemas and
//! queries.
//!
//! They are a crate of their own, since a crate with tests is proved twice.

#![tactic(auto)]

#[cfg(test)]
mod checks;
#[cfg(test)]
mod files;
#[cfg(test)]
mod queries;
#[cfg(test)]
mod schema_texts;
#[cfg(test)]
mod shape;
#[cfg(test)]
mod terminals;
#[cfg(test)]
mod tokens;
#[cfg(test)]
mod told;
#[cfg(test)]
mod values;
#[cfg(test)]
mod words;
