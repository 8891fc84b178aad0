//! The tests of the crates from formulas to certificates: formulas, clauses, the checker and the
//! solver, the counter, the search for the least choice, and certificates.
//!
//! They are a crate of their own, since a crate with tests is proved twice.

#![tactic(auto)]

#[cfg(test)]
mod certificate_texts;
#[cfg(test)]
mod certificates;
#[cfg(test)]
mod checker;
#[cfg(test)]
mod clauses;
#[cfg(test)]
mod counter;
#[cfg(test)]
mod drawing;
#[cfg(test)]
mod encoded;
#[cfg(test)]
mod formulas;
#[cfg(test)]
mod heap;
#[cfg(test)]
mod recorded;
#[cfg(test)]
mod search;
#[cfg(test)]
mod solver;
