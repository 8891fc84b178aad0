//! The tests of the top call: worked inputs, limits and budgets. Also of what stops a command:
//! refusals, errors of files and sinks, and the parts of a command by themselves.
//!
//! They are a crate of their own, since a crate with tests is proved twice.

#![tactic(auto)]

#[cfg(test)]
mod failing;
#[cfg(test)]
mod parts;
#[cfg(test)]
mod refused;
#[cfg(test)]
mod tests;
