//! The tests of answers, annotations and verdicts as values: what names and set operators mean,
//! and what is seen of an annotation and a verdict from outside. Also of algebra texts: what is
//! read, what a text answers, what is refused, and the command on them.
//!
//! They are a crate of their own, since a crate with tests is proved twice.

#![tactic(auto)]

#[cfg(test)]
mod annotated;
#[cfg(test)]
mod choices;
#[cfg(test)]
mod compared;
#[cfg(test)]
mod generated;
#[cfg(test)]
mod names;
#[cfg(test)]
mod nodes;
#[cfg(test)]
mod ra_command;
#[cfg(test)]
mod ra_data;
#[cfg(test)]
mod ra_reads;
#[cfg(test)]
mod ra_resolves;
