//! The tests of schemas and rows: the law and its formula, table files, work, and what is printed.
//!
//! They are a crate of their own, since a crate with tests is proved twice.

#![tactic(auto)]

#[cfg(test)]
mod cones;
#[cfg(test)]
mod data;
#[cfg(test)]
mod large_law;
#[cfg(test)]
mod law;
#[cfg(test)]
mod printed;
#[cfg(test)]
mod split;
#[cfg(test)]
mod table_files;
#[cfg(test)]
mod values;
#[cfg(test)]
mod work;
