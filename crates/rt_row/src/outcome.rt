//! What is found of one named row, with its text.

use crate::fault::RowFault;
use rt_input::Spent;
use rt_value::{Bytes, Keep};

/// The verdict on one named row.
#[derive(Debug, Drop)]
pub enum RowVerdict {
    /// The first of the smallest lawful choices of rows at which the first query alone answers
    /// with the row.
    Witness(Keep),
    /// There is no such choice.
    Never,
    /// The budget of conflicts is spent.
    Spent(Spent),
    /// The text is no row of the query's columns.
    Refused(RowFault),
}

/// A verdict and its text.
#[derive(Drop)]
pub struct RowAnswer {
    pub verdict: RowVerdict,
    pub text: Bytes,
}
