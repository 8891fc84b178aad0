//! The claim of a certificate's second line, before its rows are read.

/// What a certificate claims: that a witness of so many rows is smallest, or that there is none.
#[derive(Clone, Copy)]
pub enum Claim {
    Witness(u64),
    Agree,
}
