//! Where a token is in its text.

/// The bytes of a text from `from` on and before `to`, counted from 0.
#[derive(Clone, Copy, PartialEq, Eq, Debug)]
pub struct Span {
    pub from: usize,
    pub to: usize,
}
