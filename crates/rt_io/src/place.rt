//! The two outputs of a program.

/// The sink that a text belongs to: the one for answers, or the one for refusals.
#[derive(Clone, Copy, PartialEq, Eq, Debug)]
pub enum Place {
    Out,
    Err,
}
