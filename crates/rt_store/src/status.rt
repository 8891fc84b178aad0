//! What the trail makes of a literal.

/// A literal is true, false or unassigned.
#[derive(Clone, Copy)]
pub enum Status {
    True,
    False,
    Unassigned,
}
