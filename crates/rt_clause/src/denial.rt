//! Why a question has no model.

/// Why no model of the lines makes what is assumed and a question true: the question is the negation
/// of what is assumed, or the line of this number has no literal but the negations of the two.
#[derive(Clone, Copy)]
pub enum Denial {
    Opposite,
    Line(usize),
}
