//! What the check of a certificate says.

use rt_recorder::Encoded;
use rt_value::Keep;

/// Why a certificate is rejected, by the first cause in this order.
#[derive(Drop)]
pub enum Why {
    /// The first of its places that isn't below the number of rows.
    Place(u64),
    /// Its rows break a rule of the schema.
    NotLawful,
    /// The two queries have the same answers on its rows.
    SameAnswers,
    /// The encoding has another number of lines.
    Added(Encoded),
    /// The first of its steps, counted from 1, that isn't accepted.
    Line(usize, Encoded),
    /// Its steps are accepted, and don't refute what is assumed.
    NoRefutation(Encoded),
}

/// `Valid`: the choice of rows has the least size, or, without one, the queries agree. `Wrong`:
/// why the certificate is rejected.
#[derive(Drop)]
pub enum Judgement {
    Valid(Option<Keep>),
    Wrong(Why),
}
