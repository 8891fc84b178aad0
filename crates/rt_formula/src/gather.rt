//! What is left of a gate's children once constants and repeated ones are taken away.

ghost use Rattle.rt_formula.specs.Gathering.{deciding};
ghost use Rattle.std.specs.Prelude.{◌≡◌};

use crate::entry::Node;
use rt_value::List;

/// The two kinds of gates.
#[derive(Clone, Copy)]
pub enum Gate {
    All,
    Any,
}

/// The outcome for the children of a gate: they decide it, or these matter, each once.
#[derive(Drop)]
pub enum Gathered {
    Decided,
    Kept(List<Node>),
}

impl Gate {
    /// The value that one child alone gives the gate.
    pub(crate) fn deciding(self) -> bool
        ensures { result ≡ deciding self }
    {
        match self {
            Gate::All => false,
            Gate::Any => true,
        }
    }
}
