//! A holder of an encoding's lines, for writing them out.

ghost use Rattle.std.specs.Prelude.{◌≡◌, [], None};

use rt_clause::{Adds, Clauses, Lit};
use rt_value::NoMemory;
use std::alloc::Global;

/// An encoding's lines in order, and the literal that is assumed, if there is one.
#[derive(Drop)]
pub struct Encoded {
    pub lines: Clauses,
    pub assume: Option<Lit>,
}

impl Encoded {
    /// No lines and no literal, which takes no memory.
    pub fn new(alloc: Global) -> Encoded
        ensures lines { result.lines ≡ [] }
        ensures assume { result.assume ≡ None }
    {
        Encoded {
            lines: Clauses::new(alloc),
            assume: None,
        }
    }
}

impl Adds for Encoded {
    ghost use Rattle.std.specs.Prelude.{false, map};

    ghost lines = { λ e. e.lines };

    ghost derived = { λ e. map (λ line. false) e.lines };

    fn add(&mut self, lits: &[Lit]) -> Result<(), NoMemory> {
        self.lines.push(lits)
    }
}
