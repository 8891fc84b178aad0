//! A step of the trail, packed into two machine words. Contracts see the step.

ghost use Rattle.std.specs.Prelude.{◌≡◌};

use crate::trail::{Step, Why};
use rt_clause::Lit;
use std::marker::Model;

// The top bit. The index of a literal is below it.
const TOP: usize = 1 << 63;

/// A step in two machine words. The mark is the index of its literal, with the top bit set if a line
/// is the reason. The number is that of the line, or 0 for a decision and 1 for the assumption.
#[derive(Clone, Copy)]
pub struct Packed {
    mark: usize,
    number: usize,
}

const _: () = prove!(size_of::<Packed>() == 16);

impl Model for Packed {
    ghost use Rattle.rt_store.specs.declared.trail.Step.{Step};
    ghost use Rattle.rt_store.specs.Packing.{mark_of, code, step_of, IsPacked, mark-step, code-why};

    ghost Value = { Step };

    ghost view = { λ p. step_of p.mark p.number };

    ghost invariant = { λ p. IsPacked p.mark p.number };

    ghost inverse = { λ s. record { mark = mark_of s; number = code s.why } };

    ghost inverse_ok = { λ p h. λ i. record { mark = mark-step p.mark p.number h.mark i; number = code-why _ p.number h.code i } };
}

impl Packed {
    /// The step in two words.
    pub fn of(step: Step) -> Packed
        ensures { result ≡ step }
    {
        let index = step.lit.index();
        match step.why {
            Why::Line(number) => Packed {
                mark: TOP + index,
                number,
            },
            Why::Decided => Packed {
                mark: index,
                number: 0,
            },
            Why::Assumed => Packed {
                mark: index,
                number: 1,
            },
        }
    }

    fn lit(self) -> Lit
        ensures { result ≡ self.lit }
    {
        let index = self.mark % TOP;
        Lit::of(index / 2, index % 2 == 1)
    }

    /// Why its literal is on the trail.
    pub fn why(self) -> Why
        ensures { result ≡ self.why }
    {
        if self.mark / TOP == 1 {
            Why::Line(self.number)
        } else if self.number == 0 {
            Why::Decided
        } else {
            Why::Assumed
        }
    }

    /// The step that was packed.
    pub fn step(self) -> Step
        ensures { result ≡ self }
    {
        let lit = self.lit();
        let why = self.why();
        Step { lit, why }
    }
}
