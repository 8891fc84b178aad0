//! A literal in half a machine word.

ghost use Rattle.std.specs.Prelude.{◌≡◌, ◌<◌, ◌≤◌, ◌^◌, MatchOption};
ghost use Rattle.rt_clause.specs.Packed.{packed};

use rt_clause::Lit;
use std::marker::Model;

// The first word that does not fit.
const LIMIT: usize = 1 << 32;

/// A literal of a variable below 2^31. Contracts see the literal.
#[derive(Clone, Copy)]
pub struct Short {
    word: u32,
}

impl Model for Short {
    ghost use Rattle.rt_clause.specs.Literal.{Literal};
    ghost use Rattle.rt_clause.specs.Packed.{packed, unpacked, packed-unpacked};
    ghost use Rattle.std.proofs.Common.{ap};

    ghost Value = { Literal };

    ghost view = { λ s. unpacked s.word };

    ghost inverse = { λ l. record { word = packed l } };

    ghost inverse_ok = { λ s h. ap (λ w. record { word = w }) (packed-unpacked s.word) };
}

impl Short {
    /// The literal, where it fits.
    pub fn of(lit: Lit) -> Option<Short>
        ensures { MatchOption result (2 ^ 32 ≤ packed lit) (λ s. s ≡ lit) }
    {
        if lit.index() < LIMIT {
            Some(Short::new(lit))
        } else {
            None
        }
    }

    /// A literal that fits.
    pub fn new(lit: Lit) -> Short
        requires { packed lit < 2 ^ 32 }
        ensures { result ≡ lit }
    {
        Short {
            word: lit.index() as u32,
        }
    }

    /// The literal.
    pub fn lit(self) -> Lit
        ensures { result ≡ self }
    {
        let index = self.word as usize;
        Lit::of(index / 2, index % 2 == 1)
    }
}
