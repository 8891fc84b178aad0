//! Literals, packed into one machine word each. Contracts see a variable and a Bool; the packing
//! shows in `index` alone.

ghost use Rattle.std.specs.Prelude.{◌≡◌, ◌<◌, ◌^◌};
ghost use Rattle.std.specs.Cmp.Rules.{comparing};
ghost use Rattle.std.proofs.Common.{rules};
ghost use Rattle.rt_clause.specs.Literal.{negated, lit_eq};
ghost use Rattle.rt_clause.specs.Packed.{packed};

use rt_value::List;
use std::fmt;
use std::marker::Model;

/// Who makes up variables stays below this number, so that each fits a literal; beyond it the answer is
/// out of memory.
pub const MOST_VARIABLES: usize = 1 << 61;

/// A literal: a variable, and the Bool at which the literal is true. Both are packed into one
/// machine word: twice the variable, and one more if the Bool is true.
#[derive(Clone, Copy)]
pub struct Lit {
    word: usize,
}

/// A list of literals.
pub type LitList = List<Lit>;

impl Model for Lit {
    ghost use Rattle.std.specs.Prelude.{◌<◌, ◌^◌};
    ghost use Rattle.rt_clause.specs.Literal.{Literal};
    ghost use Rattle.rt_clause.specs.Packed.{packed, unpacked, packed-unpacked};
    ghost use Rattle.std.proofs.Common.{ap};

    ghost Value = { Literal };

    ghost view = { λ l. unpacked l.word };

    ghost invariant = { λ l. l.word < 2 ^ 63 };

    ghost inverse = { λ l. record { word = packed l } };

    ghost inverse_ok = { λ l h. ap (λ w. record { word = w }) (packed-unpacked l.word) };
}

impl Lit {
    /// The literal of the variable `var` that is true where the variable is `on`.
    pub fn of(var: usize, on: bool) -> Lit
        requires { var < 2 ^ 62 }
        ensures var { result.var ≡ var }
        ensures on { result.on ≡ on }
    {
        let word = if on { 2 * var + 1 } else { 2 * var };
        Lit { word }
    }

    /// The number of its variable, counted from 0.
    pub fn var(self) -> usize
        ensures is { result ≡ self.var }
        ensures small { result < 2 ^ 62 }
    {
        self.word / 2
    }

    /// The Bool of its variable at which it is true.
    pub fn on(self) -> bool
        ensures { result ≡ self.on }
    {
        self.word % 2 == 1
    }

    /// The literal's place in a list with one entry for each literal. The two of a variable are
    /// neighbours, first the one that is true at false.
    pub fn index(self) -> usize
        ensures is { result ≡ packed self }
        ensures small { result < 2 ^ 63 }
    {
        self.word
    }

    /// The literal of the same variable that is true where this one is false.
    pub fn negated(self) -> Lit
        ensures { result ≡ negated self }
    {
        let word = if self.word % 2 == 1 {
            self.word - 1
        } else {
            self.word + 1
        };
        Lit { word }
    }
}

impl PartialEq for Lit {
    ghost eq = { lit_eq };

    ghost laws = { Prim.search (comparing, rules) };

    fn eq(&self, other: &Lit) -> bool {
        self.word == other.word
    }
}

impl Eq for Lit {
    ghost laws = { Prim.search (comparing, rules) };
}

impl fmt::Debug for Lit {
    fn fmt<W: fmt::Write>(&self, f: &mut fmt::Formatter<W>) -> fmt::Result {
        let sign = if self.on() { "" } else { "not " };
        write!(f, "{sign}x{}", self.var())
    }
}
