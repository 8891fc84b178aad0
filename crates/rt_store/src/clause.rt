//! The solver's own copy of a clause, of which the first two literals are watched.

ghost use Rattle.std.specs.Prelude.{◌≡◌, ◌<◌, ◌≤◌, length, take, swap, slice_index_or, MatchOption, IfSome, IfOk};
ghost use Rattle.rt_store.specs.Same.{IsSame, IsSpread, AreFirst, HasOther};

use crate::short::Short;
use rt_clause::{Lit, ThinClause};
use rt_value::NoMemory;
use std::alloc::Global;
use std::marker::Model;

// The literals of a clause: three short ones, as most clauses have, stand in the clause itself, and
// any others in a block, with the place where the last search for a literal to watch ended, or 0
// where that is too great.
#[derive(Drop)]
enum Literals {
    Three([Short; 3]),
    Block { ended: u32, lits: ThinClause },
}

const _: () = prove!(size_of::<Clause>() == 16);

/// A clause of the solver's own, whose literals may change places. Propagation waits for memory, so
/// three literals are read with the clause, and not from a block.
#[derive(Drop)]
pub struct Clause {
    literals: Literals,
}

impl Model for Clause {
    ghost use Rattle.std.specs.Prelude.{List};
    ghost use Rattle.rt_clause.specs.Literal.{Literal};
    ghost use Rattle.rt_store.specs.Storing.{stored, IsStored};

    ghost Value = { List Literal };

    ghost view = { λ c. stored c.literals };

    ghost invariant = { λ c. IsStored c.literals };
}

// The place of a literal that differs from the first.
fn other(lits: &[Lit]) -> Option<usize>
    ensures { MatchOption result (AreFirst lits.now) (λ j. HasOther lits.now j) }
{
    if lits.is_empty() {
        return None;
    }
    let first = lits[0];
    for j in 1..lits.len() {
        if lits[j] != first {
            return Some(j);
        }
    }
    None
}

// The first literal, where there is one.
fn first(lits: &[Lit]) -> &[Lit]
    ensures { result.now ≡ take 1 lits.now }
{
    lits.split_at(lits.len().min(1)).0
}

// The literals as short ones, where there are three and each fits.
fn three(lits: &[Lit]) -> Option<[Short; 3]>
    ensures { IfSome result (λ own. own ≡ lits.now) }
{
    match lits {
        [a, b, c] => Some([Short::of(*a)?, Short::of(*b)?, Short::of(*c)?]),
        _ => None,
    }
}

impl Clause {
    /// A copy of the literals in their order.
    pub fn new(alloc: Global, lits: &[Lit]) -> Result<Clause, NoMemory>
        ensures { IfOk result (λ c. c ≡ lits.now) }
    {
        let literals = match three(lits) {
            Some(lits) => Literals::Three(lits),
            None => {
                let lits = ThinClause::of(alloc, lits)?;
                Literals::Block { ended: 0, lits }
            }
        };
        Ok(Clause { literals })
    }

    /// A copy of the literals in which the first two differ.
    pub fn of(alloc: Global, lits: &[Lit]) -> Result<Clause, NoMemory>
        ensures same { IfOk result (λ c. IsSame lits.now c) }
        ensures spread { IfOk result (λ c. IsSpread c) }
    {
        match other(lits) {
            None => Clause::new(alloc, first(lits)),
            Some(j) => {
                let mut own = Clause::new(alloc, lits)?;
                own.exchange(1, j);
                Ok(own)
            }
        }
    }

    /// The number of literals.
    #[inline]
    pub fn len(&self) -> usize
        ensures { result ≡ length self.now }
    {
        match &self.literals {
            Literals::Three(_) => 3,
            Literals::Block { lits, .. } => lits.len(),
        }
    }

    /// The literal at a place.
    #[inline]
    pub fn at(&self, i: usize) -> Lit
        requires { i < length self.now }
        ensures { result ≡ slice_index_or self.now i result }
    {
        match &self.literals {
            Literals::Three(lits) => lits[i].lit(),
            Literals::Block { lits, .. } => lits.lits()[i],
        }
    }

    /// The literals in order, unless three stand in the clause itself.
    #[inline]
    pub fn block(&self) -> Option<&[Lit]>
        ensures { MatchOption result (length self.now ≡ 3) (λ lits. lits.now ≡ self.now) }
    {
        match &self.literals {
            Literals::Three(_) => None,
            Literals::Block { lits, .. } => Some(lits.lits()),
        }
    }

    /// Where a search for a literal to watch begins: where the last one ended, but after the
    /// watched ones.
    pub fn start(&self) -> usize
        ensures low { 2 ≤ result }
        ensures within { 2 ≤ length self.now → result ≤ length self.now }
    {
        match &self.literals {
            // only this one isn't watched
            Literals::Three(_) => 2,
            Literals::Block { ended, .. } => (*ended as usize).max(2),
        }
    }

    /// Puts the literal at which a search ended into a watched place.
    pub fn exchange(&mut self, watched: usize, ended: usize)
        requires watched { watched < length self.old }
        requires ended { ended < length self.old }
        ensures { self.new ≡ swap self.old watched ended }
    {
        match &mut self.literals {
            Literals::Three(lits) => lits.swap(watched, ended),
            Literals::Block { ended: last, lits } => {
                lits.swap(watched, ended);
                *last = u32::try_from(ended).unwrap_or(0);
            }
        }
    }
}
