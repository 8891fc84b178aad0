//! What an atom says of its first sum, before it is put together with it.

ghost use Rattle.std.specs.Prelude.{◌≡◌};
ghost use Rattle.rt_sql.specs.Reads as spec;

use rt_tree::{Atom, Chain, Op, Sum};
use rt_value::{Boxed, List};

/// What follows IN or BETWEEN.
#[derive(Drop)]
pub enum Range {
    OfChain(Boxed<Chain>),
    OfList(Sum, List<Sum>),
    OfBounds(Sum, Sum),
}

/// What follows an atom's first sum.
#[derive(Drop)]
pub enum Test {
    Compared(Op, Sum),
    Null(bool),
    Ranged(bool, Range),
}

fn ranged(left: Sum, not: bool, range: Range) -> Atom
    ensures { result ≡ spec.ranged left not range }
{
    match range {
        Range::OfChain(chain) => Atom::InChain(left, not, chain),
        Range::OfList(head, tail) => Atom::InList(left, not, head, tail),
        Range::OfBounds(low, high) => Atom::Between(left, not, low, high),
    }
}

/// The atom of its first sum and what follows that.
pub(crate) fn atom_of(left: Sum, test: Test) -> Atom
    ensures { result ≡ spec.atom_of left test }
{
    match test {
        Test::Compared(op, right) => Atom::Cmp(left, op, right),
        Test::Null(not) => Atom::IsNull(left, not),
        Test::Ranged(not, range) => ranged(left, not, range),
    }
}
