//! The two orders of decisions.

ghost use Rattle.std.specs.Prelude.{◌≡◌, ◌<◌, ◌≤◌, ◌^◌, true};
ghost use Rattle.rt_solver.specs.declared.order.Order.TheVariants.{Free, Fixed};

use rt_clause::Lit;

/// How a search decides: freely, where the variable that counts most comes first and is set to
/// false; or in the order of the variables, where the smallest open one is set to true.
#[derive(Clone, Copy)]
pub enum Order {
    Free,
    Fixed,
}

impl Order {
    /// The bound of the variables of which the one that counts most comes first.
    pub(crate) fn bound(self, first: usize) -> usize
        ensures low { result ≤ first }
        ensures free { self ≡ Free → result ≡ first }
        ensures fixed { self ≡ Fixed → result ≡ 0 }
    {
        match self {
            Order::Free => first,
            Order::Fixed => 0,
        }
    }

    pub(crate) fn decision(self, v: usize) -> Lit
        requires { v < 2 ^ 62 }
        ensures var { result.var ≡ v }
        ensures fixed { self ≡ Fixed → result.on ≡ true }
    {
        match self {
            Order::Free => Lit::of(v, false),
            Order::Fixed => Lit::of(v, true),
        }
    }
}
