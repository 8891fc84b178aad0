//! What comes after propagation: the question first, then a variable that is open.

ghost use Rattle.std.specs.Prelude.{◌≡◌, ◌<◌, ◌≤◌, ◌^◌, None, IfSome};
ghost use Rattle.rt_solver.specs.declared.order.Order.TheVariants.{Fixed};
ghost use Rattle.rt_solver.specs.Picking.{IsOffered};
ghost use Rattle.rt_solver.specs.Seeking.{IsNext};

use crate::decider::Decider;
use crate::order::Order;
use rt_clause::Lit;
use rt_store::Trail;

/// What comes after propagation: each variable has a value, the question, which is named, is false,
/// or a literal is decided.
#[derive(Clone, Copy)]
pub enum Next {
    Whole,
    Missed(Lit),
    Decide(Lit),
}

// What comes next where no question is open.
fn picked(order: Order, decider: &mut Decider, trail: &Trail) -> Next
    requires few { trail.now.vars ≤ 2 ^ 62 }
    requires bound { decider.old.bound ≤ trail.now.vars }
    requires offered { IsOffered decider.old trail.now.steps }
    ensures bound { decider.new.bound ≡ decider.old.bound }
    ensures next { IsNext decider.new trail.now.vars order None trail.now.steps result }
{
    match decider.pick(trail) {
        None => Next::Whole,
        Some(v) => Next::Decide(order.decision(v)),
    }
}

/// What comes next: the question before all else, as long as it is open.
pub(crate) fn choose(
    order: Order,
    question: &Option<Lit>,
    decider: &mut Decider,
    trail: &Trail,
) -> Next
    requires few { trail.now.vars ≤ 2 ^ 62 }
    requires bound { decider.old.bound ≤ trail.now.vars }
    requires asked { IfSome question.now (λ a. a.var < decider.old.bound) }
    requires offered { IsOffered decider.old trail.now.steps }
    requires fixed { order ≡ Fixed → decider.old.bound ≡ 0 }
    ensures bound { decider.new.bound ≡ decider.old.bound }
    ensures next { IsNext decider.new trail.now.vars order question.now trail.now.steps result }
{
    match question {
        None => picked(order, decider, trail),
        Some(asked) => match trail.is(*asked) {
            None => Next::Decide(*asked),
            Some(false) => Next::Missed(*asked),
            Some(true) => picked(order, decider, trail),
        },
    }
}
