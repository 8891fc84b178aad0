//! That a call has one answer, as the contract of a function.

ghost use Rattle.rt_top.specs.One.{HasOneAnswer};

/// At most one choice is a smallest counterexample. So two calls on the same arguments and
/// contents that both end in agreement or in a witness give the same outcome, with the same
/// status and text.
pub fn answer_is_one()
    ensures { HasOneAnswer }
{}
