//! That a call on two algebra texts has one answer, as the contract of a function.

ghost use Rattle.rt_ra_run.specs.One.{HasOneAnswer};

/// At most one choice is a smallest counterexample of two texts. So two calls on the same arguments
/// and contents that both end in agreement or in a witness give the same outcome and text.
pub fn ra_answer_is_one()
    ensures { HasOneAnswer }
{}
