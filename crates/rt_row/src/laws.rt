//! That a call on a row has one answer, as the contract of a function.

ghost use Rattle.rt_row.specs.OneRow.{HasOneRowAnswer};

/// At most one choice of rows is the first of the smallest at which a row holds. So two calls on
/// the same arguments, row and contents that both end without a spent budget have the same
/// verdict and text.
pub fn row_answer_is_one()
    ensures { HasOneRowAnswer }
{}
