//! What a command writes: the text of its outcome, to the sink of that outcome. It has the
//! definitions that contracts of commands share, and what follows of the end of a writing.

#![tactic(auto)]
