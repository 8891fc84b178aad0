//! An accepted command: all that the search and the texts need.

use rt_input::Input;
use rt_ra_tree::RaText;

/// What is asked of an accepted input: its two algebra texts, and the input of their queries.
#[derive(Drop)]
pub(crate) struct Asked {
    pub(crate) input: Input,
    pub(crate) left: RaText,
    pub(crate) right: RaText,
}
