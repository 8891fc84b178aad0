//! A row with its node: what annotated evaluation passes from layer to layer.

use crate::entry::Node;
use rt_value::Row;

/// A row that may be in an answer, and the node that says at which choices it is.
#[derive(Debug)]
pub struct Noted {
    pub row: Row,
    pub node: Node,
}

impl Drop for Noted {
    fn drop(self) {
        let Noted { row: _, node: _ } = self;
    }
}
