//! The sides of set operators that take rows of the first query alone.

ghost use Rattle.std.specs.Prelude.{◌≡◌};
ghost use Rattle.rt_noted.specs.Annotated.{side_node};

use crate::gate::TruthNodes;
use rt_formula::Node;

/// Which rows are taken: those that are among others (INTERSECT), or those that are not (EXCEPT).
#[derive(Clone, Copy)]
pub enum Side {
    Present,
    Missing,
}

impl Side {
    /// Where the row is taken, of the nodes at which it is among the others and at which it is not.
    pub fn node(self, gate: TruthNodes) -> Node
        ensures { result ≡ side_node self gate }
    {
        match self {
            Side::Present => gate.yes,
            Side::Missing => gate.no,
        }
    }
}
