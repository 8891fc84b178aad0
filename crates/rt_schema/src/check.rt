//! CHECKs, as `rt_ddl` makes them: OR of ANDs of atoms. Each type has a drop of its own, as in
//! `table`.

use rt_value::{List, Op, Value};

/// A side of a comparison in a CHECK: the cell of a column, by the column's number, or a constant.
#[derive(PartialEq, Eq)]
pub enum Side {
    Column(usize),
    Constant(Value),
}

impl Drop for Side {
    fn drop(self) {
        match self {
            Side::Column(_) => {}
            Side::Constant(_) => {}
        }
    }
}

/// A comparison, IS NULL, BETWEEN (the value, the lower bound, the upper bound), or IN with a list.
#[derive(PartialEq, Eq)]
pub enum CheckLeaf {
    Cmp(Op, Side, Side),
    IsNull(Side),
    Between(Side, Side, Side),
    OneOf(Side, List<Side>),
}

impl Drop for CheckLeaf {
    fn drop(self) {
        match self {
            CheckLeaf::Cmp(_, _, _) => {}
            CheckLeaf::IsNull(_) => {}
            CheckLeaf::Between(_, _, _) => {}
            CheckLeaf::OneOf(_, _) => {}
        }
    }
}

/// A leaf, or its negation.
#[derive(PartialEq, Eq)]
pub struct CheckAtom {
    pub not: bool,
    pub of: CheckLeaf,
}

impl Drop for CheckAtom {
    fn drop(self) {
        let CheckAtom { not: _, of: _ } = self;
    }
}

/// Atoms joined by AND.
#[derive(PartialEq, Eq)]
pub struct CheckPart {
    pub all: List<CheckAtom>,
}

impl Drop for CheckPart {
    fn drop(self) {
        let CheckPart { all: _ } = self;
    }
}

/// A CHECK: parts joined by OR.
#[derive(PartialEq, Eq)]
pub struct Check {
    pub any: List<CheckPart>,
}

impl Drop for Check {
    fn drop(self) {
        let Check { any: _ } = self;
    }
}
