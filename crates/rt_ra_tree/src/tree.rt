//! The tree of an algebra text, one type for each line of the grammar.

use rt_token::Name;
use rt_value::{Boxed, List, Op, Txt};

/// `name | [ "-" ] number | text`. The Bool is true if the minus is there.
#[derive(Drop)]
pub enum RaSide {
    Col(Name),
    Number(bool, i128),
    Str(Txt),
}

/// `side op side | name IS [ NOT ] NULL`. The Bool is true if NOT is there.
#[derive(Drop)]
pub enum RaTest {
    Cmp(Op, RaSide, RaSide),
    IsNull(Name, bool),
}

/// `test { AND test }`
#[derive(Drop)]
pub struct RaTests {
    pub head: RaTest,
    pub tail: List<RaTest>,
}

/// `"(" name { "," name } ")"`
#[derive(Drop)]
pub struct RaNames {
    pub head: Name,
    pub tail: List<Name>,
}

/// An operator of two operands.
#[derive(Clone, Copy)]
pub enum RaOp {
    Cross,
    Join,
    Semi,
    Anti,
    LeftJoin,
    Divide,
    Union,
    Except,
    Intersect,
}

/// `name | SELECT "(" ra "," cond ")" | PROJECT "(" ra "," names ")" | RENAME "(" ra "," names ")"
/// | two "(" ra "," ra ")"`
#[derive(Drop)]
pub enum Ra {
    Table(Name),
    Select(Boxed<Ra>, RaTests),
    Project(Boxed<Ra>, RaNames),
    Rename(Boxed<Ra>, RaNames),
    Two(RaOp, Boxed<Ra>, Boxed<Ra>),
}

/// `ra [ ";" ]`
#[derive(Drop)]
pub struct RaText {
    pub of: Ra,
    pub semi: bool,
}
