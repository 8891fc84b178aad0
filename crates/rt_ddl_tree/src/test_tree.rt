//! The tree of a CHECK's condition, one type for each line of the grammar. Drops are as in `tree`.

use rt_token::Name;
use rt_value::{List, Op, Txt};

/// `part { OR part }`
pub struct Test {
    pub head: TestPart,
    pub tail: List<TestPart>,
}

impl Drop for Test {
    fn drop(self) {
        let Test { head: _, tail: _ } = self;
    }
}

/// `leaf { AND leaf }`
#[derive(Drop)]
pub struct TestPart {
    pub head: TestLeaf,
    pub tail: List<TestLeaf>,
}

/// `[ NOT ] form`
#[derive(Drop)]
pub struct TestLeaf {
    pub not: bool,
    pub form: TestForm,
}

/// A comparison or a test, where the bool is true if this NOT is there:
///
/// `side op side | side IS [ NOT ] NULL | side [ NOT ] BETWEEN side AND side
/// | side [ NOT ] IN "(" side { "," side } ")"`
pub enum TestForm {
    Cmp(TestSide, Op, TestSide),
    IsNull(TestSide, bool),
    Between(TestSide, bool, TestSide, TestSide),
    OneOf(TestSide, bool, TestSide, List<TestSide>),
}

impl Drop for TestForm {
    fn drop(self) {
        match self {
            TestForm::Cmp(_, _, _) => {}
            TestForm::IsNull(_, _) => {}
            TestForm::Between(_, _, _, _) => {}
            TestForm::OneOf(_, _, _, _) => {}
        }
    }
}

/// `name | [ "-" ] number | text | NULL`. The bool is true if the minus is there.
pub enum TestSide {
    Column(Name),
    Number(bool, i128),
    Str(Txt),
    Null,
}

impl Drop for TestSide {
    fn drop(self) {
        match self {
            TestSide::Column(_) => {}
            TestSide::Number(_, _) => {}
            TestSide::Str(_) => {}
            TestSide::Null => {}
        }
    }
}
