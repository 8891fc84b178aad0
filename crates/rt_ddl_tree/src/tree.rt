//! The tree of a schema text, one type for each line of the grammar.
//!
//! A type with forms or trees in it has a `drop` of its own, which is one call wherever a value
//! goes. A derived one would be written out there, in each crate, with all forms.

use crate::counted::Counted;
use crate::test_tree::Test;
use rt_token::Name;
use rt_value::List;

/// `[ create { ";" create } [ ";" ] ]`
pub enum SchemaText {
    Empty,
    /// The first table, the others, and whether a semicolon ends the text.
    Creates(Create, List<Create>, bool),
}

impl Drop for SchemaText {
    fn drop(self) {
        match self {
            SchemaText::Empty => {}
            SchemaText::Creates(_, _, _) => {}
        }
    }
}

/// `CREATE TABLE [ IF NOT EXISTS ] name "(" item { "," item } ")"`
pub struct Create {
    pub if_not_exists: bool,
    pub name: Name,
    pub head: Item,
    pub tail: List<Item>,
}

impl Drop for Create {
    fn drop(self) {
        let Create {
            if_not_exists: _,
            name: _,
            head: _,
            tail: _,
        } = self;
    }
}

/// `column | [ CONSTRAINT name ] table rule`
pub enum Item {
    Column(Column),
    Rule(Option<Name>, TableRule),
}

impl Drop for Item {
    fn drop(self) {
        match self {
            Item::Column(_) => {}
            Item::Rule(_, _) => {}
        }
    }
}

/// `name kind { [ CONSTRAINT name ] column rule }`
#[derive(Drop)]
pub struct Column {
    pub name: Name,
    pub kind: KindWord,
    pub rules: List<ColumnConstraint>,
}

/// `INTEGER | INT | BIGINT | TEXT | ( CHAR | VARCHAR ) [ "(" number ")" ]`
#[derive(Drop)]
pub enum KindWord {
    Integer,
    Int,
    BigInt,
    Text,
    Char(Option<i128>),
    VarChar(Option<i128>),
}

/// `[ CONSTRAINT name ] column rule`
#[derive(Drop)]
pub struct ColumnConstraint {
    pub name: Option<Name>,
    pub rule: ColumnRule,
}

/// `NOT NULL | NULL | PRIMARY KEY | UNIQUE | REFERENCES name [ "(" name ")" ]
/// | CHECK "(" test ")"`
#[derive(Drop)]
pub enum ColumnRule {
    NotNull,
    Null,
    PrimaryKey,
    Unique,
    References(Name, Option<Name>),
    Check(Counted<Test>),
}

/// `PRIMARY KEY names | UNIQUE names | FOREIGN KEY names REFERENCES name [ names ]
/// | CHECK "(" test ")" | DEPENDENCY names DETERMINES names`
pub enum TableRule {
    PrimaryKey(Names),
    Unique(Names),
    Foreign(Names, Name, Option<Names>),
    Check(Counted<Test>),
    Depend(Names, Names),
}

impl Drop for TableRule {
    fn drop(self) {
        match self {
            TableRule::PrimaryKey(_) => {}
            TableRule::Unique(_) => {}
            TableRule::Foreign(_, _, _) => {}
            TableRule::Check(_) => {}
            TableRule::Depend(_, _) => {}
        }
    }
}

/// `"(" name { "," name } ")"`
pub struct Names {
    pub head: Name,
    pub tail: List<Name>,
}

impl Drop for Names {
    fn drop(self) {
        let Names { head: _, tail: _ } = self;
    }
}
