//! The tree of a query, one type for each line of the grammar (ISO/IEC 9075-2, query expression).
//!
//! A type that is in no cycle has a drop of its own: one call wherever a value goes, while a
//! derived one would be made anew in each crate.

use rt_token::Name;
use rt_value::{Boxed, List, Txt};

/// `"=" | "<>" | "<" | "<=" | ">" | ">="`
#[derive(Clone, Copy, Debug, PartialEq, Eq)]
pub enum Op {
    Eq,
    Ne,
    Lt,
    Le,
    Gt,
    Ge,
}

/// `[ AS ] name`
pub struct Alias {
    pub as_word: bool,
    pub name: Name,
}

impl Drop for Alias {
    fn drop(self) {
        let Alias {
            as_word: _,
            name: _,
        } = self;
    }
}

/// `mul { ( "+" | "-" ) mul }`
#[cycle(sum)]
#[derive(Drop)]
pub struct Sum {
    pub head: Mul,
    pub tail: List<SumLink>,
}

/// `( "+" | "-" ) mul`
#[cycle(sum)]
#[derive(Drop)]
pub struct SumLink {
    pub minus: bool,
    pub of: Mul,
}

/// `factor { "*" factor }`
#[cycle(sum)]
#[derive(Drop)]
pub struct Mul {
    pub head: Factor,
    pub tail: List<Factor>,
}

/// `{ "-" } leaf`
#[cycle(sum)]
#[derive(Drop)]
pub struct Factor {
    pub minuses: usize,
    pub of: Leaf,
}

/// `number | text | NULL | [ name "." ] name | "(" sum ")"`
#[cycle(sum)]
#[derive(Drop)]
pub enum Leaf {
    Number(i128),
    Str(Txt),
    Null,
    Col(Option<Name>, Name),
    Paren(Boxed<Sum>),
}

/// `name "." "*" | sum [ alias ]`
pub enum Item {
    All(Name),
    One(Sum, Option<Alias>),
}

impl Drop for Item {
    fn drop(self) {
        match self {
            Item::All(_) => {}
            Item::One(_, _) => {}
        }
    }
}

/// `"*" | item { "," item }`
pub enum Items {
    Star,
    Some(Item, List<Item>),
}

impl Drop for Items {
    fn drop(self) {
        match self {
            Items::Star => {}
            Items::Some(_, _) => {}
        }
    }
}

/// `meet { ( UNION | EXCEPT ) [ DISTINCT ] meet }`
#[cycle(chain)]
#[derive(Drop)]
pub struct Chain {
    pub head: Meet,
    pub tail: List<ChainLink>,
}

/// `( UNION | EXCEPT ) [ DISTINCT ] meet`
#[cycle(chain)]
#[derive(Drop)]
pub struct ChainLink {
    pub except: bool,
    pub distinct: bool,
    pub of: Meet,
}

/// `primary { INTERSECT [ DISTINCT ] primary }`
#[cycle(chain)]
#[derive(Drop)]
pub struct Meet {
    pub head: Primary,
    pub tail: List<MeetLink>,
}

/// `INTERSECT [ DISTINCT ] primary`
#[cycle(chain)]
#[derive(Drop)]
pub struct MeetLink {
    pub distinct: bool,
    pub of: Primary,
}

/// `pick | "(" chain ")"`
#[cycle(chain)]
#[derive(Drop)]
pub enum Primary {
    One(Boxed<Pick>),
    Paren(Boxed<Chain>),
}

/// `SELECT [ DISTINCT ] items FROM source { "," source } [ WHERE cond ]`
#[cycle(chain)]
#[derive(Drop)]
pub struct Pick {
    pub distinct: bool,
    pub items: Items,
    pub head: Source,
    pub tail: List<Source>,
    pub cond: Option<Cond>,
}

/// `base { join }`
#[cycle(chain)]
#[derive(Drop)]
pub struct Source {
    pub head: Base,
    pub joins: List<Join>,
}

/// `name [ alias ] | "(" chain ")" alias`
#[cycle(chain)]
#[derive(Drop)]
pub enum Base {
    Named(Name, Option<Alias>),
    Sub(Boxed<Chain>, Alias),
}

/// `JOIN base ON cond | INNER JOIN base ON cond | CROSS JOIN base`
#[cycle(chain)]
#[derive(Drop)]
pub enum Join {
    Plain(Base, Cond),
    Inner(Base, Cond),
    Cross(Base),
}

/// `conj { OR conj }`
#[cycle(chain)]
#[derive(Drop)]
pub struct Cond {
    pub head: Conj,
    pub tail: List<Conj>,
}

/// `neg { AND neg }`
#[cycle(chain)]
#[derive(Drop)]
pub struct Conj {
    pub head: Neg,
    pub tail: List<Neg>,
}

/// `{ NOT } atom`
#[cycle(chain)]
#[derive(Drop)]
pub struct Neg {
    pub nots: usize,
    pub atom: Atom,
}

/// A comparison, a test or a condition in parentheses. The Bool is true if this NOT is there:
///
/// `sum op sum | sum IS [ NOT ] NULL | sum [ NOT ] IN "(" chain ")"
/// | sum [ NOT ] IN "(" sum { "," sum } ")" | sum [ NOT ] BETWEEN sum AND sum
/// | EXISTS "(" chain ")" | "(" cond ")"`
#[cycle(chain)]
#[derive(Drop)]
pub enum Atom {
    Cmp(Sum, Op, Sum),
    IsNull(Sum, bool),
    InChain(Sum, bool, Boxed<Chain>),
    InList(Sum, bool, Sum, List<Sum>),
    Between(Sum, bool, Sum, Sum),
    Exists(Boxed<Chain>),
    Paren(Boxed<Cond>),
}

/// `chain [ ";" ]`
pub struct Sql {
    pub chain: Chain,
    pub semi: bool,
}

impl Drop for Sql {
    fn drop(self) {
        let Sql { chain: _, semi: _ } = self;
    }
}
