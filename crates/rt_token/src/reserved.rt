//! The list of reserved words. `specs/Reserved.antt` has the same list, and the two change
//! together.

ghost use Rattle.std.specs.Prelude.{◌≡◌};
ghost use Rattle.rt_token.specs.Reserved.{is_reserved};

const RESERVED: [&str; 43] = [
    "all",
    "and",
    "as",
    "between",
    "case",
    "cast",
    "check",
    "constraint",
    "create",
    "cross",
    "distinct",
    "except",
    "exists",
    "foreign",
    "from",
    "full",
    "group",
    "having",
    "in",
    "inner",
    "intersect",
    "is",
    "join",
    "left",
    "like",
    "limit",
    "natural",
    "not",
    "null",
    "on",
    "or",
    "order",
    "outer",
    "primary",
    "references",
    "right",
    "select",
    "table",
    "union",
    "unique",
    "using",
    "where",
    "with",
];

/// Whether a word, in lower case, is reserved: then it can't be a name unless it is quoted.
#[tactic(auto, unfolding(crate::specs::Reserved::is_reserved))]
pub fn is_reserved(word: &str) -> bool
    ensures { result ≡ is_reserved word.now }
{
    RESERVED.contains(&word)
}
