//! The queries of an input, from their texts to the algebra.

ghost use Rattle.std.specs.Prelude.{◌≡◌, IfOk, IfErr, Ok};
ghost use Rattle.rt_algebra.specs.Typed.{IsTypedOf};
ghost use Rattle.rt_input.specs.Judged.{like_left, query_of, query_of_tokens, query_of_tree};
ghost use Rattle.rt_token.specs.Lexed.{lexed};
ghost use Rattle.rt_input.specs.Placed.{IsPlaceless, PlacedIn};
ghost use Rattle.rt_input.specs.Source.{Text};
ghost use Rattle.rt_input.specs.Steps.{Refuses, SpeaksOf};
ghost use Rattle.rt_input.specs.declared.part.Part.TheVariants as parts;

use crate::faults::{lex_outcome, name_outcome, sql_outcome};
use crate::outcome::Outcome;
use crate::part::Part;
use rt_algebra::Typed;
use rt_resolve::{resolve, shapes};
use rt_schema::Schema;
use rt_sql::parse;
use rt_token::{Token, tokens};
use rt_tree::Sql;
use std::alloc::Global;

// The query of a tree.
fn query_of_tree(alloc: Global, part: Part, schema: &Schema, tree: &Sql) -> Result<Typed, Outcome>
    ensures typed { IfOk result (IsTypedOf schema.now) }
    ensures ok { IfOk result (λ typed. query_of_tree part schema.now tree.now ≡ Ok typed) }
    ensures err { IfErr result (Refuses (query_of_tree part schema.now tree.now)) }
    ensures speaks { IfErr result (SpeaksOf (λ p. p ≡ part)) }
    ensures place { IfErr result (λ o. (text : Text) → PlacedIn part text o) }
{
    match resolve(alloc, tree, schema) {
        Ok(typed) => Ok(typed),
        Err(fault) => Err(name_outcome(part, fault)),
    }
}

// The query of tokens.
fn query_of_tokens(
    alloc: Global,
    part: Part,
    schema: &Schema,
    tokens: &[Token],
) -> Result<Typed, Outcome>
    ensures typed { IfOk result (IsTypedOf schema.now) }
    ensures ok { IfOk result (λ typed. query_of_tokens part schema.now tokens.now ≡ Ok typed) }
    ensures err { IfErr result (Refuses (query_of_tokens part schema.now tokens.now)) }
    ensures speaks { IfErr result (SpeaksOf (λ p. p ≡ part)) }
    ensures place { IfErr result (λ o. (text : Text) → lexed text ≡ Ok tokens.now → PlacedIn part text o) }
{
    match parse(alloc, tokens) {
        Ok(tree) => query_of_tree(alloc, part, schema, &tree),
        Err(fault) => Err(sql_outcome(part, fault)),
    }
}

/// The typed query of a text: tokens, tree, and then its meaning over the schema. An error names
/// the part.
pub fn query_of(alloc: Global, part: Part, schema: &Schema, text: &[u8]) -> Result<Typed, Outcome>
    ensures typed { IfOk result (IsTypedOf schema.now) }
    ensures ok { IfOk result (λ typed. query_of part schema.now text.now ≡ Ok typed) }
    ensures err { IfErr result (Refuses (query_of part schema.now text.now)) }
    ensures speaks { IfErr result (SpeaksOf (λ p. p ≡ part)) }
    ensures place { IfErr result (PlacedIn part text.now) }
{
    match tokens(alloc, text) {
        Ok(tokens) => query_of_tokens(alloc, part, schema, tokens.as_slice()),
        Err(fault) => Err(lex_outcome(part, fault)),
    }
}

/// The second query, if it has as many columns as the first, of the same kinds.
pub fn like_left(left: &Typed, right: Typed) -> Result<Typed, Outcome>
    ensures kinds { IfOk result (λ typed. typed.kinds ≡ left.now.kinds) }
    ensures ok { IfOk result (λ typed. (typed ≡ right) × (like_left left.now right ≡ Ok typed)) }
    ensures err { IfErr result (Refuses (like_left left.now right)) }
    ensures speaks { IfErr result (SpeaksOf (λ p. p ≡ parts.Queries)) }
    ensures place { IfErr result IsPlaceless }
{
    match shapes(left, &right) {
        Ok(()) => Ok(right),
        Err(fault) => Err(name_outcome(Part::Queries, fault)),
    }
}
