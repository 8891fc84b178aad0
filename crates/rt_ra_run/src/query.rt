//! One algebra text, from its bytes to the query that it becomes: tokens, tree, names.

ghost use Rattle.std.specs.Prelude.{◌≡◌, IfOk, IfErr, Ok};
ghost use Rattle.rt_token.specs.Lexed.{lexed};
ghost use Rattle.rt_ra_tree.specs.Formed.{IsFormed};
ghost use Rattle.rt_input.specs.Source.{Text};
ghost use Rattle.rt_ra_run.specs.Asked.{IsLowered};
ghost use Rattle.rt_ra_run.specs.Judged.{query_of, query_of_tokens, query_of_tree};
ghost use Rattle.rt_ra_run.specs.Placed.{PlacedIn};
ghost use Rattle.rt_ra_run.specs.Steps.{Refuses};

use crate::faults::fault_outcome;
use crate::outcome::RaOutcome;
use rt_algebra::Typed;
use rt_input::Part;
use rt_ra::resolve_ra;
use rt_ra_tree::{RaFault, RaText, parse_ra};
use rt_schema::Schema;
use rt_token::{Token, tokens};
use std::alloc::Global;

/// An algebra text, and the query that it becomes.
#[derive(Drop)]
pub(crate) struct Lowered {
    pub(crate) text: RaText,
    pub(crate) typed: Typed,
}

// The query of a tree.
fn query_of_tree(
    alloc: Global,
    part: Part,
    schema: &Schema,
    text: RaText,
) -> Result<Lowered, RaOutcome>
    requires formed { IsFormed text }
    ensures sound { IfOk result (IsLowered schema.now) }
    ensures ok { IfOk result (λ q. query_of_tree part schema.now text ≡ Ok q) }
    ensures err { IfErr result (Refuses (query_of_tree part schema.now text)) }
    ensures place { IfErr result (λ o. (bytes : Text) → PlacedIn part bytes o) }
{
    match resolve_ra(alloc, &text, schema) {
        Ok(typed) => Ok(Lowered { text, typed }),
        Err(fault) => Err(fault_outcome(part, fault)),
    }
}

// The query of tokens.
fn query_of_tokens(
    alloc: Global,
    part: Part,
    schema: &Schema,
    tokens: &[Token],
) -> Result<Lowered, RaOutcome>
    ensures sound { IfOk result (IsLowered schema.now) }
    ensures ok { IfOk result (λ q. query_of_tokens part schema.now tokens.now ≡ Ok q) }
    ensures err { IfErr result (Refuses (query_of_tokens part schema.now tokens.now)) }
    ensures place { IfErr result (λ o. (text : Text) → lexed text ≡ Ok tokens.now → PlacedIn part text o) }
{
    match parse_ra(alloc, tokens) {
        Ok(text) => query_of_tree(alloc, part, schema, text),
        Err(fault) => Err(fault_outcome(part, fault)),
    }
}

/// The query of a text, or its first error as an outcome.
pub(crate) fn query_of(
    alloc: Global,
    part: Part,
    schema: &Schema,
    text: &[u8],
) -> Result<Lowered, RaOutcome>
    ensures sound { IfOk result (IsLowered schema.now) }
    ensures ok { IfOk result (λ q. query_of part schema.now text.now ≡ Ok q) }
    ensures err { IfErr result (Refuses (query_of part schema.now text.now)) }
    ensures place { IfErr result (PlacedIn part text.now) }
{
    match tokens(alloc, text) {
        Ok(tokens) => query_of_tokens(alloc, part, schema, tokens.as_slice()),
        Err(fault) => Err(fault_outcome(part, RaFault::Lex(fault))),
    }
}
