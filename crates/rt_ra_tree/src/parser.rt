//! From tokens to an algebra text's tree. Crates above rest on the laws below, and not on how the
//! readers in this crate branch.

ghost use Rattle.std.specs.Prelude.{◌≡◌, IfSome, List, Some, Ok, Err};
ghost use Rattle.rt_token.specs.Reads.{Answers};
ghost use Rattle.rt_ra_tree.specs.Formed.{IsTreeOf};
ghost use Rattle.rt_ra_tree.specs.Reads as spec;
ghost use Rattle.rt_ra_tree.specs.Refusals.{IsAnswer, is_memory, refusal};
ghost use Rattle.rt_ra_tree.specs.Trees.{TreeRead};
ghost use Rattle.rt_ra_tree.specs.Whole.{placeless, ra_read, tree_read};
ghost use Rattle.rt_ra_tree.specs.declared.tree.RaText.{RaText as Tree};
ghost use Rattle.rt_token.specs.declared.token.Token.{Token as Lexed};
ghost use Rattle.rt_value.specs.Gives.{Gives};

use crate::depth::is_deep;
use crate::fault::RaFault;
use crate::reader::ra;
use crate::tree::RaText;
use rt_token::{ReadFault, Terminal, Token, end, syntax_place, terminals};
use std::alloc::Global;

#[tactic(auto, unfolding(crate::specs::Reads::read_text))]
fn text(alloc: Global, terminals: &[Terminal]) -> Result<RaText, ReadFault>
    ensures { Answers result (spec.read_text terminals.now) }
{
    let (of, rest) = ra(alloc, terminals.len() + 1, terminals)?;
    match end(rest) {
        Ok(semi) => Ok(RaText { of, semi }),
        Err(fault) => {
            drop(of);
            Err(fault)
        }
    }
}

fn tree(alloc: Global, tokens: &[Token]) -> Result<RaText, ReadFault>
    ensures { TreeRead tokens.now result }
{
    let terminals = terminals(alloc, tokens)?;
    text(alloc, terminals.as_slice())
}

/// The tree of an algebra text, or why the tokens are none: too deep, or else the syntax.
pub fn parse_ra(alloc: Global, tokens: &[Token]) -> Result<RaText, RaFault>
    ensures answer { IsAnswer tokens.now result }
    ensures tree { (t : Tree) → IsTreeOf tokens.now t → Gives is_memory result (Ok t) }
    ensures refused { IfSome (refusal tokens.now) (λ fault. Gives is_memory result (Err fault)) }
    ensures read { Gives is_memory (placeless result) (ra_read tokens.now) }
{
    if is_deep(tokens) {
        return Err(RaFault::TooDeep);
    }
    match tree(alloc, tokens) {
        Ok(tree) => Ok(tree),
        Err(ReadFault::Syntax(left)) => Err(RaFault::Syntax(syntax_place(tokens, left))),
        Err(ReadFault::NoMemory) => Err(RaFault::NoMemory),
    }
}

/// The tree that is read is just the one that the tokens have.
pub fn read_is_tree()
    ensures { (tokens : List Lexed) (t : Tree) → (IsTreeOf tokens t → tree_read tokens ≡ Some t) × (tree_read tokens ≡ Some t → IsTreeOf tokens t) }
{}

/// Tokens are those of at most one tree.
pub fn one_tree()
    ensures { (tokens : List Lexed) (s t : Tree) → IsTreeOf tokens s → IsTreeOf tokens t → s ≡ t }
{}
