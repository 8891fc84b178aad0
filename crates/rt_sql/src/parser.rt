//! From tokens to a query's tree: words that are refused, nesting, and then the grammar. Crates
//! above rest on the laws below, and not on how the readers in this crate branch.

ghost use Rattle.std.specs.Prelude.{◌≡◌, IfSome, List, Some, Ok, Err};
ghost use Rattle.rt_token.specs.Reads.{Answers};
ghost use Rattle.rt_sql.specs.Formed.{IsTreeOf};
ghost use Rattle.rt_sql.specs.Reads as spec;
ghost use Rattle.rt_sql.specs.Refusals.{IsAnswer, is_memory, refusal};
ghost use Rattle.rt_sql.specs.Trees.{TreeRead};
ghost use Rattle.rt_sql.specs.Whole.{placeless, sql_read, tree_read};
ghost use Rattle.rt_token.specs.declared.token.Token.{Token as Lexed};
ghost use Rattle.rt_tree.specs.declared.tree.Sql.{Sql as Tree};
ghost use Rattle.rt_value.specs.Gives.{Gives};

use crate::chains::inner_chain;
use crate::depth::is_deep;
use crate::fault::SqlFault;
use crate::words::unsupported;
use rt_token::{ReadFault, Terminal, Token, end, syntax_place, terminals};
use rt_tree::Sql;
use std::alloc::Global;

#[tactic(auto, unfolding(crate::specs::Reads::read_sql))]
fn query(alloc: Global, terminals: &[Terminal]) -> Result<Sql, ReadFault>
    ensures { Answers result (spec.read_sql terminals.now) }
{
    let (chain, rest) = inner_chain(alloc, terminals.len() + 1, terminals)?;
    match end(rest) {
        Ok(semi) => Ok(Sql { chain, semi }),
        Err(fault) => {
            drop(chain);
            Err(fault)
        }
    }
}

fn tree(alloc: Global, tokens: &[Token]) -> Result<Sql, ReadFault>
    ensures { TreeRead tokens.now result }
{
    let terminals = terminals(alloc, tokens)?;
    query(alloc, terminals.as_slice())
}

/// The tree of a query (ISO/IEC 9075-2, query expression), or why the tokens are none.
pub fn parse(alloc: Global, tokens: &[Token]) -> Result<Sql, SqlFault>
    ensures answer { IsAnswer tokens.now result }
    ensures tree { (t : Tree) → IsTreeOf tokens.now t → Gives is_memory result (Ok t) }
    ensures refused { IfSome (refusal tokens.now) (λ fault. Gives is_memory result (Err fault)) }
    ensures read { Gives is_memory (placeless result) (sql_read tokens.now) }
{
    if let Some((word, at)) = unsupported(tokens) {
        return Err(SqlFault::Unsupported(word.copy(alloc)?, at));
    }
    if is_deep(tokens) {
        return Err(SqlFault::TooDeep);
    }
    match tree(alloc, tokens) {
        Ok(tree) => Ok(tree),
        Err(ReadFault::Syntax(left)) => Err(SqlFault::Syntax(syntax_place(tokens, left))),
        Err(ReadFault::NoMemory) => Err(SqlFault::NoMemory),
    }
}

/// The tree that is read is just the one that the tokens have.
pub fn read_is_tree()
    ensures { (tokens : List Lexed) (t : Tree) → (IsTreeOf tokens t → tree_read tokens ≡ Some t) × (tree_read tokens ≡ Some t → IsTreeOf tokens t) }
{}

/// Tokens are those of at most one tree.
pub fn one_tree()
    ensures { (tokens : List Lexed) (s t : Tree) → IsTreeOf tokens s → IsTreeOf tokens t → s ≡ t }
{}
