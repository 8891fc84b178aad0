//! The reader of the tree, and the laws that its result is the one tree that the tokens have.
//! Crates above rest on these laws, and not on how the readers in this crate branch.

ghost use Rattle.std.specs.Prelude.{◌≡◌, List, Some};
ghost use Rattle.rt_ddl_tree.specs.Spelled.{IsTreeOf};
ghost use Rattle.rt_ddl_tree.specs.Trees.{TreeRead, tree_read};
ghost use Rattle.rt_ddl_tree.specs.declared.tree.SchemaText.{SchemaText as Tree};
ghost use Rattle.rt_token.specs.declared.token.Token.{Token as Lexed};

use crate::tables::text;
use crate::tree::SchemaText;
use rt_token::{ReadFault, Token, terminals};
use std::alloc::Global;

/// The tree of the tokens. A syntax error says how many tokens were left where it was seen.
pub fn read_tree(alloc: Global, tokens: &[Token]) -> Result<SchemaText, ReadFault>
    ensures { TreeRead tokens.now result }
{
    let terminals = terminals(alloc, tokens)?;
    text(alloc, terminals.as_slice())
}

/// The tree that is read is just the one that the tokens have.
pub fn read_is_tree()
    ensures { (tokens : List Lexed) (t : Tree) → (IsTreeOf tokens t → tree_read tokens ≡ Some t) × (tree_read tokens ≡ Some t → IsTreeOf tokens t) }
{}

/// Tokens are those of at most one tree.
pub fn one_tree()
    ensures { (tokens : List Lexed) (s t : Tree) → IsTreeOf tokens s → IsTreeOf tokens t → s ≡ t }
{}
