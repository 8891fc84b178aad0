//! From bytes to a schema: tokens, tree, parts, the five tests, and the tables.

ghost use Rattle.rt_ddl.specs.Meaning.{is_memory, schema_of};
ghost use Rattle.rt_ddl.specs.Parts as spec;
ghost use Rattle.rt_ddl.specs.Read.{IsAnswer, TreeAnswer};
ghost use Rattle.rt_ddl.specs.Whole.{placeless, schema_read};
ghost use Rattle.rt_value.specs.Gives.{Gives};

use crate::build::tables_of;
use crate::fault::SchemaFault;
use crate::known_tables::KnownTables;
use crate::limits::check_limits;
use crate::matches::mismatched;
use crate::texts::table_texts;
use crate::twice::tables_twice;
use crate::typed::untyped;
use crate::unknown::tables_unknown;
use rt_ddl_tree::{SchemaText, read_tree};
use rt_schema::Schema;
use rt_token::{ReadFault, syntax_place, tokens};
use std::alloc::Global;

// The schema that the texts make, or their first error.
#[tactic(auto, using(crate::proofs::SoundLemmas::sound_tables))]
fn schema(alloc: Global, texts: &KnownTables) -> Result<Schema, SchemaFault>
    ensures { Gives is_memory result (schema_of texts.now) }
{
    if let Some(name) = tables_twice(alloc, texts.as_slice())? {
        return Err(SchemaFault::DuplicateName(name.copy(alloc)?));
    }
    if let Some(name) = tables_unknown(texts) {
        return Err(SchemaFault::UnknownName(name.copy(alloc)?));
    }
    if let Some(name) = mismatched(texts) {
        return Err(SchemaFault::KeyTypes(name.copy(alloc)?));
    }
    let tables = tables_of(alloc, texts)?;
    check_limits(alloc, tables.as_slice())?;
    if let Some(name) = untyped(tables.as_slice()) {
        return Err(SchemaFault::CheckTypes(name.copy(alloc)?));
    }
    Ok(Schema::new(tables))
}

fn made(alloc: Global, tree: &SchemaText) -> Result<Schema, SchemaFault>
    ensures { Gives is_memory result (schema_of (spec.table_texts tree.now)) }
{
    let texts = table_texts(alloc, tree)?;
    schema(alloc, &texts)
}

/// The schema of a text of CREATE TABLE statements (ISO/IEC 9075-2, table definition), or the first
/// error of the text.
pub fn read_schema(alloc: Global, text: &[u8]) -> Result<Schema, SchemaFault>
    ensures answer { IsAnswer text.now result }
    ensures tree { TreeAnswer text.now (Gives is_memory result) }
    ensures read { Gives is_memory (placeless result) (schema_read text.now) }
{
    let tokens = tokens(alloc, text)?;
    match read_tree(alloc, tokens.as_slice()) {
        Ok(tree) => {
            let schema = made(alloc, &tree);
            drop(tree);
            schema
        }
        Err(ReadFault::Syntax(left)) => {
            Err(SchemaFault::Syntax(syntax_place(tokens.as_slice(), left)))
        }
        Err(ReadFault::NoMemory) => Err(SchemaFault::NoMemory),
    }
}
