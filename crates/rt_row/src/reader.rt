//! A row from its text, in the columns of a query.

ghost use Rattle.std.specs.Prelude.{◌≡◌, IfOk};
ghost use Rattle.rt_value.specs.Gives.{Gives};
ghost use Rattle.rt_row.specs.Rows as spec;

use crate::cell::cell;
use crate::fault::RowFault;
use rt_algebra::Typed;
use rt_schema::ColKind;
use rt_token::{LexFault, Sym, Token, TokenKind, tokens};
use rt_value::{NoMemory, Row, Value};
use std::alloc::Global;

fn is_comma(token: &Token) -> bool
    ensures { result ≡ spec.is_comma token.now }
{
    matches!(&token.kind, TokenKind::Sym(Sym::Comma))
}

// The cells that these tokens are, if they are cells with commas between them.
fn cells(alloc: Global, tokens: &[Token]) -> Result<Option<Row>, NoMemory>
    ensures { IfOk result (λ row. row ≡ spec.cells tokens.now) }
{
    let mut row = Row::new(alloc);
    'parts: for part in tokens.split(|token| is_comma(token)) {
        match cell(alloc, part)? {
            Some(value) => row.push(value)?,
            None => return Ok(None),
        }
    }
    Ok(Some(row))
}

fn has_kind(value: &Value, kind: ColKind) -> bool
    ensures { result ≡ spec.has_kind value.now kind }
{
    match value {
        Value::Null => true,
        Value::Int(_) => kind == ColKind::Whole,
        Value::Text(_) => kind == ColKind::Text,
    }
}

// Whether each of the cells is NULL or of its column's kind.
fn have_kinds(row: &[Value], kinds: &[ColKind]) -> bool
    ensures { result ≡ spec.have_kinds row.now kinds.now }
{
    row.iter()
        .zip(kinds)
        .all(|(value, kind)| has_kind(value, *kind))
}

// The row of these columns that the tokens are.
fn row_of(alloc: Global, tokens: &[Token], kinds: &[ColKind]) -> Result<Row, RowFault>
    ensures { Gives spec.is_memory result (spec.row_of tokens.now kinds.now) }
{
    let Some(row) = cells(alloc, tokens)? else {
        return Err(RowFault::RowSyntax);
    };
    if row.len() != kinds.len() {
        return Err(RowFault::RowWidth);
    }
    if !have_kinds(row.as_slice(), kinds) {
        return Err(RowFault::RowKind);
    }
    Ok(row)
}

/// The row of a query's columns that a text is, such as `-3, 'it''s'`. Its cells are NULL, whole
/// numbers with one minus sign at most, and texts in quotes, as they are printed.
pub fn read_row(alloc: Global, text: &[u8], typed: &Typed) -> Result<Row, RowFault>
    ensures { Gives spec.is_memory result (spec.row_read text.now typed.now.kinds) }
{
    match tokens(alloc, text) {
        Ok(tokens) => row_of(alloc, tokens.as_slice(), typed.kinds.as_slice()),
        Err(LexFault::NoMemory) => Err(RowFault::NoMemory),
        Err(fault) => Err(RowFault::Lex(fault)),
    }
}
