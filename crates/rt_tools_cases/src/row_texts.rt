//! Rows from their texts: what is read, and what each refused text is refused for.

use rt_algebra::{Query, Typed};
use rt_schema::ColKind;
use rt_token::LexFault;
use rt_tools::{RowFault, read_row};
use rt_value::{Boxed, List, Row, Value};
use std::alloc::Global;
use std::process::Abort;

// A query with a column of texts and one of whole numbers.
fn typed(rt: &impl Abort, alloc: Global) -> Typed {
    Typed {
        query: Boxed::new(alloc, Query::Table(0)).expect(rt, "memory"),
        kinds: List::from_slice(alloc, &[ColKind::Text, ColKind::Whole]).expect(rt, "memory"),
        bounds: List::new(alloc),
        names: List::new(alloc),
    }
}

fn read(rt: &impl Abort, alloc: Global, text: &str) -> Result<Row, RowFault> {
    let typed = typed(rt, alloc);
    let row = read_row(alloc, text.as_bytes(), &typed);
    drop(typed);
    row
}

fn is_name(value: &Value, name: Option<&str>) -> bool {
    match (value, name) {
        (Value::Text(text), Some(name)) => text.as_str() == name,
        (Value::Null, None) => true,
        _ => false,
    }
}

// Whether the text is read as this text, or NULL, and this number.
fn is_row(rt: &impl Abort, alloc: Global, text: &str, name: Option<&str>, number: i128) -> bool {
    let row = read(rt, alloc, text).expect(rt, "a row");
    let found = match row.as_slice() {
        [first, Value::Int(n)] => is_name(first, name) && *n == number,
        _ => false,
    };
    drop(row);
    found
}

// Whether the text is refused for this.
fn is_fault(rt: &impl Abort, alloc: Global, text: &str, fault: RowFault) -> bool {
    match read(rt, alloc, text) {
        Ok(row) => {
            drop(row);
            false
        }
        Err(other) => other == fault,
    }
}

#[test]
fn cells_parted_by_commas(rt: HostRuntime) {
    let alloc = rt.alloc();
    for (text, name, number) in &[
        ("'Mary', 216", Some("Mary"), 216),
        ("NULL,- 7", None, -7),
        (" 'it''s' -- a comment\n, -0", Some("it's"), 0),
    ] {
        assert!(rt; is_row(&rt, alloc, text, *name, *number), "{text}");
    }
}

#[test]
fn texts_that_are_no_row(rt: HostRuntime) {
    let alloc = rt.alloc();
    for (text, fault) in &[
        ("'Mary", RowFault::Lex(LexFault::OpenText(0))),
        ("", RowFault::RowSyntax),
        ("'Mary', 1,", RowFault::RowSyntax),
        ("'Mary' 1", RowFault::RowSyntax),
        ("'Mary', - - 1", RowFault::RowSyntax),
        ("'Mary', - NULL", RowFault::RowSyntax),
        ("Mary, 1", RowFault::RowSyntax),
        ("'Mary'", RowFault::RowWidth),
        ("5, 'Mary', 1", RowFault::RowWidth),
        ("5, 1", RowFault::RowKind),
        ("NULL, 'Mary'", RowFault::RowKind),
    ] {
        assert!(rt; is_fault(&rt, alloc, text, *fault), "{text}");
    }
}
