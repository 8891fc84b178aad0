//! How values, rows and counts are written; each call adds its bytes at the end of `text`.

ghost use Rattle.std.specs.Prelude.{◌≡◌, ◌∷◌, ◌++◌, [], OnOk};
ghost use Rattle.std.specs.Fmt.{decimal};
ghost use Rattle.rt_print.specs.Texts as spec;

use rt_value::{Bytes, NoMemory, Value};
use std::alloc::Global;

/// A line that counts something, such as `witness: 3`.
pub(crate) fn put_count(
    alloc: Global,
    text: &mut Bytes,
    title: &str,
    n: usize,
) -> Result<(), NoMemory>
    ensures { OnOk result (text.new ≡ text.old ++ spec.count_line title.now n) }
{
    text.extend(title.as_bytes())?;
    text.extend(b": ")?;
    put_number(alloc, text, n as u64)?;
    text.push(b'\n')
}

/// The number in decimal digits, without leading zeros.
pub(crate) fn put_number(alloc: Global, text: &mut Bytes, n: u64) -> Result<(), NoMemory>
    ensures { OnOk result (text.new ≡ text.old ++ decimal n) }
{
    let digits = format!(in alloc; "{n}")?;
    text.extend(digits.as_str().as_bytes())
}

/// The values of a row, with a comma and a space between them, as in `1, 'O''Hara', NULL`.
pub(crate) fn put_cells(alloc: Global, text: &mut Bytes, row: &[Value]) -> Result<(), NoMemory>
    ensures { OnOk result (text.new ≡ text.old ++ spec.cells row.now) }
{
    match row {
        [] => Ok(()),
        [first, rest @ ..] => {
            put_cell(alloc, text, first)?;
            put_more(alloc, text, rest)
        }
    }
}

fn put_more(alloc: Global, text: &mut Bytes, row: &[Value]) -> Result<(), NoMemory>
    ensures { OnOk result (text.new ≡ text.old ++ spec.more_cells row.now) }
{
    for value in row {
        text.extend(b", ")?;
        put_cell(alloc, text, value)?;
    }
    Ok(())
}

fn put_cell(alloc: Global, text: &mut Bytes, value: &Value) -> Result<(), NoMemory>
    ensures { OnOk result (text.new ≡ text.old ++ spec.cell value.now) }
{
    match value {
        Value::Null => text.extend(b"NULL"),
        Value::Int(number) => {
            let digits = format!(in alloc; "{number}")?;
            text.extend(digits.as_str().as_bytes())
        }
        Value::Text(content) => {
            text.push(b'\'')?;
            put_doubled(text, content.as_bytes())?;
            text.push(b'\'')
        }
    }
}

fn put_doubled(text: &mut Bytes, content: &[u8]) -> Result<(), NoMemory>
    ensures { OnOk result (text.new ≡ text.old ++ spec.doubled content.now) }
{
    for byte in content {
        if *byte == b'\'' {
            text.push(*byte)?;
        }
        text.push(*byte)?;
    }
    Ok(())
}
