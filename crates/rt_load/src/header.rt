//! The header of a table's file: the columns' names in order. A byte order mark is refused.

ghost use Rattle.std.specs.Prelude.{◌≡◌, ◌==◌, ◌&&◌};
ghost use Rattle.csv.specs.Records.{fields_of};
ghost use Rattle.rt_load.specs.Loaded as spec;

use crate::integer::trimmed;
use csv::ByteRecord;
use rt_schema::Column;
use rt_value::Txt;

/// Whether the bytes begin with a byte order mark.
pub(crate) fn begins_with_mark(bytes: &[u8]) -> bool
    ensures { result ≡ spec.begins_with_mark bytes.now }
{
    match bytes {
        [a, b, c, ..] => *a == 0xEF && *b == 0xBB && *c == 0xBF,
        _ => false,
    }
}

/// Whether the fields of a record are the columns' names, without the blanks around them and
/// whatever the case of their letters.
pub(crate) fn is_header(columns: &[Column], fields: &ByteRecord) -> bool
    ensures { result ≡ spec.is_header columns.now (fields_of fields.now) }
{
    if fields.len() != columns.len() {
        return false;
    }
    for (i, column) in columns.iter().enumerate() {
        let Some(field) = fields.get(i) else {
            unreachable!();
        };
        if !is_name(&column.name, field) {
            return false;
        }
    }
    true
}

fn is_name(name: &Txt, field: &[u8]) -> bool
    ensures { result ≡ spec.is_name name.now field.now }
{
    trimmed(field).eq_ignore_ascii_case(name.as_bytes())
}
