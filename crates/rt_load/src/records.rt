//! The records of a table's file, as the crate `csv` reads them: the only module that sets its
//! options.

ghost use Rattle.std.specs.Prelude.{◌≡◌, IfOk, IfErr};
ghost use Rattle.csv.specs.Reading.{default_config, records, strip_bom};
ghost use Rattle.csv.specs.Records.{fields_of};
ghost use Rattle.rt_load.specs.Records.{IsReading, ReadsNext, left_of};

use crate::fault::LoadFault;
use csv::{ByteRecord, ErrorKind, Reader, ReaderBuilder};
use std::alloc::Global;

/// A reader of each record of the bytes, whatever the number of its fields.
pub(crate) fn reader_of(alloc: Global, bytes: &[u8]) -> Reader<&[u8]>
    ensures reading { IsReading result }
    ensures left { left_of result ≡ records default_config (strip_bom bytes.now) }
{
    ReaderBuilder::new()
        .has_headers(false)
        .flexible(true)
        .from_reader(alloc, bytes)
}

/// Reads the next record into `fields` and answers true, or answers false after the last one.
pub(crate) fn read_next(
    reader: &mut Reader<&[u8]>,
    fields: &mut ByteRecord,
) -> Result<bool, LoadFault>
    requires { IsReading reader.old }
    ensures next { IfOk result (λ found. ReadsNext reader.old reader.new found (fields_of fields.new)) }
    ensures err { IfErr result (λ e. e ≡ LoadFault.NoMemory) }
{
    match reader.read_byte_record(fields) {
        Ok(found) => Ok(found),
        Err(e) => match e.kind() {
            // The source is a slice, which never fails: only the memory of its buffer can.
            ErrorKind::OutOfMemory | ErrorKind::Io(_) => Err(LoadFault::NoMemory),
            _ => unreachable!(),
        },
    }
}
