//! The command of a request, and its files.

ghost use Rattle.std.specs.Prelude.{◌≡◌, [], None, Some, IfOk, IsErrOf};
ghost use Rattle.ratest_c.specs.Frames.{Takes, texts_at, file_at, files_at, request_of};

use crate::fault::Fault;
use crate::file::File;
use crate::reader::Reader;
use rt_value::{List, Txt};
use std::alloc::Global;

/// A command with the files that it may read.
#[derive(Drop)]
pub(crate) struct Request {
    pub(crate) words: List<Txt>,
    pub(crate) files: List<File>,
}

fn read_words(alloc: Global, reader: &mut Reader, count: u32) -> Result<List<Txt>, Fault>
    ensures ok { IfOk result (λ words. Takes (texts_at count [] reader.old.rest.now) words reader.new.rest.now) }
    ensures err { IsErrOf result Fault.Malformed → texts_at count [] reader.old.rest.now ≡ None }
{
    let mut words = List::new(alloc);
    for _ in 0..count {
        words.push(Txt::of(alloc, reader.text()?)?)?;
    }
    Ok(words)
}

fn read_file(alloc: Global, reader: &mut Reader) -> Result<File, Fault>
    ensures ok { IfOk result (λ file. Takes (file_at reader.old.rest.now) file reader.new.rest.now) }
    ensures err { IsErrOf result Fault.Malformed → file_at reader.old.rest.now ≡ None }
{
    let name = Txt::of(alloc, reader.text()?)?;
    let bytes = List::from_slice(alloc, reader.field()?)?;
    Ok(File { name, bytes })
}

fn read_files(alloc: Global, reader: &mut Reader, count: u32) -> Result<List<File>, Fault>
    ensures ok { IfOk result (λ files. Takes (files_at count [] reader.old.rest.now) files reader.new.rest.now) }
    ensures err { IsErrOf result Fault.Malformed → files_at count [] reader.old.rest.now ≡ None }
{
    let mut files = List::new(alloc);
    for _ in 0..count {
        files.push(read_file(alloc, reader)?)?;
    }
    Ok(files)
}

/// The request that these bytes frame.
pub(crate) fn read_request(alloc: Global, bytes: &[u8]) -> Result<Request, Fault>
    ensures ok { IfOk result (λ request. request_of bytes.now ≡ Some request) }
    ensures err { IsErrOf result Fault.Malformed → request_of bytes.now ≡ None }
{
    let mut reader = Reader { rest: bytes };
    let word_count = reader.number()?;
    let file_count = reader.number()?;
    let words = read_words(alloc, &mut reader, word_count)?;
    let files = read_files(alloc, &mut reader, file_count)?;
    if reader.rest.is_empty() {
        Ok(Request { words, files })
    } else {
        Err(Fault::Malformed)
    }
}
