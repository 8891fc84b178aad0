//! What both kinds of files in memory share: a list of named contents, the newest first.

ghost use Rattle.std.specs.Prelude.{◌≡◌, ◌≢◌, ℕ, List, min, length, take, [], false, true, MatchOption, OnOk, OnErr};
ghost use Rattle.rt_io.specs.Held.{held_in, has_in};

use rt_value::{Bytes, List, NoMemory, Txt};
use std::alloc::Global;

/// A name and what the file of that name holds.
#[derive(Drop)]
pub(crate) struct Held {
    pub(crate) name: Txt,
    pub(crate) bytes: Bytes,
}

/// Puts a file in front of the others, so that they hold these bytes under this name.
pub(crate) fn put(
    alloc: Global,
    files: &mut Vec<Held>,
    name: &str,
    bytes: &[u8],
) -> Result<(), NoMemory>
    ensures has { OnOk result (has_in files.new.items name.now ≡ true) }
    ensures held { OnOk result (held_in files.new.items name.now ≡ bytes.now) }
    ensures others_has { (other : List ℕ) → other ≢ name.now → has_in files.new.items other ≡ has_in files.old.items other }
    ensures others { (other : List ℕ) → other ≢ name.now → held_in files.new.items other ≡ held_in files.old.items other }
    ensures err { OnErr result (held_in files.new.items ≡ held_in files.old.items) }
{
    let name = Txt::of(alloc, name)?;
    let bytes = List::from_slice(alloc, bytes)?;
    files.insert(0, Held { name, bytes })?;
    Ok(())
}

/// The bytes of the first file of this name.
pub(crate) fn find<'a>(files: &'a [Held], name: &str) -> Option<&'a Bytes>
    ensures has { MatchOption result (has_in files.now name.now ≡ false) (λ bytes. has_in files.now name.now ≡ true) }
    ensures bytes { MatchOption result (held_in files.now name.now ≡ []) (λ bytes. bytes.now ≡ held_in files.now name.now) }
{
    for file in files {
        if file.name.as_str() == name {
            return Some(&file.bytes);
        }
    }
    None
}

/// Copies as many of the bytes to the front of `buf` as fit, but at most `piece`, and answers
/// how many.
pub(crate) fn give(bytes: &[u8], buf: &mut [u8], piece: usize) -> usize
    ensures count { result ≡ min (min (length bytes.now) (length buf.old)) piece }
    ensures front { take result buf.new ≡ take result bytes.now }
{
    let n = bytes.len().min(buf.len()).min(piece);
    buf[..n].copy_from_slice(&bytes[..n]);
    n
}
