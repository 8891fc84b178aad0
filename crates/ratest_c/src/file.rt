//! The files of a request, found by their names.

ghost use Rattle.std.specs.Prelude.{◌≡◌, [], true, false, MatchOption};
ghost use Rattle.ratest_c.specs.Files.{held_in, has_in};

use rt_value::{Bytes, Txt};

/// A file of a request.
#[derive(Drop)]
pub(crate) struct File {
    pub(crate) name: Txt,
    pub(crate) bytes: Bytes,
}

/// The first file of this name.
pub(crate) fn find<'a>(files: &'a [File], name: &str) -> Option<&'a File>
    ensures has { MatchOption result (has_in files.now name.now ≡ false) (λ file. has_in files.now name.now ≡ true) }
    ensures bytes { MatchOption result (held_in files.now name.now ≡ []) (λ file. file.now.bytes ≡ held_in files.now name.now) }
{
    for file in files {
        if file.name.as_str() == name {
            return Some(file);
        }
    }
    None
}
