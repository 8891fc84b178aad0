//! What the reads of files gave. It is there for proofs alone: it takes no memory, and its calls do
//! nothing.

ghost use Rattle.std.specs.Prelude.{◌≡◌, List, []};
ghost use Rattle.std.specs.Borrow.{ftrue};
ghost use Rattle.rt_io.specs.Gave.{Reading, is_end};

use std::marker::Model;

/// The readings so far, the newest first: one for each name that was begun.
#[derive(Drop)]
pub struct Gave {
    pub ghost readings: { List Reading },
}

impl Model for Gave {
    ghost also_owns = { λ _. ftrue };
}

/// What is noted: a name that was begun, or the bytes that one read gave and whether they are the
/// end of the file.
#[derive(Clone, Copy, Drop)]
pub enum Note<'a> {
    Begun(&'a str),
    Read(&'a [u8], bool),
}

impl Gave {
    ghost use Rattle.rt_io.specs.Noted.{noted};

    /// Nothing was read.
    pub fn new() -> Gave
        ensures { result.readings ≡ [] }
    {
        Gave {}
    }

    /// The readings with this note.
    pub fn with(&self, _note: &Note<'_>) -> Gave
        ensures { result.readings ≡ noted _note.now self.now.readings }
    {
        Gave {}
    }
}

/// Whether `n` bytes into a buffer with this room are the end of a file.
pub fn is_end(n: usize, room: usize) -> bool
    ensures { result ≡ is_end n room }
{
    n == 0 && 0 < room
}
