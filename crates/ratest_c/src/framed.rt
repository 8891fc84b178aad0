//! The files of a request, as those that a command reads. Nothing else can be read.

ghost use Rattle.std.specs.Prelude.{◌≡◌, ◌≤◌, ℕ, List, [], true, length, drop, min, take};
ghost use Rattle.std.specs.Option.{option_map, option_map_or, ForSome};
ghost use Rattle.ratest_c.specs.Files.{held_in, has_in, counts_in};

use crate::file::{File, find};
use rt_io::{BeginFail, Failed, Files, Gave, Note, is_end};
use rt_value::{Bytes, List, Txt};
use std::alloc::Global;

#[derive(Drop)]
struct Current {
    name: Txt,
    bytes: Bytes,
    at: usize,
}

/// The files of a request. A name that none of them has can't be read.
#[derive(Drop)]
pub(crate) struct Framed {
    alloc: Global,
    files: List<File>,
    current: Option<Current>,
    begun: Vec<Txt>,
    gave: Gave,
    ghost in_range: { ForSome current (λ c. c.at ≤ length c.bytes) },
}

impl Framed {
    pub(crate) fn new(alloc: Global, files: List<File>) -> Framed
        ensures { result.files ≡ files }
    {
        Framed {
            alloc,
            files,
            current: None,
            begun: Vec::new(alloc),
            gave: Gave::new(),
        }
    }
}

// Puts as many of the bytes in front as fit.
fn give(bytes: &[u8], buf: &mut [u8]) -> usize
    ensures count { result ≡ min (length bytes.now) (length buf.old) }
    ensures front { take result buf.new ≡ take result bytes.now }
{
    let n = bytes.len().min(buf.len());
    buf[..n].copy_from_slice(&bytes[..n]);
    n
}

impl Files for Framed {
    ghost tells = { true };

    ghost has = { λ f. has_in f.files };

    ghost held = { λ f. held_in f.files };

    ghost current = { λ f. option_map (λ c. c.name) f.current };

    ghost left = { λ f. option_map_or (λ c. drop c.at c.bytes) f.current [] };

    ghost taken = { λ f. option_map_or (λ c. c.at) f.current 0 };

    // A file never fails, an empty one neither. The count of a name without a file is the last that a `u64`
    // has: there a call that fails has no count to raise, whatever names there are afterwards.
    ghost faults = { λ f. counts_in f.files };

    ghost begun = { λ f. f.begun.items };

    ghost gave = { λ f. f.gave.readings };

    fn begin(&mut self, name: &str) -> Result<(), BeginFail> {
        self.current = None;
        let Ok(text) = Txt::of(self.alloc, name) else {
            return Err(BeginFail::NoMemory);
        };
        let Ok(entry) = text.copy(self.alloc) else {
            return Err(BeginFail::NoMemory);
        };
        if self.begun.push(entry).is_err() {
            return Err(BeginFail::NoMemory);
        }
        let Some(found) = find(self.files.as_slice(), name) else {
            return Err(BeginFail::Failed);
        };
        let Ok(bytes) = List::from_slice(self.alloc, found.bytes.as_slice()) else {
            return Err(BeginFail::NoMemory);
        };
        self.gave = self.gave.with(&Note::Begun(name));
        self.current = Some(Current {
            name: text,
            bytes,
            at: 0,
        });
        Ok(())
    }

    fn read(&mut self, buf: &mut [u8]) -> Result<usize, Failed> {
        match &mut self.current {
            None => Ok(0),
            Some(current) => {
                let n = give(&current.bytes.as_slice()[current.at..], buf);
                current.at += n;
                let ended = is_end(n, buf.len());
                self.gave = self.gave.with(&Note::Read(&buf[..n], ended));
                Ok(n)
            }
        }
    }
}
