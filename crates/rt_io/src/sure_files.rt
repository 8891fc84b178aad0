//! Files in memory that hold what they are given, and have nothing else to set.

ghost use Rattle.std.specs.Prelude.{◌≡◌, ◌≢◌, ◌<◌, ◌≤◌, ℕ, List, [], true, vec_len, length, drop, Some, None, OnOk, OnErr, IfOk};
ghost use Rattle.std.specs.Option.{option_map, option_map_or, ForSome};
ghost use Rattle.rt_io.specs.Held.{held_in};

use crate::files::{BeginFail, Failed, Files};
use crate::gave::{Gave, Note, is_end};
use crate::held::{Held, find, give, put};
use rt_value::{Bytes, List, NoMemory, Txt};
use std::alloc::Global;

#[derive(Drop)]
struct Current {
    name: Txt,
    bytes: Bytes,
    at: usize,
}

/// Files in memory that fail only when out of memory. A name that is not held is an empty file.
#[derive(Drop)]
pub struct SureFiles {
    alloc: Global,
    files: Vec<Held>,
    current: Option<Current>,
    begun: Vec<Txt>,
    gave: Gave,
    ghost in_range: { ForSome current (λ c. c.at ≤ length c.bytes) },
}

impl SureFiles {
    /// No file holds anything, and no file is current.
    pub fn new(alloc: Global) -> SureFiles
        ensures { (name : List ℕ) → ⟦<SureFiles as Files>⟧.held result name ≡ [] }
    {
        SureFiles {
            alloc,
            files: Vec::new(alloc),
            current: None,
            begun: Vec::new(alloc),
            gave: Gave::new(),
        }
    }

    /// Holds these bytes under this name.
    pub fn hold(&mut self, name: &str, bytes: &[u8]) -> Result<(), NoMemory>
        ensures held { OnOk result (⟦<SureFiles as Files>⟧.held self.new name.now ≡ bytes.now) }
        ensures others { (other : List ℕ) → other ≢ name.now → ⟦<SureFiles as Files>⟧.held self.new other ≡ ⟦<SureFiles as Files>⟧.held self.old other }
        ensures err { OnErr result (⟦<SureFiles as Files>⟧.held self.new ≡ ⟦<SureFiles as Files>⟧.held self.old) }
    {
        put(self.alloc, &mut self.files, name, bytes)
    }

    // A copy of the bytes of a name.
    fn contents(&self, name: &str) -> Result<Bytes, NoMemory>
        ensures { IfOk result (λ bytes. bytes ≡ ⟦<SureFiles as Files>⟧.held self.now name.now) }
    {
        match find(self.files.as_slice(), name) {
            Some(found) => List::from_slice(self.alloc, found.as_slice()),
            None => Ok(List::new(self.alloc)),
        }
    }
}

impl Files for SureFiles {
    ghost tells = { true };

    ghost has = { λ _ _. true };

    ghost held = { λ f. held_in f.files.items };

    ghost current = { λ f. option_map (λ c. c.name) f.current };

    ghost left = { λ f. option_map_or (λ c. drop c.at c.bytes) f.current [] };

    ghost taken = { λ f. option_map_or (λ c. c.at) f.current 0 };

    ghost faults = { λ _ _. 0 };

    ghost begun = { λ f. f.begun.items };

    ghost gave = { λ f. f.gave.readings };

    fn begin(&mut self, name: &str) -> Result<(), BeginFail> {
        self.current = None;
        let Ok(text) = Txt::of(self.alloc, name) else {
            return Err(BeginFail::NoMemory);
        };
        let Ok(entry) = text.copy(self.alloc) else {
            return Err(BeginFail::NoMemory);
        };
        if self.begun.push(entry).is_err() {
            return Err(BeginFail::NoMemory);
        }
        let Ok(bytes) = self.contents(name) else {
            return Err(BeginFail::NoMemory);
        };
        self.gave = self.gave.with(&Note::Begun(name));
        self.current = Some(Current {
            name: text,
            bytes,
            at: 0,
        });
        Ok(())
    }

    fn read(&mut self, buf: &mut [u8]) -> Result<usize, Failed> {
        match &mut self.current {
            None => Ok(0),
            Some(current) => {
                let n = give(&current.bytes.as_slice()[current.at..], buf, usize::MAX);
                current.at += n;
                let ended = is_end(n, buf.len());
                self.gave = self.gave.with(&Note::Read(&buf[..n], ended));
                Ok(n)
            }
        }
    }
}
