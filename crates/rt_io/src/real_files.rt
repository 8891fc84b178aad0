//! The files of the system. What a file holds is outside of every contract; proved is which were
//! begun, that what each read gave is noted, how much was read and which calls failed.

ghost use Rattle.std.specs.Prelude.{◌≡◌, ◌<◌, ◌≤◌, ℕ, List, [], false, vec_len, Some, None};
ghost use Rattle.std.specs.Option.{option_map, option_map_or, ForSome};
ghost use Rattle.rt_io.specs.Counts.{count_in, name_at, names_in};

use crate::counts::{Entry, enter, raise};
use crate::files::{BeginFail, Failed, Files};
use crate::gave::{Gave, Note, is_end};
use std::alloc::Global;
use std::fs::{self, File};
use std::io::Read;

#[derive(Drop)]
struct Current {
    entry: usize,
    file: File,
    taken: u64,
}

/// The files of the system, whose contents no contract knows.
#[derive(Drop)]
pub struct RealFiles {
    rt: HostRuntime,
    alloc: Global,
    entries: Vec<Entry>,
    current: Option<Current>,
    gave: Gave,
    ghost in_range: { ForSome current (λ c. c.entry < vec_len entries) },
}

impl RealFiles {
    /// The files that the process may open. No file is current.
    pub fn new(rt: HostRuntime) -> RealFiles
        ensures faults { (name : List ℕ) → ⟦<RealFiles as Files>⟧.faults result name ≡ 0 }
        ensures gave { ⟦<RealFiles as Files>⟧.gave result ≡ [] }
    {
        let alloc = rt.alloc();
        RealFiles {
            rt,
            alloc,
            entries: Vec::new(alloc),
            current: None,
            gave: Gave::new(),
        }
    }
}

impl Files for RealFiles {
    ghost tells = { false };

    ghost has = { λ _ _. false };

    ghost held = { λ _ _. [] };

    ghost current = { λ f. option_map (λ c. name_at f.entries.items c.entry) f.current };

    ghost left = { λ _. [] };

    ghost taken = { λ f. option_map_or (λ c. c.taken) f.current 0 };

    ghost faults = { λ f. count_in f.entries.items };

    ghost begun = { λ f. names_in f.entries.items };

    ghost gave = { λ f. f.gave.readings };

    fn begin(&mut self, name: &str) -> Result<(), BeginFail> {
        self.current = None;
        let entry = self.entries.len();
        if enter(self.alloc, &mut self.entries, name).is_err() {
            return Err(BeginFail::NoMemory);
        }
        let Ok(file) = fs::open(&self.rt, name) else {
            raise(&mut self.entries, entry);
            return Err(BeginFail::Failed);
        };
        self.gave = self.gave.with(&Note::Begun(name));
        self.current = Some(Current {
            entry,
            file,
            taken: 0,
        });
        Ok(())
    }

    fn read(&mut self, buf: &mut [u8]) -> Result<usize, Failed> {
        match &mut self.current {
            None => Ok(0),
            Some(current) => {
                if let Ok(n) = current.file.read(buf) {
                    current.taken = current.taken.saturating_add(n as u64);
                    let ended = is_end(n, buf.len());
                    self.gave = self.gave.with(&Note::Read(&buf[..n], ended));
                    return Ok(n);
                }
                raise(&mut self.entries, current.entry);
                Err(Failed)
            }
        }
    }
}
