//! How often the calls on each name failed. Entries in a vector are private to the files that
//! keep them.

ghost use Rattle.std.specs.Prelude.{◌≡◌, ◌≢◌, ◌+◌, ◌<◌, ◌≤◌, ◌++◌, ◌∷◌, ℕ, List, [], length, OnOk, OnErr, vec_len};
ghost use Rattle.rt_io.specs.Edge.{Rose, OnlyRises};
ghost use Rattle.rt_io.specs.Counts.{count_in, name_at, names_in};

use rt_value::{NoMemory, Txt};
use std::alloc::Global;

/// The failed calls of one begin and of the reads after it. A name that is begun again gets a
/// further entry, so that raising a count takes no memory.
#[derive(Drop)]
pub(crate) struct Entry {
    pub(crate) name: Txt,
    pub(crate) count: u64,
}

/// Makes an entry for a name that is begun.
pub(crate) fn enter(alloc: Global, entries: &mut Vec<Entry>, name: &str) -> Result<(), NoMemory>
    ensures same { (q : List ℕ) → count_in entries.new.items q ≡ count_in entries.old.items q }
    ensures len { OnOk result (vec_len entries.new ≡ vec_len entries.old + 1) }
    ensures name { OnOk result (name_at entries.new.items (vec_len entries.old) ≡ name.now) }
    ensures entered { OnOk result (names_in entries.new.items ≡ names_in entries.old.items ++ name.now ∷ []) }
    ensures err { OnErr result (names_in entries.new.items ≡ names_in entries.old.items) }
{
    let name = Txt::of(alloc, name)?;
    entries.push(Entry { name, count: 0 })?;
    Ok(())
}

/// The name of this entry.
pub(crate) fn name_at(entries: &[Entry], at: usize) -> &str
    requires { at < length entries.now }
    ensures { result.now ≡ name_at entries.now at }
{
    entries[at].name.as_str()
}

/// Raises the count of the name of this entry.
pub(crate) fn raise(entries: &mut Vec<Entry>, at: usize)
    requires { at < vec_len entries.old }
    ensures rose { Rose (count_in entries.old.items (name_at entries.old.items at)) (count_in entries.new.items (name_at entries.old.items at)) }
    ensures rises { OnlyRises (name_at entries.old.items at) (count_in entries.old.items) (count_in entries.new.items) }
    ensures names { (i : ℕ) → name_at entries.new.items i ≡ name_at entries.old.items i }
    ensures all { names_in entries.new.items ≡ names_in entries.old.items }
    ensures len { vec_len entries.new ≡ vec_len entries.old }
{
    let entry = &mut entries[at];
    entry.count = entry.count.saturating_add(1);
}
