//! The lists of watches.

ghost use Rattle.std.specs.Prelude.{◌≡◌, ℕ, ◌+◌, ◌<◌, ◌≤◌, ◌^◌, [], ◌∷◌, ◌++◌, length, slice_index_or, slice_set, OnOk};
ghost use Rattle.std.specs.List.{swap_remove};
ghost use Rattle.rt_clause.specs.Packed.{packed};
ghost use Rattle.rt_store.specs.Watching.{Listed, list_at, room_at, noted, IsEdited};

use crate::entry::Entry;
use rt_clause::Lit;
use rt_value::NoMemory;
use std::alloc::Global;
use std::marker::Model;

// Lists are no more than this, so that each literal fits an entry; beyond it, past 100 gigabytes, the
// answer is out of memory.
const MOST_LISTS: usize = 1 << 32;

/// A list of entries for each literal.
#[derive(Drop)]
pub struct Watches {
    lists: Vec<Vec<Entry>>,
    alloc: Global,
}

impl Model for Watches {
    ghost use Rattle.rt_store.specs.Watching.{Lists};
    ghost use Rattle.std.specs.Prelude.{map, vec_items, vec_len, vec_capacity, ◌-◌};

    ghost Value = { Lists };

    ghost view = { λ w. record { lists = map vec_items w.lists.items; rooms = map (λ v. vec_capacity v - vec_len v) w.lists.items } };
}

impl Watches {
    /// No lists, which takes no memory.
    pub fn new(alloc: Global) -> Watches
        ensures { result.lists ≡ [] }
    {
        Watches {
            lists: Vec::new(alloc),
            alloc,
        }
    }

    /// How many lists there are.
    pub fn len(&self) -> usize
        ensures { result ≡ length self.now.lists }
    {
        self.lists.len()
    }

    /// How many entries a list has.
    pub fn count(&self, list: usize) -> usize
        requires { list < length self.now.lists }
        ensures { result ≡ length (list_at self.now.lists list) }
    {
        self.lists[list].len()
    }

    /// The entry at a place of a list.
    pub fn at(&self, list: usize, i: usize) -> Entry
        requires list { list < length self.now.lists }
        requires within { i < length (list_at self.now.lists list) }
        ensures { result ≡ slice_index_or (list_at self.now.lists list) i result }
    {
        self.lists[list][i]
    }

    /// Makes so many lists, where there are fewer.
    pub fn grow(&mut self, lists: usize) -> Result<(), NoMemory>
        ensures kept { (k : ℕ) → list_at self.new.lists k ≡ list_at self.old.lists k }
        ensures longer { length self.old.lists ≤ length self.new.lists }
        ensures few { length self.old.lists ≤ 2 ^ 32 → length self.new.lists ≤ 2 ^ 32 }
        ensures ok { OnOk result (lists ≤ length self.new.lists) }
    {
        if lists > MOST_LISTS {
            return Err(NoMemory);
        }
        'lists: while self.lists.len() < lists {
            self.lists.push(Vec::new(self.alloc))?;
        }
        Ok(())
    }

    /// Makes room for one entry more in a list.
    pub fn reserve(&mut self, list: usize) -> Result<(), NoMemory>
        requires { list < length self.old.lists }
        ensures lists { self.new.lists ≡ self.old.lists }
        ensures rooms { (k : ℕ) → room_at self.old.rooms k ≤ room_at self.new.rooms k }
        ensures ok { OnOk result (0 < room_at self.new.rooms list) }
    {
        self.lists[list].reserve(1)?;
        Ok(())
    }

    /// Puts an entry at the end of a list, where there is room.
    pub fn join(&mut self, list: usize, entry: Entry)
        requires list { list < length self.old.lists }
        requires room { 0 < room_at self.old.rooms list }
        ensures list { list_at self.new.lists list ≡ list_at self.old.lists list ++ entry ∷ [] }
        ensures edited { IsEdited self.old self.new list }
    {
        self.lists[list].push_reserved(entry);
    }

    /// Notes another literal of the clause.
    pub fn note(&mut self, list: usize, i: usize, other: Lit)
        requires list { list < length self.old.lists }
        requires within { i < length (list_at self.old.lists list) }
        requires other { packed other < 2 ^ 32 }
        ensures list { (e : Listed) → e ≡ slice_index_or (list_at self.old.lists list) i e → list_at self.new.lists list ≡ slice_set (list_at self.old.lists list) i (noted e other) }
        ensures edited { IsEdited self.old self.new list }
    {
        let entries = &mut self.lists[list];
        entries[i] = entries[i].noting(other);
    }

    /// Takes an entry out of a list. The last one takes its place.
    pub fn leave(&mut self, list: usize, i: usize)
        requires list { list < length self.old.lists }
        requires within { i < length (list_at self.old.lists list) }
        ensures list { (e : Listed) → e ≡ slice_index_or (list_at self.old.lists list) i e → list_at self.new.lists list ≡ swap_remove (list_at self.old.lists list) i e }
        ensures edited { IsEdited self.old self.new list }
    {
        let _entry = self.lists[list].swap_remove(i);
    }
}
