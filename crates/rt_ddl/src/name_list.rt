//! An index of names. That it is a `BTreeMap` is private; contracts see the names in order.

ghost use Rattle.std.specs.Prelude.{◌≡◌, ◌++◌, ◌∷◌, [], IfOk, OnOk, bytes_eq, length};
ghost use Rattle.rt_token.specs.Terminals.{Word};
ghost use Rattle.rt_ddl.specs.Meaning.{given, has_name, or_else};
ghost use Rattle.rt_ddl.specs.Places.{place_of, placed_at};

use rt_value::{List, NoMemory, Txt};
use std::alloc::Global;
use std::collections::BTreeMap;
use std::marker::Model;

/// Names in an order. Finding one takes time in the logarithm of their number.
pub struct NameList {
    list: List<Txt>,
    places: BTreeMap<Txt, usize>,
}

impl Drop for NameList {
    fn drop(self) {
        let NameList { list: _, places: _ } = self;
    }
}

impl Model for NameList {
    ghost use Rattle.std.specs.Prelude.{List as Items, ℕ};
    ghost use Rattle.rt_ddl.specs.Places.{ArePlacesOf};

    ghost Value = { Items (Items ℕ) };

    ghost view = { λ n. n.list };

    ghost invariant = { λ n. ArePlacesOf n.list n.places.entries };
}

// Puts the place of a name, unless the name has one.
fn put_first(
    alloc: Global,
    places: &mut BTreeMap<Txt, usize>,
    name: &Txt,
    place: usize,
) -> Result<(), NoMemory>
    ensures { OnOk result ((n : Word) → placed_at places.new.entries n ≡ or_else (placed_at places.old.entries n) (given (bytes_eq name.now n) place)) }
{
    if places.contains_key(name) {
        return Ok(());
    }
    places.insert(name.copy(alloc)?, place)?;
    Ok(())
}

impl NameList {
    /// No names, which takes no memory.
    pub fn new(alloc: Global) -> NameList
        ensures { result ≡ [] }
    {
        NameList {
            list: List::new(alloc),
            places: BTreeMap::new(alloc),
        }
    }

    /// Whether the name is among these.
    pub fn has(&self, name: &Txt) -> bool
        ensures { result ≡ has_name self.now name.now }
    {
        self.places.contains_key(name)
    }

    /// How many names there are, repeated ones counted each time.
    pub fn len(&self) -> usize
        ensures { result ≡ length self.now }
    {
        self.list.len()
    }

    /// The first place of a name, from 0.
    pub fn place(&self, name: &Txt) -> Option<usize>
        ensures { result ≡ place_of self.now name.now }
    {
        self.places.get(name).copied()
    }

    /// The names with one more at the end.
    pub fn with(self, alloc: Global, name: &Txt) -> Result<NameList, NoMemory>
        ensures { IfOk result (λ more. more ≡ self ++ name.now ∷ []) }
    {
        let NameList {
            mut list,
            mut places,
        } = self;
        put_first(alloc, &mut places, name, list.len())?;
        list.push(name.copy(alloc)?)?;
        Ok(NameList { list, places })
    }
}
