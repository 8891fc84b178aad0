//! The sources of a FROM clause as they come. That names are kept twice is private: callers see the
//! list alone.

ghost use Rattle.std.specs.Prelude.{◌≡◌, ◌++◌, ◌∷◌, [], IfOk, is_some, length};
ghost use Rattle.rt_scope.specs.Lookup.{source_named};

use crate::source::Source;
use rt_value::{List, NoMemory, Txt};
use std::alloc::Global;
use std::collections::BTreeSet;
use std::marker::Model;

/// The sources of a SELECT in their order. To find out whether one has a name takes time in the
/// logarithm of their number.
#[derive(Drop)]
pub struct Sources {
    list: List<Source>,
    names: BTreeSet<Txt>,
}

impl Model for Sources {
    ghost use Rattle.std.specs.Prelude.{List as Items};
    ghost use Rattle.rt_scope.specs.Names.{AreNamesOf};
    ghost use Rattle.rt_scope.specs.declared.source.Source.{Source as Named};

    ghost Value = { Items Named };

    ghost view = { λ s. s.list };

    ghost invariant = { λ s. AreNamesOf s.list s.names.keys };
}

impl Sources {
    /// No sources, which takes no memory.
    pub fn new(alloc: Global) -> Sources
        ensures { result ≡ [] }
    {
        Sources {
            list: List::new(alloc),
            names: BTreeSet::new(alloc),
        }
    }

    pub fn as_slice(&self) -> &[Source]
        ensures { result.now ≡ self.now }
    {
        self.list.as_slice()
    }

    pub fn len(&self) -> usize
        ensures { result ≡ length self.now }
    {
        self.list.len()
    }

    /// Whether one of the sources has this name.
    pub fn has(&self, name: &Txt) -> bool
        ensures { result ≡ is_some (source_named name.now self.now) }
    {
        self.names.contains(name)
    }

    /// The sources with one more at the end.
    pub fn with(self, alloc: Global, source: Source) -> Result<Sources, NoMemory>
        ensures { IfOk result (λ more. more ≡ self ++ source ∷ []) }
    {
        let Sources {
            mut list,
            mut names,
        } = self;
        names.insert(source.name.copy(alloc)?)?;
        list.push(source)?;
        Ok(Sources { list, names })
    }
}
