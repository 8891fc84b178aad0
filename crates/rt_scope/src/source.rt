//! One source of a FROM clause, and the search for it by its name.

ghost use Rattle.std.specs.Prelude.{◌≡◌, option_map};
ghost use Rattle.rt_scope.specs.Lookup as spec;

use crate::column::Column;
use rt_value::{List, Txt};

/// A source of a SELECT: a table or a derived table under its name. `start` is the place of its
/// first column in the row of all sources.
#[derive(Drop)]
pub struct Source {
    pub name: Txt,
    pub columns: List<Column>,
    pub start: usize,
}

/// The source of this name.
pub(crate) fn source_named<'s>(name: &Txt, sources: &'s [Source]) -> Option<&'s Source>
    ensures { option_map (λ s. s.now) result ≡ spec.source_named name.now sources.entry.now }
{
    for source in sources {
        if source.name == *name {
            return Some(source);
        }
    }
    None
}
