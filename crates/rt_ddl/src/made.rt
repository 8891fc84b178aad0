//! What each part of a condition makes, and the loop over a list of parts, proved once.

ghost use Rattle.std.specs.Prelude.{◌≡◌, ◌∷◌, ℕ, IfOk, map};
ghost use Rattle.rt_ddl.specs.Meaning.{column_at, columns_of};
ghost use Rattle.rt_token.specs.Terminals.{Word};

use crate::known::KnownTable;
use rt_value::{List, NoMemory};
use std::alloc::Global;

/// A part of a condition, which makes a part of a check.
pub trait Makes {
    type Made: Drop;

    ghost of_places: { (Word → ℕ) → Self → Self.Made };

    fn made(&self, alloc: Global, table: &KnownTable) -> Result<Self::Made, NoMemory>
        ensures { IfOk result (λ m. m ≡ of_places (column_at (columns_of table.now.parts)) self.now) };
}

/// What the head and the others make.
pub(crate) fn all_made<T: Makes>(
    alloc: Global,
    table: &KnownTable,
    head: &T,
    tail: &[T],
) -> Result<List<T::Made>, NoMemory>
    ensures { let made = T.of_places (column_at (columns_of table.now.parts)) in IfOk result (λ all. all ≡ made head.now ∷ map made tail.now) }
{
    let mut all = List::new(alloc);
    all.push(head.made(alloc, table)?)?;
    for item in tail {
        all.push(item.made(alloc, table)?)?;
    }
    Ok(all)
}
