//! The names of PROJECT and RENAME as texts.

ghost use Rattle.std.specs.Prelude.{◌≡◌, IfOk};
ghost use Rattle.rt_relation.specs.Columns as spec;

use rt_ra_tree::RaNames;
use rt_value::{List, NoMemory, Txt};
use std::alloc::Global;

/// The texts of the names.
pub(crate) fn texts(alloc: Global, names: &RaNames) -> Result<List<Txt>, NoMemory>
    ensures { IfOk result (λ texts. texts ≡ spec.texts names.now) }
{
    let mut texts = List::new(alloc);
    texts.push(names.head.text.copy(alloc)?)?;
    for name in names.tail.as_slice() {
        texts.push(name.text.copy(alloc)?)?;
    }
    Ok(texts)
}
