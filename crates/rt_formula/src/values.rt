//! The values of all nodes at a choice of rows, oldest first, so that none is computed twice.

ghost use Rattle.std.specs.Prelude.{◌≡◌, IfOk};
ghost use Rattle.std.specs.List.{list_all, list_any};
ghost use Rattle.rt_formula.specs.Shared.{bool_at, entry_value, values};

use crate::entry::{Entry, Node};
use rt_value::NoMemory;
use std::alloc::Global;

/// The value at a place, and false past the end.
pub(crate) fn value_at(values: &[bool], n: usize) -> bool
    ensures { result ≡ bool_at values.now n }
{
    values.get(n).copied().unwrap_or(false)
}

fn all_hold(of: &[Node], values: &[bool]) -> bool
    ensures { result ≡ list_all (bool_at values.now) of.now }
{
    for k in of {
        if !value_at(values, k.number()) {
            return false;
        }
    }
    true
}

fn any_holds(of: &[Node], values: &[bool]) -> bool
    ensures { result ≡ list_any (bool_at values.now) of.now }
{
    for k in of {
        if value_at(values, k.number()) {
            return true;
        }
    }
    false
}

fn entry_of(entry: &Entry, values: &[bool], keep: &[bool]) -> bool
    ensures { result ≡ entry_value keep.now values.now entry.now }
{
    match entry {
        Entry::Yes => true,
        Entry::No => false,
        Entry::Row(v) => value_at(keep, *v),
        Entry::Not(a) => !value_at(values, a.number()),
        Entry::All(of) => all_hold(of.as_slice(), values),
        Entry::Any(of) => any_holds(of.as_slice(), values),
    }
}

/// The value of each entry at the choice `keep`, in the order of the entries.
pub(crate) fn values_of(
    alloc: Global,
    entries: &[Entry],
    keep: &[bool],
) -> Result<Vec<bool>, NoMemory>
    ensures { IfOk result (λ v. v.items ≡ values keep.now entries.now) }
{
    let mut done: Vec<bool> = Vec::new(alloc);
    for e in entries {
        let b = entry_of(e, done.as_slice(), keep);
        done.push(b)?;
    }
    Ok(done)
}
