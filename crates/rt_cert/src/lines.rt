//! From kept lines to a solver or a checker.

ghost use Rattle.std.specs.Prelude.{◌≡◌, false, map, [], OnOk};

use rt_clause::{Adds, Clauses};
use rt_value::NoMemory;

/// Adds the lines in order to no lines yet.
pub(crate) fn put_lines<A: Adds>(lines: &Clauses, to: &mut A) -> Result<(), NoMemory>
    requires lines { A.lines to.old ≡ [] }
    requires derived { A.derived to.old ≡ [] }
    ensures lines { OnOk result (A.lines to.new ≡ lines.now) }
    ensures derived { OnOk result (A.derived to.new ≡ map (λ line. false) lines.now) }
{
    for i in 0..lines.len() {
        to.add(lines.at(i))?;
    }
    Ok(())
}
