//! Closing a set of rows under references: the least set with its rows that has, with each row,
//! those that it refers to.

ghost use Rattle.std.specs.Prelude.{◌≡◌, ◌<◌, Bool, List, true, length};
ghost use Rattle.std.specs.List.{All as Each};
ghost use Rattle.rt_formula.specs.Under.{is_marked, MarksStay};
ghost use Rattle.rt_rules.specs.Closing.{IsClosed};

use crate::links::Link;
use rt_value::Keep;

// Adds the row that another one refers to, where that one is in the set.
fn follow(set: &mut Keep, link: &Link)
    requires { (link.now.from < length set.old) × (link.now.to < length set.old) }
    ensures len { length set.new ≡ length set.old }
    ensures stay { MarksStay set.old set.new }
    ensures met { is_marked set.old link.now.from ≡ true → is_marked set.new link.now.to ≡ true }
    ensures least { (others : List Bool) → MarksStay set.old others → (is_marked others link.now.from ≡ true → is_marked others link.now.to ≡ true) → MarksStay set.new others }
{
    if set.is(link.from) {
        set.set(link.to, true);
    }
}

// Adds the rows that rows of the set refer to, in one pass.
fn close_once(set: &mut Keep, links: &[Link])
    requires { Each (λ l. (l.from < length set.old) × (l.to < length set.old)) links.now }
    ensures len { length set.new ≡ length set.old }
    ensures stay { MarksStay set.old set.new }
    ensures met { Each (λ l. is_marked set.old l.from ≡ true → is_marked set.new l.to ≡ true) links.now }
    ensures least { (others : List Bool) → MarksStay set.old others → IsClosed links.now others → MarksStay set.new others }
{
    for link in links {
        follow(set, link);
    }
}

/// Makes the set closed: it becomes the least closed set with its rows. A pass takes time in the
/// number of links, and but for the last one each adds a row.
pub(crate) fn close(set: &mut Keep, links: &[Link])
    requires { Each (λ l. (l.from < length set.old) × (l.to < length set.old)) links.now }
    ensures len { length set.new ≡ length set.old }
    ensures stay { MarksStay set.old set.new }
    ensures closed { IsClosed links.now set.new }
    ensures least { (others : List Bool) → MarksStay set.old others → IsClosed links.now others → MarksStay set.new others }
{
    'passes: loop {
        let size = set.size();
        close_once(set, links);
        if set.size() == size {
            return;
        }
    }
}
