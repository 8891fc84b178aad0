//! Moves of one variable within the heap. Each place has up to four below it, so that a move down
//! takes half as many exchanges as with two.

ghost use Rattle.std.specs.Prelude.{◌≡◌, ℕ, ◌-◌, ◌<◌, ◌≤◌, ◌/◌, length};
ghost use Rattle.rt_store.specs.Members.{members};

use crate::places::HeapOrder;
use crate::rank::Rank;

/// Moves the variable at a place up while it comes before the one above it.
pub(crate) fn sift_up(order: &mut HeapOrder, activities: &[u64], start: usize)
    requires within { start < length order.old }
    requires counted { length order.old ≤ length activities.now }
    ensures { (n : ℕ) → start < n → members n order.new ≡ members n order.old }
{
    let own = Rank::at(order, activities, start);
    let mut place = start;
    while place > 0 {
        let above = (place - 1) / 4;
        if !own.is_before(Rank::at(order, activities, above)) {
            break;
        }
        order.swap(place, above);
        place = above;
    }
}

// The place of the variable that comes first among those from one place on and before another.
fn first_of(order: &HeapOrder, activities: &[u64], from: usize, to: usize) -> usize
    requires some { from < to }
    requires within { to ≤ length order.now }
    requires counted { length order.now ≤ length activities.now }
    ensures low { from ≤ result }
    ensures within { result < to }
{
    let mut first = from;
    let mut best = Rank::at(order, activities, from);
    for place in from + 1..to {
        let rank = Rank::at(order, activities, place);
        if rank.is_before(best) {
            first = place;
            best = rank;
        }
    }
    first
}

// The place below this one whose variable comes first.
fn first_below(order: &HeapOrder, activities: &[u64], place: usize, count: usize) -> usize
    requires some { 2 ≤ count }
    requires below { place ≤ (count - 2) / 4 }
    requires within { count ≤ length order.now }
    requires counted { length order.now ≤ length activities.now }
    ensures later { place < result }
    ensures within { result < count }
{
    let start = 4 * place + 1;
    let end = start + (count - start).min(4);
    first_of(order, activities, start, end)
}

/// Moves the first variable to where it belongs among those up to a count: down to the end of the
/// path of those that come first, and from there up, since it mostly belongs near the end.
pub(crate) fn sift_down(order: &mut HeapOrder, activities: &[u64], count: usize)
    requires within { count ≤ length order.old }
    requires counted { length order.old ≤ length activities.now }
    ensures { members count order.new ≡ members count order.old }
{
    if count < 2 {
        return;
    }
    let last = (count - 2) / 4;
    let mut place = 0;
    while place <= last {
        let below = first_below(order, activities, place, count);
        order.swap(place, below);
        place = below;
    }
    if place < count {
        sift_up(order, activities, place);
    }
}
