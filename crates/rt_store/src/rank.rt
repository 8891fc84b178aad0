//! What the heap orders variables by.

ghost use Rattle.std.specs.Prelude.{◌<◌, ◌≤◌, length};

use crate::places::HeapOrder;

/// A variable and its activity. Contracts do not say which of two comes first.
#[derive(Clone, Copy)]
pub struct Rank {
    activity: u64,
    var: usize,
}

impl Rank {
    /// That of the variable at a place.
    #[inline]
    pub fn at(order: &HeapOrder, activities: &[u64], place: usize) -> Rank
        requires place { place < length order.now }
        requires counted { length order.now ≤ length activities.now }
    {
        let var = order.at(place);
        let activity = activities[var];
        Rank { activity, var }
    }

    /// Whether the variable comes before the other: by its greater activity, or as the smaller one of
    /// two with equal activities.
    #[inline]
    pub fn is_before(self, other: Rank) -> bool {
        self.activity > other.activity || self.activity == other.activity && self.var < other.var
    }
}
