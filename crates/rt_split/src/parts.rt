//! A condition taken apart, as data: what the crates above choose and join rows by.

ghost use Rattle.std.specs.Prelude.{◌≡◌, drop};
ghost use Rattle.rt_split.specs.Split.{first};

use rt_algebra::Pred;
use rt_value::List;

/// Two columns that have to be equal: column `own` of a member's row, and column `before` of the
/// whole row, which is of an earlier member. Both are counted from 0.
#[derive(Drop)]
pub struct KeyPair {
    pub before: usize,
    pub own: usize,
}

/// A condition over the members of a product, taken apart: for each member the conditions on its
/// row alone and its keys, and whether these are the whole of it.
pub struct Split {
    pub own: List<List<Pred>>,
    pub keys: List<List<KeyPair>>,
    pub is_whole: bool,
}

impl Drop for Split {
    fn drop(self) {
        let Split {
            own: _,
            keys: _,
            is_whole: _,
        } = self;
    }
}

impl Split {
    /// The conditions on the row of a member alone.
    pub fn own_of(&self, member: usize) -> &[Pred]
        ensures { result.now ≡ first (drop member self.now.own) }
    {
        match self.own.as_slice().get(member) {
            Some(own) => own.as_slice(),
            None => &[],
        }
    }

    /// The keys of a member.
    pub fn keys_of(&self, member: usize) -> &[KeyPair]
        ensures { result.now ≡ first (drop member self.now.keys) }
    {
        match self.keys.as_slice().get(member) {
            Some(keys) => keys.as_slice(),
            None => &[],
        }
    }
}
