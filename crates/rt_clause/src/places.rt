//! The places of a clause's block, each empty or with an item, read and written by `unsafe` that
//! is proved by hand. After `cells.rt` of the kit's `circular_buffer` (LICENSE-circular_buffer).

ghost use Rattle.std.specs.Prelude.{◌≡◌, ◌<◌, List, Option, Some, None, map, length, get_or, slice_set};
ghost use denote.RawPtr.{Ptr};
ghost use Rattle.rt_clause.specs.Block.{places_own, places_lent};

use crate::start::Start;
use std::marker::{Model, PhantomData};
use std::slice;

/// The owner of a block's first machine word, which is the number of its places, and of the places
/// after it. It takes no space: a clause holds the pointer.
pub(crate) struct Places<T> {
    pub(crate) mark: PhantomData<*const T>,
    ghost at: { Ptr },
    ghost slots: { List (Option T) },
}

impl<T> Model for Places<T> {
    ghost also_owns = { λ p. places_own T.row p.at p.slots };

    ghost also_shares = { λ p _ κ. places_lent T.row p.at p.slots κ };
}

impl<T> Places<T> {
    /// The number of places, read from the first word of the block.
    pub(crate) fn count(&self, start: Start) -> &usize
        requires { start.ptr ≡ self.now.at }
        ensures { result.now ≡ length self.now.slots }
    {
        unsafe { &*start.ptr }
    }

    /// Fills an empty place.
    pub(crate) fn write(&mut self, start: Start, index: usize, item: T)
        requires { (start.ptr ≡ self.old.at) × (index < length self.old.slots) × (get_or self.old.slots index None ≡ None) }
        ensures { (self.new.at ≡ self.old.at) × (self.new.slots ≡ slice_set self.old.slots index (Some item)) }
    {
        unsafe { (start.ptr.add(1) as *mut T).add(index).write(item) }
    }

    /// Moves an item out, and leaves its place empty.
    pub(crate) fn read(&mut self, start: Start, index: usize) -> T
        requires { (start.ptr ≡ self.old.at) × ((x : T) × (get_or self.old.slots index None ≡ Some x)) }
        ensures value { get_or self.old.slots index None ≡ Some result }
        ensures slots { (self.new.at ≡ self.old.at) × (self.new.slots ≡ slice_set self.old.slots index None) }
    {
        unsafe { (start.ptr.add(1) as *mut T).add(index).read() }
    }

    /// The items in order, of a block whose places are all full.
    pub(crate) fn items(&self, start: Start, len: usize) -> &[T]
        requires { (start.ptr ≡ self.now.at) × (len ≡ length self.now.slots) × ((xs : List T) × (self.now.slots ≡ map Some xs)) }
        ensures { self.now.slots ≡ map Some result.now }
    {
        unsafe { slice::from_raw_parts(start.ptr.add(1) as *const T, len) }
    }
}
