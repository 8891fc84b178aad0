//! Allocating and freeing the block of a clause, with `unsafe` that is proved by hand. After
//! `cells.rt` of the kit's `circular_buffer` (LICENSE-circular_buffer).

ghost use Rattle.std.specs.Prelude.{◌≡◌, ℕ, ◌+◌, None, length, replicate, IfOk};
ghost use Rattle.std.specs.Vec.Ownership.{FitsInBlock};
ghost use denote.RawPtr.{Ptr};
ghost use base.Fml.{ftrue};
ghost use Rattle.rt_clause.specs.Block.{IsWordSized, deed_owns};

use crate::places::Places;
use crate::start::Start;
use std::alloc::{AllocError, Allocator};
use std::marker::{Model, PhantomData};
use std::mem::{align_of, size_of};

/// The right to give a block with `len` places back to `alloc`. It takes no space.
pub(crate) struct Deed<T, A: Allocator> {
    mark: PhantomData<*const (T, A)>,
    ghost at: { Ptr },
    ghost len: { ℕ },
    ghost alloc: { A },
}

impl<T, A: Allocator> Model for Deed<T, A> {
    ghost also_owns = { λ d. deed_owns T.row (A.dealloc_token d.alloc) d.at d.len };

    ghost also_shares = { λ _ _ _. ftrue };
}

/// A block with `len` empty places.
pub(crate) fn allocate<T, A: Allocator>(
    alloc: &A,
    len: usize,
) -> Result<(Start, Places<T>, Deed<T, A>), AllocError>
    requires { IsWordSized T.row × FitsInBlock T.row (len + 1) }
    ensures { IfOk result (λ r. (r.1.at ≡ r.0.ptr) × (r.1.slots ≡ replicate len None) × (r.2.at ≡ r.0.ptr) × (r.2.len ≡ len) × (r.2.alloc ≡ alloc.now)) }
{
    match alloc.allocate((len + 1) * size_of::<T>(), align_of::<T>()) {
        Ok(block) => {
            let ptr = block as *mut usize;
            unsafe { ptr.write(len) };
            Ok((
                Start { ptr },
                Places { mark: PhantomData },
                Deed { mark: PhantomData },
            ))
        }
        Err(error) => Err(error),
    }
}

/// Frees a block. What its places hold is forgotten, not dropped.
pub(crate) fn deallocate<T, A: Allocator>(
    alloc: &A,
    start: Start,
    len: usize,
    places: Places<T>,
    deed: Deed<T, A>,
)
    requires { IsWordSized T.row × FitsInBlock T.row (len + 1) × (places.at ≡ start.ptr) × (length places.slots ≡ len) × (deed.at ≡ start.ptr) × (deed.len ≡ len) × (deed.alloc ≡ alloc.now) }
{
    let Places { mark: _ } = places;
    let Deed { mark: _ } = deed;
    unsafe {
        alloc.deallocate(
            start.ptr as *mut u8,
            (len + 1) * size_of::<T>(),
            align_of::<T>(),
        );
    }
}
