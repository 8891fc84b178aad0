//! The bare pointer to a block, apart from the right to use it (`places`) or to free it (`deed`).

/// Where a block begins. It owns nothing.
#[derive(Clone, Copy)]
pub(crate) struct Start {
    pub(crate) ptr: *mut usize,
}
