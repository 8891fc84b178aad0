//! A reference-counted value: a CHECK's condition is in the tree and in the table's parts, and is
//! never copied.

ghost use Rattle.std.specs.Prelude.{◌≡◌, IfOk};

use rt_value::NoMemory;
use std::alloc::Global;
use std::marker::Model;
use std::rc::Rc;

/// A value with several owners, which contracts see as the value.
pub struct Counted<T> {
    owner: Rc<T>,
}

impl<T: Drop> Drop for Counted<T> {
    fn drop(self) {
        let Counted { owner: _ } = self;
    }
}

impl<T> Model for Counted<T> {
    ghost Value = { T };

    ghost coded = { T.code };

    ghost view = { λ s. s.owner.value };
}

impl<T> Counted<T> {
    pub fn get(&self) -> &T
        ensures { result.now ≡ self.now }
    {
        self.owner.as_ref()
    }
}

impl<T: Drop> Counted<T> {
    /// The value with one owner.
    pub fn new(alloc: Global, value: T) -> Result<Counted<T>, NoMemory>
        ensures { IfOk result (λ s. s ≡ value) }
    {
        let owner = Rc::new(alloc, value)?;
        Ok(Counted { owner })
    }

    /// One more owner of the value.
    pub fn share(&self) -> Result<Counted<T>, NoMemory>
        ensures { IfOk result (λ s. s ≡ self.now) }
    {
        let owner = self.owner.clone()?;
        Ok(Counted { owner })
    }
}
