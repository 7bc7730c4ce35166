ghost use Rattle.std.specs.Prelude.{◌≡◌, IfOk};

use crate::memory::NoMemory;
use std::alloc::Global;
use std::marker::Model;
use std::rc::Rc;

/// A `Boxed` that several owners hold at once and whose value nobody changes. Contracts see it as the value, so that
/// what is shared equals what it is shared with.
#[derive(Drop)]
pub struct SharedBox<T> {
    inner: Rc<T>,
}

impl<T> Model for SharedBox<T> {
    ghost Value = { T };

    ghost coded = { T.code };

    ghost view = { λ b. b.inner.value };
}

impl<T: PartialEq> PartialEq for SharedBox<T> {
    ghost eq = { T.eq };

    ghost laws = { T.laws };

    fn eq(&self, other: &Self) -> bool {
        *self.inner == *other.inner
    }
}

impl<T: Eq> Eq for SharedBox<T> {
    ghost laws = { T.Eq.laws };
}

impl<T> SharedBox<T> {
    pub fn get(&self) -> &T
        ensures { result.now ≡ self.now }
    {
        &self.inner
    }
}

impl<T: Drop> SharedBox<T> {
    /// Takes memory.
    pub fn new(alloc: Global, value: T) -> Result<SharedBox<T>, NoMemory>
        ensures { IfOk result (λ b. b ≡ value) }
    {
        Ok(SharedBox {
            inner: Rc::new(alloc, value)?,
        })
    }

    /// The value, shared: it isn't copied. In constant time. Takes no memory: NoMemory comes if its owners can't be
    /// counted any more.
    pub fn share(&self) -> Result<SharedBox<T>, NoMemory>
        ensures { IfOk result (λ shared. shared ≡ self.now) }
    {
        Ok(SharedBox {
            inner: self.inner.clone()?,
        })
    }
}
