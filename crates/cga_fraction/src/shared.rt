ghost use Rattle.std.specs.Prelude.{◌≡◌, [], length, ◌↔◌, IsTrue, IfOk};

use crate::memory::NoMemory;
use std::alloc::Global;
use std::marker::Model;
use std::rc::Rc;

/// A list that several owners hold at once and that nobody changes. Contracts see it as the list of its items, so that
/// what is shared equals what it is shared with. An empty one takes no memory.
#[derive(Drop)]
pub struct Shared<T> {
    inner: Option<Rc<Vec<T>>>,
}

impl<T> Model for Shared<T> {
    ghost use Rattle.std.specs.Prelude.{List};
    ghost use Rattle.std.specs.Coded.{coded_list};
    ghost use Rattle.cga_fraction.specs.Shared.{behind};

    ghost Value = { List T };

    ghost coded = { coded_list T.code };

    ghost view = { λ s. behind s.inner };
}

impl<T: PartialEq> PartialEq for Shared<T> {
    ghost use lib.Pointwise.{pointwise};
    ghost use Rattle.std.specs.Cmp.Lexicographic.{lists_per};

    ghost eq = { pointwise T.eq };

    ghost laws = { lists_per T.laws };

    fn eq(&self, other: &Self) -> bool {
        self.as_slice() == other.as_slice()
    }
}

impl<T: Eq> Eq for Shared<T> {
    ghost use Rattle.std.specs.Cmp.Lexicographic.{lists_equiv};

    ghost laws = { lists_equiv T.Eq.laws };
}

impl<T> Shared<T> {
    /// Takes no memory.
    pub fn new() -> Shared<T>
        ensures { result ≡ [] }
    {
        Shared { inner: None }
    }

    pub fn as_slice(&self) -> &[T]
        ensures { result.now ≡ self.now }
    {
        match &self.inner {
            Some(items) => items.as_slice(),
            None => &[],
        }
    }

    pub fn len(&self) -> usize
        ensures { result ≡ length self.now }
    {
        self.as_slice().len()
    }

    pub fn is_empty(&self) -> bool
        ensures { IsTrue result ↔ (self.now ≡ []) }
    {
        self.as_slice().is_empty()
    }
}

impl<T: Drop> Shared<T> {
    /// Takes memory for a block that points to the items, and none where there are no items.
    pub fn from_vec(alloc: Global, items: Vec<T>) -> Result<Shared<T>, NoMemory>
        ensures { IfOk result (λ shared. shared ≡ items.items) }
    {
        if items.is_empty() {
            return Ok(Shared::new());
        }
        Ok(Shared {
            inner: Some(Rc::new(alloc, items)?),
        })
    }

    /// The list, shared: no item is copied. In constant time. Takes no memory: NoMemory comes if its owners can't be
    /// counted any more.
    pub fn share(&self) -> Result<Shared<T>, NoMemory>
        ensures { IfOk result (λ shared. shared ≡ self.now) }
    {
        match &self.inner {
            Some(items) => Ok(Shared {
                inner: Some(items.clone()?),
            }),
            None => Ok(Shared::new()),
        }
    }
}
