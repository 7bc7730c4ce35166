ghost use Rattle.std.specs.Prelude.{◌≡◌, ◌<◌, ◌+◌};

use std::marker::{Model, PhantomData};
use std::sync::ledger::{Blank, Book, Ledger, Share};

/// A counter, which takes no bytes when the program runs. Only `main` and tests can make one, since they alone are
/// handed the runtime, and nothing lowers it. It rises where a key is shown: a crate that keeps the constructor of
/// its key to itself is the only one that raises the counters of this key.
#[derive(Drop)]
pub struct Steps<L: Ledger, K> {
    book: Book<L>,
    share: Share<L>,
    key: PhantomData<K>,
}

impl<L: Ledger, K> Model for Steps<L, K> {
    ghost use Rattle.std.specs.Prelude.{ℕ, ◌<◌};

    ghost Value = { ℕ };

    ghost view = { λ s. s.book.total };

    ghost invariant = { λ s. 0 < s.share.parts };
}

impl<L: Ledger, K> Steps<L, K> {
    /// Stands at 0. The blank names the ledger; the runtime is what keeps a library from making a counter.
    pub fn new(_rt: &mut HostRuntime, blank: Blank) -> Steps<L, K>
        requires name { blank.name ≡ L.name }
        requires parts { blank.parts ≡ L.parts }
        requires some { 0 < blank.parts }
        ensures { result ≡ 0 }
    {
        let (book, share) = blank.open();
        Steps {
            book,
            share,
            key: PhantomData,
        }
    }

    /// One step more.
    pub fn tick(&mut self, _key: &K)
        ensures { self.new ≡ self.old + 1 }
    {
        self.book.add(&mut self.share, 1);
    }
}
