//! The mark, and the two ways to drop it.
ghost use Rattle.std.specs.Prelude.{◌≡◌, ℕ, true, false, is_some};
ghost use Rattle.cga_forest.specs.Tree.{marked_at, node_at, slot_at};

use crate::Forest;
use crate::covering::{cover_all, tighten};

impl Forest {
    /// Makes the mark the nodes as they stand.
    pub fn begin(&mut self)
        requires unmarked { self.old.marking ≡ false }
        ensures marking { self.new.marking ≡ true }
        ensures present { (c : ℕ) → node_at self.new c ≡ node_at self.old c }
        ensures marked { (c : ℕ) → marked_at self.new c ≡ node_at self.old c }
        ensures mode { self.new.mode ≡ self.old.mode }
    {
        self.marking = true;
    }

    /// Drops the mark, and what was set aside since: from now on the numbers of those nodes may be given out again. The
    /// time goes by the nodes that were removed or created since the mark, and by the blocks whose hulls changed.
    pub fn settle(&mut self)
        requires marked { self.old.marking ≡ true }
        ensures marking { self.new.marking ≡ false }
        ensures present { (c : ℕ) → node_at self.new c ≡ node_at self.old c }
        ensures dropped { (c : ℕ) → is_some (slot_at self.new c) ≡ is_some (node_at self.new c) }
        ensures mode { self.new.mode ≡ self.old.mode }
    {
        self.store.settle();
        self.roots.settle();
        tighten(&mut self.blocks, &self.store, &self.roots);
        self.marking = false;
    }

    /// Makes the nodes those of the mark again, with their ids, and drops it: from now on the numbers of those that came
    /// since may be given out again. The time goes by what changed since the mark, and by the roots.
    pub fn roll_back(&mut self)
        requires marked { self.old.marking ≡ true }
        ensures marking { self.new.marking ≡ false }
        ensures present { (c : ℕ) → node_at self.new c ≡ marked_at self.old c }
        ensures mode { self.new.mode ≡ self.old.mode }
    {
        self.store.roll_back();
        self.roots.roll_back();
        cover_all(&mut self.blocks, &self.store, &self.roots);
        self.marking = false;
    }
}
