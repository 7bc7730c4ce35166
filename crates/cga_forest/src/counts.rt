//! How many nodes there are of two kinds.
ghost use Rattle.std.specs.Prelude.{◌≡◌};
ghost use Rattle.cga_order.specs.World.{is_instance};
ghost use Rattle.cga_forest.specs.Count.{is_faulted, is_shown_as, tally};

use crate::Forest;

impl Forest {
    /// How many nodes are instances.
    pub fn instances(&self) -> usize
        ensures { result ≡ tally (is_shown_as is_instance) self.now.slots }
    {
        self.store.first()
    }

    /// How many nodes have a fault in place of children.
    pub fn faults(&self) -> usize
        ensures { result ≡ tally (is_shown_as is_faulted) self.now.slots }
    {
        self.store.second()
    }
}
