ghost use Rattle.std.specs.Prelude.{◌≡◌, nat_eq};

use std::marker::Model;

/// Names a node while the tree that holds it keeps it. It says nothing of order, is never printed, and may name another
/// node once its own is gone.
#[derive(Clone, Copy, Debug)]
pub struct NodeId {
    number: u64,
}

impl Model for NodeId {
    ghost use Rattle.std.specs.Prelude.{ℕ};

    ghost Value = { ℕ };

    ghost view = { λ s. s.number };

    ghost inverse = { λ n. record { number = n } };
}

impl NodeId {
    pub fn new(number: u64) -> NodeId
        ensures { result ≡ number }
    {
        NodeId { number }
    }

    pub fn number(self) -> u64
        ensures { result ≡ self }
    {
        self.number
    }

    pub fn same(self, other: NodeId) -> bool
        ensures { result ≡ nat_eq self other }
    {
        self.number == other.number
    }
}
