ghost use Rattle.std.specs.Prelude.{◌≡◌, ℕ, Bool};

use crate::hull_tree::HullTree;
use crate::node_id::NodeId;

/// A tree of boxes of whose nodes some last. What callers need of it beside this clause is `ParentsLast`.
pub trait Lasting: HullTree {
    ghost lasts: { Self → ℕ → Bool };

    fn lasts(&self, node: NodeId) -> bool
        ensures { result ≡ lasts self.now node };
}
