ghost use Rattle.std.specs.Prelude.{ℕ, OnOk};

use crate::node_id::NodeId;

/// What the nodes of a tree are told to, one after the other.
pub trait Visitor<H> {
    /// Why a walk ends before its last node.
    type Stop;

    // what a node makes of it
    ghost steps: { H → Self → ℕ → Self → Type 0 };

    fn visit(&mut self, tree: &H, node: NodeId) -> Result<(), Self::Stop>
        ensures { OnOk result (steps tree.now self.old node self.new) };
}
