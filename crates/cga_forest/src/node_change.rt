ghost use Rattle.std.specs.Prelude.{◌≡◌};
ghost use Rattle.cga_frame.specs.Box.{box_of};
ghost use Rattle.cga_forest.specs.NodeChange.{moved_node, primitive_of};

use crate::node::Node;
use cga_frame::{Scope, WorldBox};
use cga_index::NodeId;
use cga_shape::Kind;
use cga_word::{Name, Primitive};

/// A removed or created node, and what of it is asked once it may be gone.
#[derive(Clone, Copy, Debug)]
pub struct NodeChange {
    pub id: NodeId,
    pub lot: Name,
    /// An instance has that of its emitter.
    pub symbol: Name,
    pub scope: Scope,
    /// Some exactly for an instance.
    pub primitive: Option<Primitive>,
}

impl NodeChange {
    pub fn of(id: usize, node: &Node) -> NodeChange
        ensures { result ≡ moved_node id node.now }
    {
        NodeChange {
            id: NodeId::new(id as u64),
            lot: node.shape.lot,
            symbol: node.shape.symbol,
            scope: node.shape.scope,
            primitive: primitive_of(node.kind),
        }
    }

    /// The world box of its scope.
    pub fn bounds(&self) -> WorldBox
        ensures { result ≡ box_of self.now.scope }
    {
        self.scope.world_box()
    }
}

fn primitive_of(kind: Kind) -> Option<Primitive>
    ensures { result ≡ primitive_of kind }
{
    match kind {
        Kind::Instance(primitive) => Some(primitive),
        _ => None,
    }
}
