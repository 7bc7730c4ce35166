ghost use Rattle.std.specs.Prelude.{◌≡◌, is_some};
ghost use Rattle.cga_order.specs.World as world;
ghost use Rattle.cga_update.specs.Queue.{chains_of};

use cga_forest::{Forest, Node};
use cga_index::NodeId;
use cga_order::Chain;
use cga_queue::Chained;
use cga_shape::Kind;

/// The nodes of a forest that may be on the agenda: those that are no instances.
#[derive(Clone, Copy)]
pub struct Worked<'a> {
    pub forest: &'a Forest,
}

fn is_instance(node: &Node) -> bool
    ensures { result ≡ world.is_instance node.now.kind }
{
    matches!(node.kind, Kind::Instance(_))
}

/// Whether a node is there and is no instance.
fn is_worked(forest: &Forest, id: NodeId) -> bool
    ensures { result ≡ is_some (chains_of forest.now id) }
{
    match forest.node(id) {
        None => false,
        Some(node) => !is_instance(node),
    }
}

impl<'a> Chained for Worked<'a> {
    ghost chains = { λ w. chains_of w.forest.now };

    fn chain(&self, id: NodeId) -> Option<Chain<'_>> {
        if is_worked(self.forest, id) {
            Some(self.forest.chain(id))
        } else {
            None
        }
    }
}
