ghost use Rattle.cga_index.specs.Lasting.{lasting_tree};

use crate::hull_tree::HullTree;
use crate::lasting::Lasting;
use crate::node_id::NodeId;
use crate::standing::Standing;
use cga_fraction::Tests;
use cga_frame::WorldBox;
use std::sync::ledger::Ledger;

/// The tree in which only those nodes ask that last. Where the parent of each of them does, too, nobody asks below one that
/// doesn't: a walk for who asks passes by all of it.
#[derive_where(Clone, Copy)]
pub struct LastingAskers<'a, T> {
    pub tree: &'a T,
}

impl<'a, T: Lasting> HullTree for LastingAskers<'a, T> {
    ghost view = { λ it. lasting_tree (T.view it.tree.now) (T.lasts it.tree.now) };

    fn roots(&self) -> usize {
        self.tree.roots()
    }

    fn root(&self, place: usize) -> NodeId {
        self.tree.root(place)
    }

    fn block_touches(&self, block: usize, area: &WorldBox) -> bool {
        self.tree.block_touches(block, area)
    }

    #[tactic(auto, using(crate::proofs::LastingTree::quiet_too))]
    fn block_asks(&self, block: usize, area: &WorldBox) -> bool {
        self.tree.block_asks(block, area)
    }

    fn group_touches(&self, group: usize, area: &WorldBox) -> bool {
        self.tree.group_touches(group, area)
    }

    #[tactic(auto, using(crate::proofs::LastingTree::quiet_too))]
    fn group_asks(&self, group: usize, area: &WorldBox) -> bool {
        self.tree.group_asks(group, area)
    }

    #[tactic(auto, using(crate::proofs::LastingTree::in_whole))]
    fn children(&self, node: NodeId) -> usize {
        self.tree.children(node)
    }

    #[tactic(auto, using(crate::proofs::LastingTree::in_whole))]
    fn child(&self, node: NodeId, place: usize) -> NodeId {
        self.tree.child(node, place)
    }

    #[tactic(auto, using(crate::proofs::LastingTree::in_whole))]
    fn own_box<L: Ledger>(&self, node: NodeId, tests: &mut Tests<L>) -> WorldBox {
        self.tree.own_box(node, tests)
    }

    #[tactic(auto, using(crate::proofs::LastingTree::in_whole))]
    fn hull(&self, node: NodeId) -> WorldBox {
        self.tree.hull(node)
    }

    #[tactic(auto, using(crate::proofs::LastingTree::in_whole))]
    fn asking_hull(&self, node: NodeId) -> Option<WorldBox> {
        if self.tree.lasts(node) {
            self.tree.asking_hull(node)
        } else {
            None
        }
    }

    #[tactic(auto, using(crate::proofs::LastingTree::in_whole))]
    fn asks_near(&self, node: NodeId, area: &WorldBox) -> bool {
        self.tree.lasts(node) && self.tree.asks_near(node, area)
    }

    #[tactic(auto, using(crate::proofs::LastingTree::in_whole))]
    fn asks(&self, node: NodeId) -> bool {
        self.tree.lasts(node) && self.tree.asks(node)
    }

    #[tactic(auto, using(crate::proofs::LastingTree::in_whole))]
    fn standing(&self, node: NodeId, by: NodeId) -> Standing {
        self.tree.standing(node, by)
    }
}
