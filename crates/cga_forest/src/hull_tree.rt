ghost use Rattle.std.specs.Prelude.{◌≡◌, ◌≤◌, ◌+◌, IsSome};
ghost use Rattle.cga_index.specs.Occlusion.{answer_of};
ghost use Rattle.cga_index.specs.Tree.{asked, all_nodes, near};
ghost use Rattle.cga_forest.specs.Tree.{node_at};
ghost use Rattle.cga_forest.specs.Walked.{forest_tree, was_marked};

use crate::Forest;
use crate::standing::{is_above, standing_of};
use crate::store::child_count;
use cga_fraction::Tests;
use cga_frame::WorldBox;
use cga_index::{HullTree, Lasting, NodeId, Standing, answer};
use cga_word::{Answer, Target};
use std::sync::ledger::Ledger;

impl HullTree for Forest {
    ghost view = { λ f. forest_tree f };

    fn roots(&self) -> usize {
        self.roots.len()
    }

    fn root(&self, place: usize) -> NodeId {
        NodeId::new(self.roots.id(place) as u64)
    }

    fn block_touches(&self, block: usize, area: &WorldBox) -> bool {
        self.blocks.blocks.touches(block, area)
    }

    fn block_asks(&self, block: usize, area: &WorldBox) -> bool {
        self.blocks.blocks.asks(block, area)
    }

    fn group_touches(&self, group: usize, area: &WorldBox) -> bool {
        self.blocks.groups.touches(group, area)
    }

    fn group_asks(&self, group: usize, area: &WorldBox) -> bool {
        self.blocks.groups.asks(group, area)
    }

    fn children(&self, node: NodeId) -> usize {
        child_count(&self.store, node.number() as usize)
    }

    fn child(&self, node: NodeId, place: usize) -> NodeId {
        NodeId::new(self.store.entry(node.number() as usize).children[place] as u64)
    }

    fn own_box<T: Ledger>(&self, node: NodeId, tests: &mut Tests<T>) -> WorldBox {
        tests.tick();
        self.store.entry(node.number() as usize).node.bounds()
    }

    #[tactic(auto, unfolding(cga_index::specs::Occlusion::answer_of))]
    fn compares<T: Ledger>(&self, node: NodeId, area: &WorldBox, tests: &mut Tests<T>) -> Answer {
        tests.tick();
        self.store.entry(node.number() as usize).node.compares(area)
    }

    fn hull(&self, node: NodeId) -> WorldBox {
        let entry = self.store.entry(node.number() as usize);
        entry.hulls.hull(&entry.node.shape.scope)
    }

    fn touches(&self, node: NodeId, area: &WorldBox) -> bool {
        let entry = self.store.entry(node.number() as usize);
        entry.hulls.touches(&entry.node.shape.scope, area)
    }

    #[tactic(auto, using(crate::proofs::Known::touches_same))]
    fn asks_near(&self, node: NodeId, area: &WorldBox) -> bool {
        let entry = self.store.entry(node.number() as usize);
        entry.hulls.asks_near(&entry.node.shape.scope, area)
    }

    fn standing(&self, node: NodeId, by: NodeId) -> Standing {
        standing_of(
            &self.store,
            self.mode,
            node.number() as usize,
            by.number() as usize,
        )
    }

    /// A node hides from itself and from all below it.
    fn hides(&self, node: NodeId, by: NodeId) -> bool {
        let entry = self.store.entry(node.number() as usize);
        let asker = self.store.entry(by.number() as usize);
        is_above(&entry.node, &asker.node)
    }

    fn asks(&self, node: NodeId) -> bool {
        self.store.entry(node.number() as usize).node.asks
    }

    fn asking_hull(&self, node: NodeId) -> Option<WorldBox> {
        let entry = self.store.entry(node.number() as usize);
        entry.hulls.asking_hull(&entry.node.shape.scope)
    }
}

impl Lasting for Forest {
    ghost lasts = { was_marked };

    /// Whether a node was there at the mark. What stands below one that came since came since, too.
    fn lasts(&self, node: NodeId) -> bool {
        match self.store.get(node.number() as usize) {
            Some(entry) => !entry.created,
            None => false,
        }
    }
}

impl Forest {
    /// What a node is answered: as by all boxes, since a forest keeps the laws of `HullTree` (`forests_are_hull_trees`).
    pub fn ask<T: Ledger>(&self, node: NodeId, target: Target, tests: &mut Tests<T>) -> Answer
        requires here { IsSome (node_at self.now node) }
        ensures found { result ≡ answer_of ((forest_tree self.now).own node) (asked (forest_tree self.now) node target (all_nodes (forest_tree self.now))) }
        ensures counted { tests.new ≤ tests.old + near (forest_tree self.now) node }
    {
        let _marking = self.marking; // for the proof
        answer(self, node, target, tests)
    }
}
