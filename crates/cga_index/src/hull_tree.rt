ghost use Rattle.std.specs.Prelude.{◌≡◌, ◌+◌, ◌*◌, ◌<◌, ◌∷◌, [], length, slice_get, Some, true, false};
ghost use Rattle.cga_frame.specs.Box.{touches};
ghost use Rattle.cga_index.specs.Occlusion.{answer_of};
ghost use Rattle.cga_index.specs.Tree.{TreeView, InTree, IsFarRun, IsQuietRun, touches_some};
ghost use Rattle.cga_index.specs.declared.standing.Standing.TheVariants.{Hidden};

use crate::compare::compare;
use crate::limits::{BLOCK, GROUP};
use crate::node_id::NodeId;
use crate::standing::Standing;
use cga_fraction::Tests;
use cga_frame::WorldBox;
use cga_word::Answer;
use std::sync::ledger::Ledger;

/// A tree of nodes with boxes. What callers need of it beside these clauses is `IsHullTree` of its view.
pub trait HullTree {
    ghost view: { Self → TreeView };

    fn roots(&self) -> usize
        ensures { result ≡ length (view self.now).roots };

    fn root(&self, place: usize) -> NodeId
        requires { place < length (view self.now).roots }
        ensures { slice_get (view self.now).roots place ≡ Some result };

    /// Whether the hull of a root of this block may touch the area. A block is `BLOCK` places of the roots in a row. Where
    /// this is false a walk passes by them all; it may be true of each block.
    fn block_touches(&self, _block: usize, _area: &WorldBox) -> bool
        ensures { result ≡ false → IsFarRun (view self.now) (BLOCK * _block) BLOCK _area.now }
    {
        true
    }

    /// Whether the asking hull of a root of this block may touch the area: of those that ask, below the root.
    fn block_asks(&self, _block: usize, _area: &WorldBox) -> bool
        ensures { result ≡ false → IsQuietRun (view self.now) (BLOCK * _block) BLOCK _area.now }
    {
        true
    }

    /// Whether the hull of a root of this group may touch the area. A group is `GROUP` places of the roots in a row.
    fn group_touches(&self, _group: usize, _area: &WorldBox) -> bool
        ensures { result ≡ false → IsFarRun (view self.now) (GROUP * _group) GROUP _area.now }
    {
        true
    }

    /// Whether the asking hull of a root of this group may touch the area.
    fn group_asks(&self, _group: usize, _area: &WorldBox) -> bool
        ensures { result ≡ false → IsQuietRun (view self.now) (GROUP * _group) GROUP _area.now }
    {
        true
    }

    fn children(&self, node: NodeId) -> usize
        requires { InTree (view self.now) node }
        ensures { result ≡ length ((view self.now).children node) };

    fn child(&self, node: NodeId, place: usize) -> NodeId
        requires node { InTree (view self.now) node }
        requires place { place < length ((view self.now).children node) }
        ensures { slice_get ((view self.now).children node) place ≡ Some result };

    /// The node's own box. This call and the next one count as a test, and no other does.
    fn own_box<T: Ledger>(&self, node: NodeId, tests: &mut Tests<T>) -> WorldBox
        requires node { InTree (view self.now) node }
        ensures value { result ≡ (view self.now).own node }
        ensures ticks { tests.new ≡ tests.old + 1 };

    /// What that box answers for another one: a tree may tell it without the box.
    fn compares<T: Ledger>(&self, node: NodeId, area: &WorldBox, tests: &mut Tests<T>) -> Answer
        requires node { InTree (view self.now) node }
        ensures value { result ≡ answer_of area.now ((view self.now).own node ∷ []) }
        ensures ticks { tests.new ≡ tests.old + 1 }
    {
        let own = self.own_box(node, tests);
        compare(&own, area)
    }

    /// A box that holds the own boxes of the node and of all below it.
    fn hull(&self, node: NodeId) -> WorldBox
        requires { InTree (view self.now) node }
        ensures { result ≡ (view self.now).hull node };

    /// A box that holds the own boxes of those that ask, of the node and of all below it. None if nobody asks.
    fn asking_hull(&self, node: NodeId) -> Option<WorldBox>
        requires { InTree (view self.now) node }
        ensures { result ≡ (view self.now).asking_hull node };

    /// Whether that hull touches the area: a tree may tell it without the box.
    fn touches(&self, node: NodeId, area: &WorldBox) -> bool
        requires { InTree (view self.now) node }
        ensures { result ≡ touches ((view self.now).hull node) area.now }
    {
        self.hull(node).touches(area)
    }

    /// Whether the asking hull is there and touches the area: a tree may tell it without the box.
    fn asks_near(&self, node: NodeId, area: &WorldBox) -> bool
        requires { InTree (view self.now) node }
        ensures { result ≡ touches_some ((view self.now).asking_hull node) area.now }
    {
        match self.asking_hull(node) {
            Some(hull) => hull.touches(area),
            None => false,
        }
    }

    fn asks(&self, node: NodeId) -> bool
        requires { InTree (view self.now) node }
        ensures { result ≡ (view self.now).asks node };

    fn standing(&self, node: NodeId, by: NodeId) -> Standing
        requires node { InTree (view self.now) node }
        requires by { InTree (view self.now) by }
        ensures { result ≡ (view self.now).standing node by };

    /// Whether a node is hidden from another one, where a tree tells that sooner than what boxes answer. It may be false of
    /// each.
    fn hides(&self, _node: NodeId, _by: NodeId) -> bool
        requires node { InTree (view self.now) _node }
        requires by { InTree (view self.now) _by }
        ensures { result ≡ true → (view self.now).standing _node _by ≡ Hidden }
    {
        false
    }
}
