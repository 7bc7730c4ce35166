//! From a node of the tree to the next.
ghost use Rattle.std.specs.Prelude.{◌≡◌, ◌<◌, ◌≤◌, ◌+◌, length, slice_get, Some};
ghost use Rattle.cga_index.specs.Tree.{IsHullTree, InTree};

use crate::hull_tree::HullTree;
use crate::limits::BLOCK;
use crate::node_id::NodeId;

/// Where a block ends that begins at this place, of so many.
pub(crate) fn block_end(from: usize, roots: usize) -> usize
    requires { from ≤ roots }
    ensures begun { from ≤ result }
    ensures within { result ≤ roots }
    ensures most { result ≤ from + BLOCK }
    ensures whole { result < roots → result ≡ from + BLOCK }
{
    if roots - from < BLOCK {
        roots
    } else {
        from + BLOCK
    }
}

/// A root of the tree, which stands highest.
#[tactic(auto, using(crate::proofs::Levels::root_inside, crate::proofs::Levels::root_depth))]
pub fn root_of<H: HullTree>(tree: &H, place: usize) -> NodeId
    requires laws { IsHullTree (H.view tree.now) }
    requires place { place < length (H.view tree.now).roots }
    ensures at { slice_get (H.view tree.now).roots place ≡ Some result }
    ensures inside { InTree (H.view tree.now) result }
    ensures depth { (H.view tree.now).depth result ≡ 0 }
{
    tree.root(place)
}

/// A child of a node of the tree, which stands one level below it.
#[tactic(auto, using(crate::proofs::Levels::child_in, crate::proofs::Levels::child_depth))]
pub fn child_of<H: HullTree>(tree: &H, node: NodeId, place: usize) -> NodeId
    requires laws { IsHullTree (H.view tree.now) }
    requires node { InTree (H.view tree.now) node }
    requires place { place < length ((H.view tree.now).children node) }
    ensures at { slice_get ((H.view tree.now).children node) place ≡ Some result }
    ensures inside { InTree (H.view tree.now) result }
    ensures depth { (H.view tree.now).depth result ≡ (H.view tree.now).depth node + 1 }
{
    tree.child(node, place)
}
