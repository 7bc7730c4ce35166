//! A walk that comes to every node, each before what is below it.
ghost use Rattle.std.specs.Prelude.{◌≡◌, ◌+◌, OnOk};
ghost use Rattle.std.specs.List.{FoldsTo, flat_map};
ghost use Rattle.cga_index.specs.Tree.{IsHullTree, InTree, all_nodes, below};

use crate::hull_tree::HullTree;
use crate::limits::{LEVELS, MOST_DEPTH};
use crate::node_id::NodeId;
use crate::steps::{child_of, root_of};
use crate::visitor::Visitor;

/// Visits a node and all below it.
#[cycle(visiting)]
pub(crate) fn visit_from<H: HullTree, V: Visitor<H>>(
    tree: &H,
    node: NodeId,
    left: usize,
    visitor: &mut V,
) -> Result<(), V::Stop>
    requires laws { IsHullTree (H.view tree.now) }
    requires node { InTree (H.view tree.now) node }
    requires left { left + (H.view tree.now).depth node ≡ LEVELS }
    ensures { OnOk result (FoldsTo (V.steps tree.now) visitor.old (below (H.view tree.now) left node) visitor.new) }
{
    visitor.visit(tree, node)?;
    visit_children(tree, node, left - 1, visitor)?;
    Ok(())
}

/// Visits all below a node.
#[cycle(visiting)]
fn visit_children<H: HullTree, V: Visitor<H>>(
    tree: &H,
    node: NodeId,
    left: usize,
    visitor: &mut V,
) -> Result<(), V::Stop>
    requires laws { IsHullTree (H.view tree.now) }
    requires node { InTree (H.view tree.now) node }
    requires left { left + (H.view tree.now).depth node ≡ MOST_DEPTH }
    ensures { OnOk result (FoldsTo (V.steps tree.now) visitor.old (flat_map (below (H.view tree.now) left) ((H.view tree.now).children node)) visitor.new) }
{
    for place in 0..tree.children(node) {
        let child = child_of(tree, node, place);
        visit_from(tree, child, left, visitor)?;
    }
    Ok(())
}

/// Visits all nodes, each before what is below it. Takes no memory beside what the visitor takes.
pub fn visit_all<H: HullTree, V: Visitor<H>>(tree: &H, visitor: &mut V) -> Result<(), V::Stop>
    requires laws { IsHullTree (H.view tree.now) }
    ensures { OnOk result (FoldsTo (V.steps tree.now) visitor.old (all_nodes (H.view tree.now)) visitor.new) }
{
    for place in 0..tree.roots() {
        let root = root_of(tree, place);
        visit_from(tree, root, LEVELS, visitor)?;
    }
    Ok(())
}
