//! The nodes of a tree, each before what is below it.
ghost use Rattle.std.specs.Prelude.{◌≡◌, ◌++◌, ◌∷◌, [], IfOk};
ghost use Rattle.cga_index.specs.Tree.{IsHullTree, InTree, all_nodes, below};

use crate::hull_tree::HullTree;
use crate::limits::LEVELS;
use crate::node_id::NodeId;
use crate::visitor::Visitor;
use crate::visits::{visit_all, visit_from};
use cga_fraction::NoMemory;
use std::alloc::Global;

/// A list that grows by each node.
impl<H> Visitor<H> for Vec<NodeId> {
    type Stop = NoMemory;

    ghost steps = { λ _ nodes node more. more.items ≡ nodes.items ++ node ∷ [] };

    fn visit(&mut self, _tree: &H, node: NodeId) -> Result<(), NoMemory> {
        self.push(node)?;
        Ok(())
    }
}

/// A root and all below it, each before what is below it. Takes memory.
pub fn nodes_from<H: HullTree>(
    alloc: Global,
    tree: &H,
    root: NodeId,
) -> Result<Vec<NodeId>, NoMemory>
    requires laws { IsHullTree (H.view tree.now) }
    requires node { InTree (H.view tree.now) root }
    requires highest { (H.view tree.now).depth root ≡ 0 }
    ensures { IfOk result (λ nodes. nodes.items ≡ below (H.view tree.now) LEVELS root) }
{
    let mut nodes = Vec::new(alloc);
    visit_from(tree, root, LEVELS, &mut nodes)?;
    Ok(nodes)
}

/// Every node, each before what is below it. Takes memory.
pub fn all_nodes<H: HullTree>(alloc: Global, tree: &H) -> Result<Vec<NodeId>, NoMemory>
    requires laws { IsHullTree (H.view tree.now) }
    ensures { IfOk result (λ nodes. nodes.items ≡ all_nodes (H.view tree.now)) }
{
    let mut nodes = Vec::new(alloc);
    visit_all(tree, &mut nodes)?;
    Ok(nodes)
}
