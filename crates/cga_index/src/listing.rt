ghost use Rattle.std.specs.Prelude.{◌≡◌, ◌≤◌, ◌+◌, ◌*◌, ◌++◌, [], ◌∷◌, length, drop, false, IfOk, OnOk};
ghost use Rattle.std.specs.List.{flat_map};
ghost use Rattle.cga_index.specs.Tree.{IsHullTree, InTree, below, askers, ListsAskers};

use crate::hull_tree::HullTree;
use crate::limits::{BLOCK, GROUP, LEVELS, MOST_DEPTH};
use crate::node_id::NodeId;
use crate::steps::{block_end, child_of, root_of};
use cga_fraction::{List, NoMemory, Tests};
use cga_frame::WorldBox;
use std::alloc::Global;
use std::sync::ledger::Ledger;

/// Appends the node, where it asks and its box meets the area.
#[tactic(auto, using(crate::proofs::Askers::askers_one))]
fn list_one<H: HullTree, T: Ledger>(
    tree: &H,
    node: NodeId,
    area: &WorldBox,
    tests: &mut Tests<T>,
    out: &mut Vec<NodeId>,
) -> Result<(), NoMemory>
    requires node { InTree (H.view tree.now) node }
    ensures { OnOk result (out.new.items ≡ out.old.items ++ askers (H.view tree.now) area.now (node ∷ [])) }
{
    if !tree.asks(node) {
        return Ok(());
    }
    let own = tree.own_box(node, tests);
    if own.meets(area) {
        out.push(node)?;
    }
    Ok(())
}

/// Whether an asking node from this one on can meet the area.
#[tactic(auto, using(crate::proofs::Askers::nobody))]
fn may_ask<H: HullTree>(tree: &H, node: NodeId, left: usize, area: &WorldBox) -> bool
    requires laws { IsHullTree (H.view tree.now) }
    requires node { InTree (H.view tree.now) node }
    ensures { result ≡ false → askers (H.view tree.now) area.now (below (H.view tree.now) left node) ≡ [] }
{
    tree.asks_near(node, area)
}

/// Appends those that ask and meet the area, from a node on.
#[cycle(listing)]
fn list_from<H: HullTree, T: Ledger>(
    tree: &H,
    node: NodeId,
    left: usize,
    area: &WorldBox,
    tests: &mut Tests<T>,
    looked: &mut usize,
    out: &mut Vec<NodeId>,
) -> Result<(), NoMemory>
    requires laws { IsHullTree (H.view tree.now) }
    requires node { InTree (H.view tree.now) node }
    requires left { left + (H.view tree.now).depth node ≡ LEVELS }
    ensures { OnOk result (out.new.items ≡ out.old.items ++ askers (H.view tree.now) area.now (below (H.view tree.now) left node)) }
{
    if !may_ask(tree, node, left, area) {
        return Ok(());
    }
    list_one(tree, node, area, tests, out)?;
    list_children(tree, node, left - 1, area, tests, looked, out)?;
    Ok(())
}

/// Appends those below a node.
#[cycle(listing)]
fn list_children<H: HullTree, T: Ledger>(
    tree: &H,
    node: NodeId,
    left: usize,
    area: &WorldBox,
    tests: &mut Tests<T>,
    looked: &mut usize,
    out: &mut Vec<NodeId>,
) -> Result<(), NoMemory>
    requires laws { IsHullTree (H.view tree.now) }
    requires node { InTree (H.view tree.now) node }
    requires left { left + (H.view tree.now).depth node ≡ MOST_DEPTH }
    ensures { OnOk result (out.new.items ≡ out.old.items ++ askers (H.view tree.now) area.now (flat_map (below (H.view tree.now) left) ((H.view tree.now).children node))) }
{
    let children = tree.children(node);
    *looked = looked.saturating_add(children);
    for place in 0..children {
        let child = child_of(tree, node, place);
        list_from(tree, child, left, area, tests, looked, out)?;
    }
    Ok(())
}

/// Appends those of a block's roots and of those below them.
fn list_block<H: HullTree, T: Ledger>(
    tree: &H,
    block: usize,
    area: &WorldBox,
    tests: &mut Tests<T>,
    looked: &mut usize,
    out: &mut Vec<NodeId>,
) -> Result<(), NoMemory>
    requires laws { IsHullTree (H.view tree.now) }
    requires block { BLOCK * block ≤ length (H.view tree.now).roots }
    ensures { OnOk result (out.new.items ++ askers (H.view tree.now) area.now
        (flat_map (below (H.view tree.now) LEVELS) (drop (BLOCK * (block + 1)) (H.view tree.now).roots))
        ≡ out.old.items ++ askers (H.view tree.now) area.now (flat_map (below (H.view tree.now) LEVELS) (drop (BLOCK * block) (H.view tree.now).roots))) }
{
    if !tree.block_asks(block, area) {
        return Ok(());
    }
    let roots = tree.roots();
    let from = BLOCK * block;
    for place in from..block_end(from, roots) {
        let root = root_of(tree, place);
        list_from(tree, root, LEVELS, area, tests, looked, out)?;
    }
    Ok(())
}

/// Appends those of a group's blocks.
fn list_group<H: HullTree, T: Ledger>(
    tree: &H,
    group: usize,
    area: &WorldBox,
    tests: &mut Tests<T>,
    looked: &mut usize,
    out: &mut Vec<NodeId>,
) -> Result<(), NoMemory>
    requires laws { IsHullTree (H.view tree.now) }
    requires group { GROUP * group ≤ length (H.view tree.now).roots }
    ensures { OnOk result (out.new.items ++ askers (H.view tree.now) area.now
        (flat_map (below (H.view tree.now) LEVELS) (drop (GROUP * (group + 1)) (H.view tree.now).roots))
        ≡ out.old.items ++ askers (H.view tree.now) area.now (flat_map (below (H.view tree.now) LEVELS) (drop (GROUP * group) (H.view tree.now).roots))) }
{
    if !tree.group_asks(group, area) {
        return Ok(());
    }
    let blocks = tree.roots() / BLOCK + 1;
    let from = BLOCK * group;
    for block in from..block_end(from, blocks) {
        list_block(tree, block, area, tests, looked, out)?;
    }
    Ok(())
}

/// The nodes that ask and whose box meets the area.
pub fn queriers_meeting<H: HullTree, T: Ledger>(
    alloc: Global,
    tree: &H,
    area: &WorldBox,
    tests: &mut Tests<T>,
    looked: &mut usize,
) -> Result<List<NodeId>, NoMemory>
    requires laws { IsHullTree (H.view tree.now) }
    ensures { IfOk result (λ list. ListsAskers (H.view tree.now) area.now list) }
{
    let mut out = Vec::new(alloc);
    for group in 0..tree.roots() / GROUP + 1 {
        list_group(tree, group, area, tests, looked, &mut out)?;
    }
    Ok(List::from_vec(out))
}
