//! Who asks near what moved, of the nodes that were there at the mark.
ghost use Rattle.std.specs.Prelude.{◌≡◌, ◌++◌, ℕ, IfOk, OnOk};
ghost use Rattle.cga_order.specs.World.{Among};
ghost use Rattle.cga_forest.specs.Walked.{lasting_tree};
ghost use Rattle.cga_update.specs.Askers.{IsLasting, ListsAskers, boxes_of};

use cga_forest::{Forest, NodeChange};
use cga_fraction::{List, NoMemory, Tests};
use cga_frame::WorldBox;
use cga_index::{Lasting, LastingAskers, NodeId, all_nodes, queriers_near};
use std::alloc::Global;
use std::sync::ledger::Ledger;

/// The nodes of the mark that ask and whose boxes meet that of one of these, which went or came, and only they. One walk
/// serves both lists. Takes memory.
pub fn askers_near<T: Ledger>(
    alloc: Global,
    forest: &Forest,
    removed: &[NodeChange],
    created: &[NodeChange],
    tests: &mut Tests<T>,
    looked: &mut usize,
) -> Result<List<NodeId>, NoMemory>
    ensures { IfOk result (ListsAskers forest.now (removed.now ++ created.now)) }
{
    forest.laws(); // for the proof
    let mut areas = Vec::with_capacity(alloc, removed.len() + created.len())?;
    add_boxes(removed, &mut areas)?;
    add_boxes(created, &mut areas)?;
    queriers_near(
        alloc,
        &LastingAskers { tree: forest },
        areas.as_slice(),
        tests,
        looked,
    )
}

/// Appends their boxes. Takes memory.
pub fn add_boxes(moved: &[NodeChange], boxes: &mut Vec<WorldBox>) -> Result<(), NoMemory>
    ensures { OnOk result (boxes.new.items ≡ boxes.old.items ++ boxes_of moved.now) }
{
    for node in moved {
        boxes.push(node.bounds())?;
    }
    Ok(())
}

/// Whether a node was there at the mark and asks.
fn is_lasting(forest: &Forest, id: NodeId) -> bool
    ensures { result ≡ (lasting_tree forest.now).asks id }
{
    match forest.node(id) {
        Some(node) => node.asks && forest.lasts(id),
        None => false,
    }
}

/// All nodes of the mark that ask. Takes memory for every node.
pub fn lasting_askers(alloc: Global, forest: &Forest) -> Result<Vec<NodeId>, NoMemory>
    ensures { IfOk result (λ list. (c : ℕ) → IsLasting forest.now c → Among c list.items) }
{
    forest.laws(); // for the proof
    let mut nodes = all_nodes(alloc, forest)?;
    nodes.retain(|id| is_lasting(forest, *id));
    Ok(nodes)
}
