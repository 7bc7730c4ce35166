//! Who asks near boxes: one walk over the tree for many boxes that lie side by side.
ghost use Rattle.std.specs.Prelude.{◌≡◌, IfOk, OnOk};
ghost use Rattle.std.specs.List.{list_any};
ghost use Rattle.cga_frame.specs.Box.{meets};
ghost use Rattle.cga_index.specs.Near.{AddsThese, AsksNear, AsksWithin, ListsNear};
ghost use Rattle.cga_index.specs.Tree.{IsHullTree};

use crate::around::box_around;
use crate::hull_tree::HullTree;
use crate::listing::queriers_meeting;
use crate::node_id::NodeId;
use cga_fraction::{List, NoMemory, Tests};
use cga_frame::WorldBox;
use std::alloc::Global;
use std::sync::ledger::Ledger;

/// So many boxes share a walk. Whoever asks near them is compared with each, so one walk for all would be slower.
const PIECE: usize = 64;

/// The nodes that ask and whose boxes meet one of the areas: once for each piece that they are near. Takes memory.
pub fn queriers_near<H: HullTree, T: Ledger>(
    alloc: Global,
    tree: &H,
    areas: &[WorldBox],
    tests: &mut Tests<T>,
    looked: &mut usize,
) -> Result<List<NodeId>, NoMemory>
    requires laws { IsHullTree (H.view tree.now) }
    ensures { IfOk result (ListsNear (H.view tree.now) areas.now) }
{
    let mut near = Vec::new(alloc);
    let mut rest = areas;
    while !rest.is_empty() {
        let (piece, others) = rest.split_at(rest.len().min(PIECE));
        add_near(alloc, tree, piece, tests, looked, &mut near)?;
        rest = others;
    }
    Ok(List::from_vec(near))
}

/// Appends the nodes that ask and whose boxes meet one of the areas. Takes memory.
fn add_near<H: HullTree, T: Ledger>(
    alloc: Global,
    tree: &H,
    areas: &[WorldBox],
    tests: &mut Tests<T>,
    looked: &mut usize,
    near: &mut Vec<NodeId>,
) -> Result<(), NoMemory>
    requires laws { IsHullTree (H.view tree.now) }
    ensures { OnOk result (AddsThese (AsksNear (H.view tree.now) areas.now) near.old.items near.new.items) }
{
    if let Some(around) = box_around(areas) {
        add_within(alloc, tree, &around, areas, tests, looked, near)?;
        return Ok(());
    }
    for area in areas {
        add_within(alloc, tree, area, areas, tests, looked, near)?;
    }
    Ok(())
}

/// Appends those of them whose boxes meet another box too. Only near that box is the tree walked. Takes memory.
fn add_within<H: HullTree, T: Ledger>(
    alloc: Global,
    tree: &H,
    around: &WorldBox,
    areas: &[WorldBox],
    tests: &mut Tests<T>,
    looked: &mut usize,
    near: &mut Vec<NodeId>,
) -> Result<(), NoMemory>
    requires laws { IsHullTree (H.view tree.now) }
    ensures { OnOk result (AddsThese (AsksWithin (H.view tree.now) around.now areas.now) near.old.items near.new.items) }
{
    let askers = queriers_meeting(alloc, tree, around, tests, looked)?;
    for id in askers.as_slice() {
        let own = tree.own_box(*id, tests);
        if meets_one(&own, areas) {
            near.push(*id)?;
        }
    }
    Ok(())
}

fn meets_one(own: &WorldBox, areas: &[WorldBox]) -> bool
    ensures { result ≡ list_any (meets own.now) areas.now }
{
    for area in areas {
        if own.meets(area) {
            return true;
        }
    }
    false
}
