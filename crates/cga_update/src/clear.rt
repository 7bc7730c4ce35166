//! A box near which nobody of the mark asks: what moves inside it is followed without a walk.
ghost use Rattle.std.specs.Prelude.{◌≡◌, ◌⊎◌, ◌++◌, Some, true, IfOk};
ghost use Rattle.cga_frame.specs.Box.{Box};
ghost use Rattle.cga_index.specs.Around.{IsWider};
ghost use Rattle.cga_update.specs.Clear.{AreInside, IsClearRound, LiesInside, StaysClear};

use crate::askers::add_boxes;
use crate::changed_lots::ChangedLots;
use cga_forest::{Change, Forest, NodeChange};
use cga_fraction::{NoMemory, Tests};
use cga_frame::WorldBox;
use cga_index::{Lasting, LastingAskers, NodeId, box_around, queriers_meeting};
use std::alloc::Global;
use std::sync::ledger::Ledger;

/// A box round all of these that nobody of the mark meets who asks, if one lot changes and there is such a box. Takes
/// memory.
pub fn clear_area<T: Ledger>(
    alloc: Global,
    forest: &Forest,
    changed: ChangedLots,
    removed: &[NodeChange],
    created: &[NodeChange],
    tests: &mut Tests<T>,
) -> Result<Option<WorldBox>, NoMemory>
    ensures { IfOk result (IsClearRound forest.now (removed.now ++ created.now)) }
{
    match changed {
        ChangedLots::One(_, _) => clear_around(alloc, forest, removed, created, tests),
        ChangedLots::Nothing => Ok(None),
        ChangedLots::All => Ok(None),
    }
}

fn clear_around<T: Ledger>(
    alloc: Global,
    forest: &Forest,
    removed: &[NodeChange],
    created: &[NodeChange],
    tests: &mut Tests<T>,
) -> Result<Option<WorldBox>, NoMemory>
    ensures { IfOk result (IsClearRound forest.now (removed.now ++ created.now)) }
{
    forest.laws(); // for the proof
    let mut areas = Vec::with_capacity(alloc, removed.len() + created.len())?;
    add_boxes(removed, &mut areas)?;
    add_boxes(created, &mut areas)?;
    let Some(around) = box_around(areas.as_slice()) else {
        return Ok(None);
    };
    let near = queriers_meeting(
        alloc,
        &LastingAskers { tree: forest },
        &around,
        tests,
        &mut 0,
    )?;
    if near.is_empty() {
        Ok(Some(around))
    } else {
        Ok(None)
    }
}

/// Whether a box lies inside another one, and reaches no side of it. What is flat in a side of the other one doesn't meet
/// it.
fn is_inside(inner: &WorldBox, area: &WorldBox) -> bool
    ensures { result ≡ true → IsWider inner.now area.now }
{
    area.low.x.is_less(inner.low.x)
        && inner.high.x.is_less(area.high.x)
        && area.low.y.is_less(inner.low.y)
        && inner.high.y.is_less(area.high.y)
        && area.low.z.is_less(inner.low.z)
        && inner.high.z.is_less(area.high.z)
}

/// Whether the boxes of all of these lie inside it.
fn are_inside(moved: &[NodeChange], area: &WorldBox) -> bool
    ensures { result ≡ true → AreInside moved.now area.now }
{
    for node in moved {
        if !is_inside(&node.bounds(), area) {
            return false;
        }
    }
    true
}

/// Whether all that a change removed and created lies inside the clear box, if there is one, or nobody has to be looked
/// for anyway.
pub fn needs_nobody(nobody: bool, clear: &Option<WorldBox>, change: &Change) -> bool
    ensures { result ≡ true → (nobody ≡ true) ⊎ LiesInside change.now clear.now }
{
    if nobody {
        return true;
    }
    match clear {
        Some(area) => {
            are_inside(change.removed.as_slice(), area)
                && are_inside(change.created.as_slice(), area)
        }
        None => false,
    }
}

/// The clear box after the turn of a node, which may ask now: none if the node is one of the mark.
pub fn still_clear(forest: &Forest, id: NodeId, clear: Option<WorldBox>) -> Option<WorldBox>
    ensures { (area : Box) → result ≡ Some area → StaysClear forest.now id clear area }
{
    if forest.lasts(id) {
        return None;
    }
    clear
}
