//! What the agenda becomes after the turn of a node.
ghost use Rattle.std.specs.Prelude.{ℕ, ◌++◌, OnOk};
ghost use Rattle.cga_queue.specs.Agenda.{ComesAfter, Grows, HasAll, OneEach};
ghost use Rattle.cga_queue.specs.Remembered.{AreOn, IsRemembered};
ghost use Rattle.cga_update.specs.Askers.{IsAsker, IsOneOf};
ghost use Rattle.cga_update.specs.Follow.{HasLaters, IsFollowed, IsRested};
ghost use Rattle.cga_update.specs.Queue.{chains_of};

use crate::askers::{askers_near, lasting_askers};
use crate::queue::add_moved;
use crate::worked::Worked;
use cga_forest::{Change, Forest, NodeChange};
use cga_fraction::{NoMemory, Tests};
use cga_index::NodeId;
use cga_queue::{Agenda, Remembered, add_later};
use std::sync::ledger::Ledger;

/// So many nodes are looked at for each that there is, before all who ask are put on the agenda: each of them takes a
/// query then, which it may not need.
const LOOKS: usize = 8;

/// Puts the nodes of the mark on it that ask, meet what went or came and come later than another. Takes memory.
fn add_met<T: Ledger>(
    agenda: &mut Agenda,
    remembered: &mut Remembered,
    forest: &Forest,
    of: NodeId,
    removed: &[NodeChange],
    created: &[NodeChange],
    tests: &mut Tests<T>,
    looked: &mut usize,
) -> Result<(), NoMemory>
    requires one { OneEach (chains_of forest.now) }
    ensures grows { OnOk result (Grows (chains_of forest.now) (λ c. IsAsker forest.now (removed.now ++ created.now) c × ComesAfter (chains_of forest.now) agenda.old.mode of c) agenda.old agenda.new) }
    ensures there { OnOk result (AreOn (chains_of forest.now) remembered.old agenda.old
        → HasAll (chains_of forest.now) (λ c. IsAsker forest.now (removed.now ++ created.now) c × ComesAfter (chains_of forest.now) agenda.old.mode of c) agenda.new) }
    ensures remembered { OnOk result (AreOn (chains_of forest.now) remembered.old agenda.old → AreOn (chains_of forest.now) remembered.new agenda.new) }
{
    let askers = askers_near(agenda.alloc(), forest, removed, created, tests, looked)?;
    add_later(
        agenda,
        remembered,
        &Worked { forest },
        of,
        askers.as_slice(),
    )
}

/// Puts on the agenda what came, and who of the mark asks near what went or came and comes later than the node whose
/// children were replaced, unless it is known that nobody does. What came since the mark and comes later is on it anyway.
/// Takes memory.
pub fn follow<T: Ledger>(
    agenda: &mut Agenda,
    remembered: &mut Remembered,
    forest: &Forest,
    of: NodeId,
    change: &Change,
    nobody: bool,
    tests: &mut Tests<T>,
    looked: &mut usize,
) -> Result<(), NoMemory>
    requires one { OneEach (chains_of forest.now) }
    ensures followed { OnOk result (AreOn (chains_of forest.now) remembered.old agenda.old → IsFollowed forest.now of change.now nobody agenda.old agenda.new) }
    ensures remembered { OnOk result (AreOn (chains_of forest.now) remembered.old agenda.old → AreOn (chains_of forest.now) remembered.new agenda.new) }
{
    let created = change.created.as_slice();
    add_moved(agenda, forest, created)?;
    if nobody {
        return Ok(());
    }
    let removed = change.removed.as_slice();
    add_met(
        agenda, remembered, forest, of, removed, created, tests, looked,
    )
}

/// Puts all nodes of the mark on it that ask and come later than another. Takes memory.
fn queue_laters(
    agenda: &mut Agenda,
    remembered: &mut Remembered,
    forest: &Forest,
    of: NodeId,
) -> Result<(), NoMemory>
    requires one { OneEach (chains_of forest.now) }
    ensures grows { OnOk result (Grows (chains_of forest.now) (ComesAfter (chains_of forest.now) agenda.old.mode of) agenda.old agenda.new) }
    ensures there { OnOk result (AreOn (chains_of forest.now) remembered.old agenda.old → HasLaters forest.now of agenda.old.mode agenda.new) }
    ensures remembered { OnOk result (AreOn (chains_of forest.now) remembered.old agenda.old → AreOn (chains_of forest.now) remembered.new agenda.new) }
{
    let askers = lasting_askers(agenda.alloc(), forest)?;
    add_later(
        agenda,
        remembered,
        &Worked { forest },
        of,
        askers.as_slice(),
    )
}

/// Puts all of the mark that ask and come later than a node on it, where walks looked at many nodes. Then nobody has to be
/// looked for. Takes memory.
pub fn queue_rest(
    agenda: &mut Agenda,
    remembered: &mut Remembered,
    forest: &Forest,
    of: NodeId,
    looked: usize,
    all_queued: &mut bool,
) -> Result<(), NoMemory>
    requires one { OneEach (chains_of forest.now) }
    ensures { OnOk result (IsRested forest.now of remembered.old remembered.new all_queued.old all_queued.new agenda.old agenda.new) }
{
    if *all_queued || looked / LOOKS <= forest.count() {
        return Ok(());
    }
    queue_laters(agenda, remembered, forest, of)?;
    *all_queued = true;
    Ok(())
}

/// Forgets nodes that went.
pub fn forget_all(remembered: &mut Remembered, removed: &[NodeChange])
    ensures { (c : ℕ) → IsRemembered remembered.new c → IsRemembered remembered.old c × (IsOneOf removed.now c → ⊥) }
{
    for moved in removed {
        remembered.forget(moved.id);
    }
}
