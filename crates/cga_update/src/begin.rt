//! The beginning of an update: the roots that go and come, and the first agenda.
ghost use Rattle.std.specs.Prelude.{◌≡◌, ◌++◌, ℕ, true, IfOk, OnOk};
ghost use Rattle.cga_forest.specs.Tree.{marked_at, node_at};
ghost use Rattle.cga_queue.specs.Agenda.{OneEach};
ghost use Rattle.cga_update.specs.Clear.{AsksNobody};
ghost use Rattle.cga_update.specs.Queue.{chains_of};
ghost use Rattle.cga_update.specs.Begun.{HasBegun, HasMoved, IsBetween, IsFresh, StandsMarked};

use crate::asking::last_asker;
use crate::clear::clear_area;
use crate::log::{note_created, note_removed};
use crate::queue::{add_moved, queue_changed, queue_near};
use crate::renewal::Renewal;
use crate::roots::{add_roots, remove_roots};
use crate::work::Work;
use cga_check::Symbols;
use cga_depend::{Dependents, Grammars};
use cga_expand::RulesByPlace;
use cga_forest::{Forest, NodeChange};
use cga_fraction::{NoMemory, Tests};
use cga_queue::{Agenda, Last, Remembered};
use std::alloc::Global;
use std::sync::ledger::Ledger;

/// Puts on an agenda the roots that came, and who of the mark asks near what went or came. Takes memory.
fn queue_rooted<T: Ledger>(
    agenda: &mut Agenda,
    forest: &Forest,
    removed: &[NodeChange],
    created: &[NodeChange],
    nobody: bool,
    tests: &mut Tests<T>,
) -> Result<(), NoMemory>
    requires one { OneEach (chains_of forest.now) }
    requires nobody { nobody ≡ true → AsksNobody forest.now (removed.now ++ created.now) }
    ensures moved { OnOk result (HasMoved forest.now removed.now created.now agenda.new) }
    ensures mode { OnOk result (agenda.new.mode ≡ agenda.old.mode) }
{
    add_moved(agenda, forest, created)?;
    if nobody {
        return Ok(());
    }
    queue_near(agenda, forest, removed, &[], tests)?;
    queue_near(agenda, forest, &[], created, tests)
}

/// Takes the roots that go away, puts those that come there, and puts on the agenda what the change may reach. Takes
/// memory.
fn begin<T: Ledger>(
    work: &mut Work,
    dependents: &Dependents,
    tests: &mut Tests<T>,
) -> Result<(), NoMemory>
    requires stands { StandsMarked work.now.renewal.old.now work.now.renewal.new.now work.now.forest dependents.now }
    requires fresh { IsFresh work.now }
    ensures begun { OnOk result (HasBegun work.entry.now.renewal.old.now work.entry.now.renewal.new.now work.entry.now.forest work.exit.now) }
    ensures mark { OnOk result ((c : ℕ) → marked_at work.exit.now.forest c ≡ node_at work.entry.now.forest c) }
    ensures sources { OnOk result (IsBetween work.entry.now.renewal.old.now work.entry.now.renewal.new.now work.exit.now) }
    ensures budget { OnOk result (work.exit.now.renewal.budget ≡ work.entry.now.renewal.budget) }
{
    let alloc = work.alloc;
    let renewal = work.renewal;
    let mut removed = Vec::new(alloc);
    work.forest.laws(); // for the proof
    remove_roots(
        alloc,
        &mut work.forest,
        &mut work.symbols,
        renewal,
        &mut removed,
    )?;
    work.all_queued = work.forest.count() == 0;
    let mut created = Vec::new(alloc);
    add_roots(&mut work.forest, &mut work.symbols, renewal, &mut created)?;
    let removed_nodes = removed.as_slice();
    let created_nodes = created.as_slice();
    note_removed(removed_nodes, &mut work.log, &mut work.gone)?;
    note_created(created_nodes, &mut work.log, &mut work.come)?;
    work.forest.laws(); // for the proof
    let clear = clear_area(
        alloc,
        &work.forest,
        renewal.changed,
        removed_nodes,
        created_nodes,
        tests,
    )?;
    queue_rooted(
        &mut work.agenda,
        &work.forest,
        removed_nodes,
        created_nodes,
        clear.is_some(),
        tests,
    )?;
    work.clear = clear;
    let priced = queue_changed(
        &mut work.agenda,
        &work.forest,
        &mut work.grammars,
        dependents,
    )?;
    work.priced = priced;
    let last = last_asker(
        alloc,
        &work.agenda,
        &work.forest,
        dependents,
        &renewal.old.grammar,
        &mut work.symbols,
    )?;
    work.last = last;
    Ok(())
}

/// An update under way, before its first turn: the roots that went are gone, those that came are there, and the agenda has
/// what the change may reach. The forest is marked, and the mark stays. Takes memory.
pub fn begun<'a, T: Ledger>(
    alloc: Global,
    forest: Forest,
    dependents: &Dependents,
    renewal: Renewal<'a>,
    tests: &mut Tests<T>,
) -> Result<Work<'a>, NoMemory>
    requires stands { StandsMarked renewal.old.now renewal.new.now forest dependents.now }
    ensures begun { IfOk result (λ work. HasBegun renewal.entry.old.now renewal.entry.new.now forest work) }
    ensures mark { IfOk result (λ work. (c : ℕ) → marked_at work.forest c ≡ node_at forest c) }
    ensures sources { IfOk result (λ work. IsBetween renewal.entry.old.now renewal.entry.new.now work) }
    ensures budget { IfOk result (λ work. work.renewal.budget ≡ renewal.entry.budget) }
{
    let mut work = Work {
        alloc,
        forest,
        agenda: Agenda::new(alloc, renewal.new.mode),
        remembered: Remembered::new(alloc),
        all_queued: false,
        looked: 0,
        priced: false,
        last: Last::Unknown,
        clear: None,
        symbols: Symbols::new(alloc, &renewal.new.grammar),
        grammars: Grammars::new(alloc, &renewal.old.grammar, &renewal.new.grammar),
        log: Vec::new(alloc),
        gone: Vec::new(alloc),
        come: Vec::new(alloc),
        rules: RulesByPlace::new(alloc, &renewal.new.grammar),
        renewal,
    };
    match begin(&mut work, dependents, tests) {
        Ok(()) => Ok(work),
        Err(NoMemory) => {
            drop(work);
            Err(NoMemory)
        }
    }
}
