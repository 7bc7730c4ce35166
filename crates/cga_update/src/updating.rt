//! The update.
ghost use Rattle.std.specs.Prelude.{◌≡◌, ◌≢◌, ◌+◌, ◌≤◌, OnOk};
ghost use Rattle.cga_update.specs.Anew.{IsAnew};
ghost use Rattle.cga_update.specs.Stands.{Stands};
ghost use Rattle.cga_update.specs.Updates.{IsExact, IsUpdate, with_no_lots};

use crate::anew::{Anew, without_lots};
use crate::changed_lots::ChangedLots;
use crate::kept::Kept;
use crate::renewal::Renewal;
use crate::rework::rework;
use crate::update_refused::UpdateRefused;
use cga_expand::Expansions;
use cga_fraction::{NoMemory, Tests};
use cga_shape::Changes;
use std::alloc::Global;
use std::mem::swap;
use std::sync::ledger::Ledger;

/// Makes what stands for the old sources stand for the new ones, and answers how many shapes were touched: so often it
/// expands. `changes` becomes the record of what went and came.
///
/// `OverBudget` comes exactly where the new derivation has more shapes than the budget; then all is as before. After
/// `NoMemory` what is kept and the changes are given up, and at most budget + 2 expansions were made, or budget + 1 within
/// one mode. Takes memory.
pub fn update<E: Ledger, T: Ledger>(
    alloc: Global,
    kept: &mut Kept,
    renewal: Renewal,
    changes: &mut Changes,
    expansions: &mut Expansions<E>,
    tests: &mut Tests<T>,
) -> Result<u64, UpdateRefused>
    requires stands { Stands renewal.old.now kept.old }
    ensures { IsUpdate renewal.entry kept.old kept.new changes.old changes.new expansions.old expansions.new result }
{
    if renewal.old.mode == renewal.new.mode {
        rework(alloc, kept, renewal, changes, expansions, tests)
    } else {
        change_mode(alloc, kept, renewal, changes, expansions, tests)
    }
}

/// Updates from one mode to another: all is derived from nothing, and what was kept is dropped.
fn change_mode<E: Ledger, T: Ledger>(
    alloc: Global,
    kept: &mut Kept,
    renewal: Renewal,
    changes: &mut Changes,
    expansions: &mut Expansions<E>,
    tests: &mut Tests<T>,
) -> Result<u64, UpdateRefused>
    requires mode { renewal.old.now.mode ≢ renewal.new.now.mode }
    requires stands { Stands renewal.old.now kept.old }
    ensures { IsUpdate renewal.entry kept.old kept.new changes.old changes.new expansions.old expansions.new result }
{
    let mut anew = Anew::of(alloc, renewal.new)?;
    let told = exchange(alloc, kept, &mut anew, renewal, changes, expansions, tests);
    drop(anew);
    told
}

/// Updates by what stands for the new sources without their lots. What was kept takes its place.
fn exchange<E: Ledger, T: Ledger>(
    alloc: Global,
    kept: &mut Kept,
    anew: &mut Anew,
    renewal: Renewal,
    changes: &mut Changes,
    expansions: &mut Expansions<E>,
    tests: &mut Tests<T>,
) -> Result<u64, UpdateRefused>
    requires mode { renewal.old.now.mode ≢ renewal.new.now.mode }
    requires stands { Stands renewal.old.now kept.old }
    requires anew { IsAnew renewal.new.now anew.old }
    ensures { IsUpdate renewal.entry kept.old kept.new changes.old changes.new expansions.old expansions.new result }
{
    let from_nothing = Renewal {
        old: &anew.nothing,
        new: renewal.new,
        changed: ChangedLots::All,
        budget: renewal.budget,
    };
    let touched = rework(
        alloc,
        &mut anew.kept,
        from_nothing,
        &mut anew.made,
        expansions,
        tests,
    )?;
    empty(alloc, kept, renewal, changes, expansions, tests)?;
    swap(kept, &mut anew.kept);
    swap(&mut changes.come, &mut anew.made.come);
    Ok(touched)
}

/// Takes all old lots away: `changes` tells the instances that go.
fn empty<E: Ledger, T: Ledger>(
    alloc: Global,
    kept: &mut Kept,
    renewal: Renewal,
    changes: &mut Changes,
    expansions: &mut Expansions<E>,
    tests: &mut Tests<T>,
) -> Result<(), NoMemory>
    requires stands { Stands renewal.old.now kept.old }
    ensures exact { OnOk result (IsExact renewal.entry.old.now (with_no_lots renewal.entry.old.now) 0 0 changes.new) }
    ensures spent { OnOk result (expansions.new ≡ expansions.old) }
    ensures bounded { expansions.new ≤ expansions.old + 1 }
    ensures counted { expansions.old ≤ expansions.new }
{
    let nothing = without_lots(alloc, renewal.old)?;
    let to_nothing = Renewal {
        old: renewal.old,
        new: &nothing,
        changed: ChangedLots::All,
        budget: 0,
    };
    match rework(alloc, kept, to_nothing, changes, expansions, tests) {
        Ok(_touched) => Ok(()),
        Err(UpdateRefused::NoMemory) => Err(NoMemory),
        // No lots derive to no shapes.
        Err(UpdateRefused::OverBudget) => unreachable!(),
    }
}
