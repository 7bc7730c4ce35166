//! The update within one mode.
ghost use Rattle.std.specs.Prelude.{◌≡◌, ◌+◌, ◌≤◌, ℕ, IfOk, length};
ghost use Rattle.cga_agenda.specs.Loop.{HasCalled};
ghost use Rattle.cga_shape.specs.declared.sources.Sources.{Sources};
ghost use Rattle.cga_forest.specs.Tree.{ForestView, marked_at, node_at};
ghost use Rattle.cga_update.specs.Begun.{HasBegun, IsBetween};
ghost use Rattle.cga_update.specs.Means.{KeepsBounds};
ghost use Rattle.cga_update.specs.Reworked.{HasEnded};
ghost use Rattle.cga_update.specs.Stands.{Stands};
ghost use Rattle.cga_update.specs.Updates.{IsUpdate};

use crate::begin::begun;
use crate::end::{done, put_back};
use crate::kept::Kept;
use crate::renewal::Renewal;
use crate::update_refused::UpdateRefused;
use crate::work::Work;
use cga_agenda::{Ended, work};
use cga_expand::Expansions;
use cga_forest::Forest;
use cga_fraction::{NoMemory, Tests};
use cga_shape::Changes;
use std::alloc::Global;
use std::mem::replace;
use std::sync::ledger::Ledger;

/// The update where the mode stays. Takes memory.
pub fn rework<E: Ledger, T: Ledger>(
    alloc: Global,
    kept: &mut Kept,
    renewal: Renewal,
    changes: &mut Changes,
    expansions: &mut Expansions<E>,
    tests: &mut Tests<T>,
) -> Result<u64, UpdateRefused>
    requires mode { renewal.old.now.mode ≡ renewal.new.now.mode }
    requires stands { Stands renewal.old.now kept.old }
    ensures { IsUpdate renewal.entry kept.old kept.new changes.old changes.new expansions.old expansions.new result }
{
    if renewal.new.lots.len() > renewal.budget as usize {
        return Err(UpdateRefused::OverBudget);
    }
    let mut under_way = begin_work(alloc, kept, renewal, tests)?;
    match work_off(&mut under_way, expansions, tests) {
        Ok(Ended::Within(touched)) => {
            done(under_way, kept, changes)?;
            Ok(u64::from(touched))
        }
        Ok(Ended::OverBudget) => {
            put_back(under_way, kept);
            Err(UpdateRefused::OverBudget)
        }
        Err(NoMemory) => {
            drop(under_way);
            Err(UpdateRefused::NoMemory)
        }
    }
}

/// Marks the forest, and begins the work with it. Takes memory.
fn begin_work<'a, T: Ledger>(
    alloc: Global,
    kept: &mut Kept,
    renewal: Renewal<'a>,
    tests: &mut Tests<T>,
) -> Result<Work<'a>, NoMemory>
    requires mode { renewal.old.now.mode ≡ renewal.new.now.mode }
    requires stands { Stands renewal.old.now kept.old }
    ensures begun { IfOk result (λ work. HasBegun renewal.entry.old.now renewal.entry.new.now kept.old.forest work) }
    ensures sources { IfOk result (λ work. IsBetween renewal.entry.old.now renewal.entry.new.now work) }
    ensures budget { IfOk result (λ work. work.renewal.budget ≡ renewal.entry.budget) }
    ensures mark { IfOk result (λ work. (c : ℕ) → marked_at work.forest c ≡ node_at kept.old.forest c) }
    ensures dependents { kept.new.dependents ≡ kept.old.dependents }
{
    let mut marked = replace(&mut kept.forest, Forest::new(alloc, renewal.new.mode));
    marked.begin();
    begun(alloc, marked, &kept.dependents, renewal, tests)
}

/// Works until nothing is on the agenda, or the budget is spent. Takes memory.
fn work_off<E: Ledger, T: Ledger>(
    under_way: &mut Work,
    expansions: &mut Expansions<E>,
    tests: &mut Tests<T>,
) -> Result<Ended, NoMemory>
    requires few { length under_way.now.renewal.new.now.lots ≤ under_way.now.renewal.budget }
    ensures ended { IfOk result (λ ended. (old new : Sources) (v : ForestView) → IsBetween old new under_way.entry.now
        → HasBegun old new v under_way.entry.now
        → HasEnded old new v under_way.exit.now under_way.entry.now.renewal.budget expansions.old expansions.new ended) }
    ensures called { IfOk result (λ ended. HasCalled expansions.old expansions.new ended) }
    ensures bounds { KeepsBounds under_way.entry.now under_way.exit.now }
    ensures counted { expansions.old ≤ expansions.new }
    ensures most { expansions.new ≤ expansions.old + (under_way.entry.now.renewal.budget + 1) }
{
    let budget = under_way.renewal.budget;
    let roots = under_way.renewal.new.lots.len() as u32;
    work(under_way, roots, budget, expansions, tests)
}
