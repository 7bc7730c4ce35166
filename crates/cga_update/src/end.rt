//! The end of an update within the budget: what the log says is made of the dependents.
ghost use Rattle.std.specs.Prelude.{◌≡◌, ℕ, OnOk, true, false};
ghost use Rattle.cga_forest.specs.Tree.{marked_at, node_at};
ghost use Rattle.cga_update.specs.Applied.{ListsView};
ghost use Rattle.cga_update.specs.Log.{IsLogged};

use crate::kept::Kept;
use crate::work::Work;
use cga_depend::apply;
use cga_fraction::{List, NoMemory};
use cga_shape::Changes;
use std::mem::{replace, swap};

/// Keeps a worked forest and what it means for the dependents, and puts its record into the changes. Takes memory.
pub fn done(work: Work, kept: &mut Kept, changes: &mut Changes) -> Result<(), NoMemory>
    requires marked { work.forest.marking ≡ true }
    requires logged { IsLogged (marked_at work.forest) (node_at work.forest) work.log.items }
    requires listed { ListsView kept.old.dependents (marked_at work.forest) }
    ensures nodes { OnOk result ((c : ℕ) → node_at kept.new.forest c ≡ node_at work.entry.forest c) }
    ensures unmarked { OnOk result (kept.new.forest.marking ≡ false) }
    ensures mode { OnOk result (kept.new.forest.mode ≡ work.entry.forest.mode) }
    ensures listed { OnOk result (ListsView kept.new.dependents (node_at work.entry.forest)) }
    ensures changes { OnOk result (changes.new ≡ record { gone = work.entry.gone.items; come = work.entry.come.items }) }
{
    let mut work = work;
    let told = keep(&mut work, kept, changes);
    drop(work);
    told
}

/// Keeps what the work made, and leaves in the work what was kept before.
fn keep(work: &mut Work, kept: &mut Kept, changes: &mut Changes) -> Result<(), NoMemory>
    requires marked { work.now.forest.marking ≡ true }
    requires logged { IsLogged (marked_at work.now.forest) (node_at work.now.forest) work.now.log.items }
    requires listed { ListsView kept.old.dependents (marked_at work.now.forest) }
    ensures nodes { OnOk result ((c : ℕ) → node_at kept.new.forest c ≡ node_at work.entry.now.forest c) }
    ensures unmarked { OnOk result (kept.new.forest.marking ≡ false) }
    ensures mode { OnOk result (kept.new.forest.mode ≡ work.entry.now.forest.mode) }
    ensures listed { OnOk result (ListsView kept.new.dependents (node_at work.entry.now.forest)) }
    ensures changes { OnOk result (changes.new ≡ record { gone = work.entry.now.gone.items; come = work.entry.now.come.items }) }
{
    apply(&mut kept.dependents, work.log.as_slice())?;
    work.forest.settle();
    swap(&mut kept.forest, &mut work.forest);
    *changes = Changes {
        gone: List::from_vec(replace(&mut work.gone, Vec::new(work.alloc))),
        come: List::from_vec(replace(&mut work.come, Vec::new(work.alloc))),
    };
    Ok(())
}

/// Puts the forest back as it was at the mark. The time goes by what changed since.
pub fn put_back(work: Work, kept: &mut Kept)
    requires marked { work.forest.marking ≡ true }
    ensures nodes { (c : ℕ) → node_at kept.new.forest c ≡ marked_at work.entry.forest c }
    ensures unmarked { kept.new.forest.marking ≡ false }
    ensures mode { kept.new.forest.mode ≡ work.entry.forest.mode }
    ensures dependents { kept.new.dependents ≡ kept.old.dependents }
{
    let mut work = work;
    work.forest.roll_back();
    swap(&mut kept.forest, &mut work.forest);
    drop(work);
}
