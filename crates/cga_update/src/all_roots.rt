//! The roots that go and come when an edit begins that changes all lots.
ghost use Rattle.std.specs.Prelude.{◌≡◌, ℕ, ◌+◌, OnOk, length};
ghost use Rattle.cga_forest.specs.NodeChange.{ListsOnlyIn};
ghost use Rattle.cga_forest.specs.Tree.{node_at};
ghost use Rattle.cga_shape.specs.Runs.{IsRunAt};
ghost use Rattle.cga_update.specs.Roots.{AllWanted, AreByName, AreThere, AreWanted, AreWithin, Gains, HasLost, Loses, View};

use crate::lookup::lots_by_name;
use crate::renewal::Renewal;
use crate::roots::{add_root, clear_root};
use cga_check::Symbols;
use cga_forest::{Forest, NodeChange};
use cga_fraction::NoMemory;
use cga_shape::Lot;
use cga_word::Name;
use indexmap::IndexMap;
use std::alloc::Global;

/// Removes the roots of a run of the old lots that aren't wanted any more, with all below them, and lists these. `named`
/// holds the new lots. Takes memory.
fn remove_run(
    alloc: Global,
    forest: &mut Forest,
    symbols: &mut Symbols,
    renewal: Renewal,
    named: &IndexMap<Name, Lot>,
    run: &[Lot],
    removed: &mut Vec<NodeChange>,
) -> Result<(), NoMemory>
    requires symbols { symbols.old ≡ renewal.new.now.grammar }
    requires named { AreByName renewal.new.now.lots (length renewal.new.now.lots) named.now.entries }
    ensures symbols { symbols.new ≡ symbols.old }
    ensures lost { OnOk result ((V : View) → HasLost V forest.old removed.old.items → HasLost V forest.new removed.new.items) }
    ensures wanted { OnOk result ((n : ℕ) → IsRunAt renewal.entry.old.now.lots n run.now
        → AreWanted renewal.entry.new.now renewal.entry.old.now.lots forest.old n → AreWanted renewal.entry.new.now
        renewal.entry.old.now.lots forest.new (n + length run.now)) }
    ensures loses { OnOk result (Loses renewal.entry.new.now forest.old forest.new) }
    ensures mode { forest.new.mode ≡ forest.old.mode }
{
    for lot in run {
        let again = named.get(&lot.name);
        clear_root(alloc, forest, again, symbols, renewal, lot.name, removed)?;
    }
    Ok(())
}

/// Removes the roots of all old lots that aren't wanted any more, with all below them, and lists these. Takes memory.
pub fn remove_all(
    alloc: Global,
    forest: &mut Forest,
    symbols: &mut Symbols,
    renewal: Renewal,
    removed: &mut Vec<NodeChange>,
) -> Result<(), NoMemory>
    requires symbols { symbols.old ≡ renewal.new.now.grammar }
    requires wanted { AllWanted renewal.old.now forest.old }
    ensures symbols { symbols.new ≡ symbols.old }
    ensures lost { OnOk result ((V : View) → HasLost V forest.old removed.old.items → HasLost V forest.new removed.new.items) }
    ensures wanted { OnOk result (AllWanted renewal.entry.new.now forest.new) }
    ensures loses { OnOk result (Loses renewal.entry.new.now forest.old forest.new) }
    ensures mode { forest.new.mode ≡ forest.old.mode }
{
    let named = lots_by_name(alloc, &renewal.new.lots)?;
    for run in renewal.old.lots.runs() {
        remove_run(
            alloc,
            forest,
            symbols,
            renewal,
            &named,
            run.as_slice(),
            removed,
        )?;
    }
    Ok(())
}

/// Adds the roots of a run of the new lots that have none, and lists them. Takes memory.
fn add_run(
    forest: &mut Forest,
    symbols: &mut Symbols,
    renewal: Renewal,
    run: &[Lot],
    created: &mut Vec<NodeChange>,
) -> Result<(), NoMemory>
    requires symbols { symbols.old ≡ renewal.new.now.grammar }
    requires listed { (n : ℕ) × IsRunAt renewal.new.now.lots n run.now }
    ensures gains { OnOk result (Gains renewal.entry.new.now forest.old forest.new) }
    ensures there { OnOk result ((n : ℕ) → IsRunAt renewal.entry.new.now.lots n run.now
        → AreThere renewal.entry.new.now forest.old n → AreThere renewal.entry.new.now forest.new (n + length run.now)) }
    ensures created { OnOk result ((W : View) → AreWithin W (node_at forest.old) → ListsOnlyIn (node_at forest.old) W created.old.items → ListsOnlyIn (node_at forest.new) W created.new.items) }
    ensures mode { forest.new.mode ≡ forest.old.mode }
    ensures symbols { symbols.new ≡ symbols.old }
{
    for lot in run {
        add_root(forest, symbols, renewal.new, lot, created)?;
    }
    Ok(())
}

/// Adds the roots of all lots that have none, and lists them. Takes memory.
pub fn add_all(
    forest: &mut Forest,
    symbols: &mut Symbols,
    renewal: Renewal,
    created: &mut Vec<NodeChange>,
) -> Result<(), NoMemory>
    requires symbols { symbols.old ≡ renewal.new.now.grammar }
    ensures gains { OnOk result (Gains renewal.entry.new.now forest.old forest.new) }
    ensures there { OnOk result (AreThere renewal.entry.new.now forest.new (length renewal.entry.new.now.lots)) }
    ensures created { OnOk result ((W : View) → AreWithin W (node_at forest.old) → ListsOnlyIn (node_at forest.old) W created.old.items → ListsOnlyIn (node_at forest.new) W created.new.items) }
    ensures mode { forest.new.mode ≡ forest.old.mode }
    ensures symbols { symbols.new ≡ symbols.old }
{
    for run in renewal.new.lots.runs() {
        add_run(forest, symbols, renewal, run.as_slice(), created)?;
    }
    Ok(())
}
