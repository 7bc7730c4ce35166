//! Lots, looked up by a place or a name.
ghost use Rattle.std.specs.Prelude.{◌≡◌, ℕ, ◌+◌, List, IfOk, OnOk, length};
ghost use Rattle.std.specs.Option.{option_copied};
ghost use Rattle.cga_shape.specs.Runs.{IsRunAt};
ghost use Rattle.cga_shape.specs.declared.lot.Lot.{Lot};
ghost use Rattle.cga_update.specs.Roots.{AreByName, if_named, lot_at};

use cga_fraction::NoMemory;
use cga_shape::{Lot, Lots};
use cga_word::Name;
use indexmap::IndexMap;
use std::alloc::Global;

/// Puts the lots of a run under their names. Takes memory.
fn name_run(named: &mut IndexMap<Name, Lot>, run: &[Lot]) -> Result<(), NoMemory>
    ensures { OnOk result ((lots : List Lot) (n : ℕ) → IsRunAt lots n run.now → AreByName lots n named.old.entries → AreByName lots (n + length run.now) named.new.entries) }
{
    for lot in run {
        named.insert(lot.name, *lot)?;
    }
    Ok(())
}

/// Lots by their names. Takes memory.
pub fn lots_by_name(alloc: Global, lots: &Lots) -> Result<IndexMap<Name, Lot>, NoMemory>
    ensures { IfOk result (λ named. AreByName lots.now (length lots.now) named.entries) }
{
    let mut named = IndexMap::new(alloc);
    for run in lots.runs() {
        name_run(&mut named, run.as_slice())?;
    }
    Ok(named)
}

/// The lot at a place, where there is one.
pub fn lot_at(lots: &Lots, place: Option<usize>) -> Option<&Lot>
    ensures { option_copied result ≡ lot_at lots.now place }
{
    match place {
        Some(place) => lots.get(place),
        None => None,
    }
}

/// The lot at a place, where there is one and it has this name.
pub fn lot_named(lots: &Lots, place: Option<usize>, name: Name) -> Option<&Lot>
    ensures { option_copied result ≡ if_named name (lot_at lots.now place) }
{
    let lot = lot_at(lots, place)?;
    if lot.name == name { Some(lot) } else { None }
}
