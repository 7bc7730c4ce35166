//! Edits of sources, with the lots that they change.
ghost use Rattle.std.specs.Prelude.{◌≡◌};
ghost use Rattle.cga_city.specs.City.{ChangeGives};
ghost use Rattle.cga_city.specs.Edited.{Makes, priced, told};
ghost use Rattle.cga_city.specs.Lots.{lot_place};

use crate::edited::Edited;
use crate::edits::{
    drop_rule, put, rules, set_attribute, set_lot, set_order, set_priority, unlot, whole,
};
use crate::lots::{has_symbol, lot_place};
use cga_shape::{Edit, EditRefused, Lot, Lots, Sources};
use cga_update::ChangedLots;
use cga_word::Name;
use std::alloc::Global;

// New sources with the lots that differ.
fn told(made: Result<Sources, EditRefused>, lots: ChangedLots) -> Result<Edited, EditRefused>
    ensures { result ≡ told lots made }
{
    match made {
        Ok(sources) => Ok(Edited { sources, lots }),
        Err(refused) => Err(refused),
    }
}

// The lots that another priority of a symbol changes.
fn priced(lots: &Lots, symbol: Name) -> ChangedLots
    ensures { result ≡ priced lots.now symbol }
{
    if has_symbol(lots, symbol) {
        ChangedLots::All
    } else {
        ChangedLots::Nothing
    }
}

fn with_lot(alloc: Global, sources: &Sources, lot: Lot) -> Result<Edited, EditRefused>
    ensures { Makes sources.now (Edit.SetLot lot) result }
{
    let place = lot_place(&sources.lots, lot.name);
    let come = place.unwrap_or(sources.lots.len());
    let made = set_lot(alloc, sources, lot, place);
    told(made, ChangedLots::One(place, Some(come)))
}

fn without_lot(alloc: Global, sources: &Sources, name: Name) -> Result<Edited, EditRefused>
    ensures { Makes sources.now (Edit.Unlot name) result }
{
    let place = lot_place(&sources.lots, name);
    let made = unlot(alloc, sources, name, place);
    told(made, ChangedLots::One(place, None))
}

/// The new sources, or the first refusal but for the budget. Refusals come before any copy is made, but for those of a
/// grammar that is changed by one rule.
pub(crate) fn changed_sources(
    alloc: Global,
    sources: &Sources,
    edit: Edit,
) -> Result<Edited, EditRefused>
    ensures { Makes sources.now edit result }
{
    match edit {
        Edit::Rules(grammar) => told(rules(alloc, sources, grammar), ChangedLots::All),
        Edit::Put(priority, rule) => told(put(alloc, sources, priority, rule), ChangedLots::All),
        Edit::Drop(id) => told(drop_rule(alloc, sources, id), ChangedLots::All),
        Edit::SetAttribute(name, value) => {
            let made = set_attribute(alloc, sources, name, value);
            told(made, ChangedLots::Nothing)
        }
        Edit::SetPriority(symbol, priority) => {
            let lots = priced(&sources.lots, symbol);
            told(set_priority(alloc, sources, symbol, priority), lots)
        }
        Edit::SetLot(lot) => with_lot(alloc, sources, lot),
        Edit::Unlot(name) => without_lot(alloc, sources, name),
        Edit::SetOrder(mode) => told(set_order(alloc, sources, mode), ChangedLots::All),
        Edit::Whole(other) => told(whole(alloc, sources, other), ChangedLots::All),
    }
}
