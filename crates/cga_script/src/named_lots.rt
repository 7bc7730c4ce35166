ghost use Rattle.std.specs.Prelude.{◌≡◌, ◌≤◌, [], length, take, OnOk};
ghost use Rattle.cga_script.specs.CityLines.{with_lot};
ghost use Rattle.cga_script.specs.Places.{ArePlaces};

use cga_fraction::NoMemory;
use cga_shape::Lot;
use cga_word::Name;
use std::alloc::Global;
use std::collections::BTreeMap;
use std::marker::Model;

/// The most lots that are kept: one more than a city may have, so that an edit finds them too many.
pub const KEPT_LOTS: usize = 4_097;

/// Lots in the order in which their names came. The one of a name is found with no walk over the others.
#[derive(Drop)]
pub struct NamedLots {
    lots: Vec<Lot>,
    places: BTreeMap<Name, usize>,
}

impl Model for NamedLots {
    ghost use Rattle.std.specs.Prelude.{◌≤◌, List, length};
    ghost use Rattle.cga_shape.specs.declared.lot.Lot.{Lot};
    ghost use Rattle.cga_script.specs.Places.{ArePlaces};
    ghost use Rattle.cga_script.specs.declared.named_lots.TheConstants.{KEPT_LOTS};

    ghost Value = { List Lot };

    ghost view = { λ n. n.lots.items };

    ghost invariant = { λ n. ArePlaces n.places n.lots.items × (length n.lots.items ≤ KEPT_LOTS) };
}

fn put(lots: &mut Vec<Lot>, places: &mut BTreeMap<Name, usize>, lot: Lot) -> Result<(), NoMemory>
    requires places { ArePlaces places.old lots.old.items }
    requires few { length lots.old.items ≤ KEPT_LOTS }
    ensures lots { OnOk result (lots.new.items ≡ take KEPT_LOTS (with_lot lot lots.old.items)) }
    ensures places { ArePlaces places.new lots.new.items }
    ensures few { length lots.new.items ≤ KEPT_LOTS }
{
    match places.get(&lot.name).copied() {
        Some(place) => lots[place] = lot,
        None => {
            if lots.len() < KEPT_LOTS {
                lots.reserve(1)?;
                places.insert(lot.name, lots.len())?;
                lots.push_reserved(lot);
            }
        }
    }
    Ok(())
}

impl NamedLots {
    /// Takes no memory.
    pub fn new(alloc: Global) -> NamedLots
        ensures { result ≡ [] }
    {
        NamedLots {
            lots: Vec::new(alloc),
            places: BTreeMap::new(alloc),
        }
    }

    /// Puts a lot in the place of the one of its name, or behind all others where so many aren't there yet. Takes memory.
    pub fn set(&mut self, lot: Lot) -> Result<(), NoMemory>
        ensures { OnOk result (self.new ≡ take KEPT_LOTS (with_lot lot self.old)) }
    {
        put(&mut self.lots, &mut self.places, lot)
    }

    /// Takes no memory.
    pub fn into_vec(self) -> Vec<Lot>
        ensures { result.items ≡ self }
    {
        let NamedLots { lots, places: _ } = self;
        lots
    }
}
