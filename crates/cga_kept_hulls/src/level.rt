ghost use Rattle.std.specs.Prelude.{◌≡◌, ◌≢◌, ◌<◌, ◌/◌, ◌↔◌, IsTrue, OnErr, OnOk, ℕ, Some, length, slice_get, true};
ghost use Rattle.cga_kept_hulls.specs.declared.hulls.Hulls.{Hulls};
ghost use Rattle.cga_kept_hulls.specs.Blocks.{HasRoom, IsEmptied, IsIn, IsLeast, StaysIn, block_asks, block_holds, block_touches, known_asks, known_hulls, known_touches};

use crate::hulls::Hulls;
use cga_fraction::NoMemory;
use cga_frame::WorldBox;
use std::alloc::Global;

/// The places of an entry: the roots of a block, and the blocks of a group.
pub const PLACES: usize = 16;

/// Hulls over a list, one entry for so many places in a row. An entry holds the hulls at its places and needn't be the
/// least; of one that isn't there nothing is known.
#[derive(Drop)]
pub struct Level {
    hulls: Vec<Option<Hulls>>,
}

impl Level {
    pub fn new(alloc: Global) -> Level {
        Level {
            hulls: Vec::new(alloc),
        }
    }

    /// Makes an entry with these hulls for one more place, where so many fill those that are there. Takes memory.
    pub fn make_room(&mut self, places: usize, hulls: &Hulls) -> Result<(), NoMemory>
        ensures kept { (place : ℕ) (h : Hulls) → place < places → IsIn self.old.hulls.items place h → IsIn self.new.hulls.items place h }
        ensures room { OnOk result (HasRoom self.old.hulls.items self.new.hulls.items places hulls.now) }
        ensures err { OnErr result (self.new.hulls.items ≡ self.old.hulls.items) }
    {
        if places % PLACES == 0 && places / PLACES == self.hulls.len() {
            self.hulls.reserve(1)?;
            self.hulls.push_reserved(Some(*hulls));
        }
        Ok(())
    }

    /// Takes hulls into the entry of a place, if it is there.
    pub fn join(&mut self, place: usize, hulls: &Hulls)
        ensures here { IsIn self.new.hulls.items place hulls.now }
        ensures kept { StaysIn self.old.hulls.items self.new.hulls.items }
        ensures least { IsLeast (slice_get self.old.hulls.items (place / PLACES)) (Some (Some hulls.now)) (slice_get self.new.hulls.items (place / PLACES)) }
        ensures others { (entry : ℕ) → entry ≢ place / PLACES → slice_get self.new.hulls.items entry ≡ slice_get self.old.hulls.items entry }
        ensures count { length self.new.hulls.items ≡ length self.old.hulls.items }
    {
        let entry = place / PLACES;
        if entry >= self.hulls.len() {
            return;
        }
        if holds(&self.hulls[entry], hulls) {
            return;
        }
        let wider = hulls.with(&self.hulls[entry]);
        self.hulls[entry] = Some(wider);
    }

    /// Whether an entry is there for a place.
    pub fn has(&self, place: usize) -> bool
        ensures { IsTrue result ↔ (place / PLACES < length self.now.hulls.items) }
    {
        place / PLACES < self.hulls.len()
    }

    /// The hulls of an entry, if it is there and holds some.
    pub fn hulls(&self, entry: usize) -> Option<Hulls>
        ensures { result ≡ known_hulls (slice_get self.now.hulls.items entry) }
    {
        match self.hulls.get(entry) {
            Some(known) => *known,
            None => None,
        }
    }

    /// Empties an entry, if it is there.
    #[tactic(auto, using(crate::proofs::Held::emptied_there, crate::proofs::Held::emptied_past))]
    pub fn empty(&mut self, entry: usize)
        ensures others { (place : ℕ) (h : Hulls) → place / PLACES ≢ entry → IsIn self.old.hulls.items place h → IsIn self.new.hulls.items place h }
        ensures emptied { IsEmptied self.old.hulls.items self.new.hulls.items entry }
    {
        if entry < self.hulls.len() {
            self.hulls[entry] = None;
        }
    }

    /// Empties them all.
    pub fn clear(&mut self) {
        for entry in 0..self.hulls.len() {
            self.hulls[entry] = None;
        }
    }

    /// Whether the hulls of an entry touch the area.
    pub fn touches(&self, entry: usize, area: &WorldBox) -> bool
        ensures { result ≡ block_touches (slice_get self.now.hulls.items entry) area.now }
    {
        match self.hulls.get(entry) {
            Some(known) => touches(known, area),
            None => true,
        }
    }

    /// Whether those of who asks do.
    pub fn asks(&self, entry: usize, area: &WorldBox) -> bool
        ensures { result ≡ block_asks (slice_get self.now.hulls.items entry) area.now }
    {
        match self.hulls.get(entry) {
            Some(known) => asks(known, area),
            None => true,
        }
    }
}

fn holds(known: &Option<Hulls>, hulls: &Hulls) -> bool
    ensures { result ≡ block_holds (Some known.now) hulls.now }
{
    match known {
        Some(known) => known.holds(hulls),
        None => false,
    }
}

fn touches(known: &Option<Hulls>, area: &WorldBox) -> bool
    ensures { result ≡ known_touches known.now area.now }
{
    match known {
        Some(hulls) => hulls.all.touches(area),
        None => false,
    }
}

fn asks(known: &Option<Hulls>, area: &WorldBox) -> bool
    ensures { result ≡ known_asks known.now area.now }
{
    match known {
        Some(hulls) => match &hulls.asking {
            Some(asking) => asking.touches(area),
            None => false,
        },
        None => false,
    }
}
