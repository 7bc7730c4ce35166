ghost use Rattle.std.specs.Prelude.{◌≡◌, ◌≢◌, ◌<◌, ◌≤◌, ◌+◌, ◌*◌, ◌/◌, ◌^◌, ℕ, length, slice_get, true, false};
ghost use Rattle.cga_kept_hulls.specs.declared.hulls.Hulls.{Hulls};
ghost use Rattle.cga_kept_hulls.specs.Blocks.{HoldsKnown, IsEmptied, IsGathered, IsHeld, IsIn, IsLeast, StaysHeld, StaysIn, block_holds, is_loose};

use crate::hulls::Hulls;
use crate::level::{Level, PLACES};
use cga_fraction::NoMemory;
use std::alloc::Global;

/// Hulls over the roots, for a block of places of their list at a time, and for a group of blocks, so that a question
/// needn't look at each root.
#[derive(Drop)]
pub struct Blocks {
    pub blocks: Level,
    pub groups: Level,
    /// Which blocks took hulls in since they were last made.
    loose: Vec<bool>,
}

impl Blocks {
    pub fn new(alloc: Global) -> Blocks {
        Blocks {
            blocks: Level::new(alloc),
            groups: Level::new(alloc),
            loose: Vec::new(alloc),
        }
    }

    /// Makes a block with these hulls for one more root, and a group, where so many fill those that are there. Takes memory.
    pub fn make_room(&mut self, roots: usize, hulls: &Hulls) -> Result<(), NoMemory>
        ensures { (place : ℕ) (h : Hulls) → place < roots → IsHeld self.old place h → IsHeld self.new place h }
    {
        self.blocks.make_room(roots, hulls)?;
        if roots % PLACES == 0 {
            self.groups.make_room(roots / PLACES, hulls)?;
        }
        if roots / PLACES >= self.loose.len() {
            self.loose.push(false)?;
        }
        Ok(())
    }

    /// Takes hulls into the block of a place and into its group, if they are there.
    pub fn join(&mut self, place: usize, hulls: &Hulls)
        ensures here { IsHeld self.new place hulls.now }
        ensures kept { StaysHeld self.old self.new }
        ensures loose { place / PLACES < length self.old.loose.items → is_loose self.new (place / PLACES) ≡ true }
    {
        self.blocks.join(place, hulls);
        self.groups.join(place / PLACES, hulls);
        let block = place / PLACES;
        if block < self.loose.len() {
            self.loose[block] = true;
        }
    }

    /// Whether a block is there for each of so many roots.
    pub fn reaches(&self, roots: usize) -> bool
        ensures there { result ≡ true → (place : ℕ) → place < roots → place / PLACES < length self.now.blocks.hulls.items }
        ensures lacking { result ≡ false → (place : ℕ) × (place < roots) × (length self.now.blocks.hulls.items ≤ place / PLACES) }
    {
        roots == 0 || self.blocks.has(roots - 1)
    }

    /// Whether a block took hulls in since the blocks were last at rest.
    pub fn is_loose(&self, block: usize) -> bool
        ensures { result ≡ is_loose self.now block }
    {
        match self.loose.get(block) {
            Some(loose) => *loose,
            None => false,
        }
    }

    /// Empties a block, if it is there.
    pub fn empty(&mut self, block: usize)
        ensures others { (place : ℕ) (h : Hulls) → place / PLACES ≢ block → IsHeld self.old place h → IsHeld self.new place h }
        ensures emptied { IsEmptied self.old.blocks.hulls.items self.new.blocks.hulls.items block }
        ensures groups { self.new.groups ≡ self.old.groups }
        ensures loose { self.new.loose ≡ self.old.loose }
    {
        self.blocks.empty(block);
    }

    /// Takes what a block holds into its group.
    fn gather_block(&mut self, block: usize)
        ensures blocks { self.new.blocks ≡ self.old.blocks }
        ensures kept { StaysIn self.old.groups.hulls.items self.new.groups.hulls.items }
        ensures here { (h : Hulls) → block < length self.old.blocks.hulls.items → block_holds (slice_get self.old.blocks.hulls.items block) h ≡ true → IsIn self.new.groups.hulls.items block h }
        ensures known { HoldsKnown (slice_get self.new.groups.hulls.items (block / PLACES)) (slice_get self.old.blocks.hulls.items block) }
        ensures least { IsLeast (slice_get self.old.groups.hulls.items (block / PLACES)) (slice_get self.old.blocks.hulls.items block) (slice_get self.new.groups.hulls.items (block / PLACES)) }
        ensures others { (group : ℕ) → group ≢ block / PLACES → slice_get self.new.groups.hulls.items group ≡ slice_get self.old.groups.hulls.items group }
        ensures count { length self.new.groups.hulls.items ≡ length self.old.groups.hulls.items }
        ensures loose { self.new.loose ≡ self.old.loose }
    {
        if let Some(hulls) = self.blocks.hulls(block) {
            self.groups.join(block, &hulls);
        }
    }

    /// Makes a group again, of its blocks.
    pub fn gather(&mut self, group: usize)
        requires { PLACES * group + PLACES < 2 ^ 64 }
        ensures kept { (place : ℕ) (h : Hulls) → place / PLACES < length self.old.blocks.hulls.items → IsHeld self.old place h → IsHeld self.new place h }
        ensures gathered { IsGathered self.old.blocks.hulls.items group (slice_get self.new.groups.hulls.items group) }
        ensures others { (other : ℕ) → other ≢ group → slice_get self.new.groups.hulls.items other ≡ slice_get self.old.groups.hulls.items other }
        ensures count { length self.new.groups.hulls.items ≡ length self.old.groups.hulls.items }
        ensures blocks { self.new.blocks ≡ self.old.blocks }
        ensures loose { self.new.loose ≡ self.old.loose }
    {
        self.groups.empty(group);
        for block in PLACES * group..PLACES * group + PLACES {
            self.gather_block(block);
        }
    }

    /// Forgets which blocks took hulls in.
    pub fn rest(&mut self)
        ensures kept { StaysHeld self.old self.new }
        ensures rested { (block : ℕ) → is_loose self.new block ≡ false }
        ensures blocks { self.new.blocks ≡ self.old.blocks }
        ensures groups { self.new.groups ≡ self.old.groups }
        ensures count { length self.new.loose.items ≡ length self.old.loose.items }
    {
        for block in 0..self.loose.len() {
            self.loose[block] = false;
        }
    }

    /// Empties them all.
    pub fn clear(&mut self) {
        self.blocks.clear();
        self.groups.clear();
    }
}
