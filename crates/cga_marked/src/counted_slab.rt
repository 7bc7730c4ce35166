ghost use Rattle.std.specs.Prelude.{true, ◌≢◌, ◌≡◌, ◌+◌, ◌≤◌, ℕ, OnOk, IsSome, [], None, Some, not, option_copied, option_map, option_and_then};
ghost use Rattle.slab.specs.Slab.{HasRoomFor, Updates, get, slab_len};
ghost use Rattle.cga_marked.specs.Marked.{KeepsBooks};
ghost use Rattle.cga_marked.specs.Slab.{OnlyTouched, Relates, passes};
ghost use Rattle.cga_marked.specs.Sorts.{is_first, is_second, sorted};

use crate::change::Change;
use crate::entries::{change_entry, hide_entry, roll_back_entry, settle_entry, touch_entry};
use crate::marked::Marked;
use crate::numbers::{Numbers, recounted, sort_at};
use crate::sort::Sort;
use slab::Slab;
use std::alloc::{AllocError, Global};
use std::marker::Model;

/// Entries under numbers, with how many there are of each sort.
#[derive(Drop)]
pub struct CountedSlab<E: Marked> {
    entries: Slab<E>,
    numbers: Numbers,
}

impl<E: Marked> Model for CountedSlab<E> {
    ghost use Rattle.slab.specs.Slab.{Slab as Slots};
    ghost use Rattle.cga_marked.specs.Sorts.{AreOf};

    ghost Value = { Slots E };

    ghost view = { λ s. s.entries };

    ghost invariant = { λ s. AreOf E.counts s.entries.slots s.numbers };
}

impl<E: Marked> CountedSlab<E> {
    pub fn new(alloc: Global) -> Self
        ensures { result.slots ≡ [] }
    {
        CountedSlab {
            entries: Slab::new(alloc),
            numbers: Numbers {
                first: 0,
                second: 0,
            },
        }
    }

    pub fn get(&self, id: usize) -> Option<&E>
        ensures { option_copied result ≡ get self.now id }
    {
        self.entries.get(id)
    }

    pub fn entry(&self, id: usize) -> &E
        requires here { IsSome (get self.now id) }
        ensures { get self.now id ≡ Some result.now }
    {
        &self.entries[id]
    }

    pub fn len(&self) -> usize
        ensures { result ≡ slab_len self.now }
    {
        self.entries.len()
    }

    pub fn capacity(&self) -> usize
        ensures value { result ≡ self.now.capacity }
        ensures holds_all { slab_len self.now ≤ result }
    {
        self.entries.capacity()
    }

    /// How many entries there are of the first sort.
    pub fn first(&self) -> usize
        ensures { result ≡ sorted is_first E.counts self.now.slots }
    {
        self.numbers.first
    }

    pub fn second(&self) -> usize
        ensures { result ≡ sorted is_second E.counts self.now.slots }
    {
        self.numbers.second
    }

    /// Takes memory.
    pub fn reserve(&mut self, more: usize) -> Result<(), AllocError>
        ensures room { OnOk result (HasRoomFor self.new more) }
        ensures capacity { self.old.capacity ≤ self.new.capacity }
        ensures rest_kept { self.new ≡ record self.old { capacity = self.new.capacity } }
    {
        self.entries.reserve(more)
    }

    /// Gives back the room behind the last entry. No number changes. It takes time for each number that was given out.
    pub fn shrink(&mut self)
        ensures { (c : ℕ) → get self.new c ≡ get self.old c }
    {
        self.entries.shrink_to_fit();
    }

    /// Adds an entry, for which there is room.
    pub fn insert_reserved(&mut self, entry: E) -> usize
        requires { HasRoomFor self.old 1 }
        ensures was_vacant { get self.old result ≡ None }
        ensures updates { Updates self.old self.new result (Some entry) }
        ensures capacity { self.new.capacity ≡ self.old.capacity }
    {
        let id = self.entries.insert_reserved(entry);
        self.numbers = recounted(self.numbers, Sort::Other, &self.entries, id);
        id
    }

    /// Marks an entry as touched. True where it wasn't.
    pub fn touch(&mut self, id: usize) -> bool
        ensures here { get self.new id ≡ option_map E.touching (get self.old id) }
        ensures others { (c : ℕ) → c ≢ id → get self.new c ≡ get self.old c }
        ensures fresh { result ≡ passes (λ e. not (E.touched e)) (get self.old id) }
        ensures capacity { self.new.capacity ≡ self.old.capacity }
    {
        let was = sort_at(&self.entries, id);
        let fresh = touch_entry(&mut self.entries, id);
        self.numbers = recounted(self.numbers, was, &self.entries, id);
        fresh
    }

    /// Sets an entry aside. True where it wasn't.
    pub fn hide(&mut self, id: usize) -> bool
        ensures here { get self.new id ≡ option_map E.hiding (get self.old id) }
        ensures others { (c : ℕ) → c ≢ id → get self.new c ≡ get self.old c }
        ensures fresh { result ≡ passes (λ e. not (E.aside e)) (get self.old id) }
        ensures capacity { self.new.capacity ≡ self.old.capacity }
    {
        let was = sort_at(&self.entries, id);
        let fresh = hide_entry(&mut self.entries, id);
        self.numbers = recounted(self.numbers, was, &self.entries, id);
        fresh
    }

    /// Changes an entry, which is touched where a mark stands.
    pub fn change<C: Change<E>>(&mut self, id: usize, marking: bool, change: C)
        requires touched { marking ≡ true → OnlyTouched E.touched (get self.old id) }
        ensures here { Relates (C.changes marking change) (get self.old id) (get self.new id) }
        ensures others { (c : ℕ) → c ≢ id → get self.new c ≡ get self.old c }
        ensures books { Relates (KeepsBooks E.touched E.aside E.plain) (get self.old id) (get self.new id) }
        ensures capacity { self.new.capacity ≡ self.old.capacity }
    {
        let was = sort_at(&self.entries, id);
        change_entry(&mut self.entries, id, marking, change);
        self.numbers = recounted(self.numbers, was, &self.entries, id);
    }

    /// Drops what an entry keeps for the mark, or the entry if it is set aside.
    pub fn settle(&mut self, id: usize)
        ensures here { get self.new id ≡ option_and_then E.settled (get self.old id) }
        ensures others { (c : ℕ) → c ≢ id → get self.new c ≡ get self.old c }
        ensures capacity { self.new.capacity ≡ self.old.capacity }
    {
        let was = sort_at(&self.entries, id);
        settle_entry(&mut self.entries, id);
        self.numbers = recounted(self.numbers, was, &self.entries, id);
    }

    /// Puts an entry back as it was at the mark, or drops it if it came since.
    pub fn roll_back(&mut self, id: usize)
        ensures here { get self.new id ≡ option_and_then E.rolled (get self.old id) }
        ensures others { (c : ℕ) → c ≢ id → get self.new c ≡ get self.old c }
        ensures capacity { self.new.capacity ≡ self.old.capacity }
    {
        let was = sort_at(&self.entries, id);
        roll_back_entry(&mut self.entries, id);
        self.numbers = recounted(self.numbers, was, &self.entries, id);
    }
}
