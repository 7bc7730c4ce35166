ghost use Rattle.std.specs.Prelude.{true, false, ◌≢◌, ◌≡◌, ◌+◌, ℕ, OnOk, IsSome, [], Some, None, not, option_copied, option_map, option_and_then};
ghost use Rattle.cga_marked.specs.Count.{tally};
ghost use Rattle.cga_marked.specs.Sorts.{is_first, is_second, sorted};
ghost use Rattle.cga_marked.specs.Slab.{SlabView, at, HasRoom, KeepsRoom, Relates, passes, touch_when};

use crate::change::Change;
use crate::counted_slab::CountedSlab;
use crate::entries::{give_back, roll_back_listed, settle_listed};
use crate::marked::Marked;
use cga_fraction::NoMemory;
use std::alloc::Global;
use std::marker::Model;

/// Entries under numbers, with a list of those that the mark's end has to look at.
#[derive(Drop)]
pub struct MarkedSlab<E: Marked> {
    entries: CountedSlab<E>,
    touched: Vec<usize>,
    aside: usize,
}

impl<E: Marked> Model for MarkedSlab<E> {
    ghost use Rattle.cga_marked.specs.Slab.{SlabView, IsStore};

    ghost Value = { SlabView E };

    ghost view = { λ s. record { slots = s.entries.slots; capacity = s.entries.capacity; listable = s.touched.cap } };

    ghost invariant = { λ s. IsStore E.touched E.aside E.plain s.entries.slots s.touched.items s.touched.cap s.aside };
}

impl<E: Marked> MarkedSlab<E> {
    pub fn new(alloc: Global) -> Self
        ensures { result.slots ≡ [] }
    {
        MarkedSlab {
            entries: CountedSlab::new(alloc),
            touched: Vec::new(alloc),
            aside: 0,
        }
    }

    pub fn get(&self, id: usize) -> Option<&E>
        ensures { option_copied result ≡ at self.now id }
    {
        self.entries.get(id)
    }

    pub fn entry(&self, id: usize) -> &E
        requires here { IsSome (at self.now id) }
        ensures { at self.now id ≡ Some result.now }
    {
        self.entries.entry(id)
    }

    /// How many entries aren't set aside.
    pub fn shown(&self) -> usize
        ensures { result ≡ tally (passes (λ e. not (E.aside e))) self.now.slots }
    {
        self.entries.len() - self.aside
    }

    /// How many entries there are of the first sort.
    pub fn first(&self) -> usize
        ensures { result ≡ sorted is_first E.counts self.now.slots }
    {
        self.entries.first()
    }

    pub fn second(&self) -> usize
        ensures { result ≡ sorted is_second E.counts self.now.slots }
    {
        self.entries.second()
    }

    /// Takes memory.
    pub fn reserve(&mut self, more: usize) -> Result<(), NoMemory>
        ensures slots { self.new.slots ≡ self.old.slots }
        ensures room { OnOk result (HasRoom self.new more) }
    {
        self.entries.reserve(more)?;
        let wanted = self.entries.capacity() - self.touched.len();
        self.touched.reserve(wanted)?;
        Ok(())
    }

    /// Adds an entry, for which there is room. It is touched if and only if a mark stands.
    pub fn add(&mut self, marking: bool, entry: E) -> usize
        requires room { HasRoom self.old 1 }
        requires touched { E.touched entry ≡ marking }
        requires shown { E.aside entry ≡ false }
        requires plain { marking ≡ false → E.plain entry }
        ensures vacant { at self.old result ≡ None }
        ensures here { at self.new result ≡ Some entry }
        ensures others { (c : ℕ) → c ≢ result → at self.new c ≡ at self.old c }
        ensures room { (more : ℕ) → HasRoom self.old (more + 1) → HasRoom self.new more }
    {
        let id = self.entries.insert_reserved(entry);
        if marking {
            self.touched.push_reserved(id);
        }
        id
    }

    /// Puts an entry on the list.
    fn touch(&mut self, id: usize)
        ensures here { at self.new id ≡ option_map E.touching (at self.old id) }
        ensures others { (c : ℕ) → c ≢ id → at self.new c ≡ at self.old c }
        ensures room { KeepsRoom self.old self.new }
    {
        if self.entries.touch(id) {
            self.touched.push_reserved(id);
        }
    }

    /// Sets an entry aside.
    pub fn set_aside(&mut self, id: usize)
        ensures here { at self.new id ≡ option_map (λ e. E.hiding (E.touching e)) (at self.old id) }
        ensures others { (c : ℕ) → c ≢ id → at self.new c ≡ at self.old c }
        ensures room { KeepsRoom self.old self.new }
    {
        self.touch(id);
        if self.entries.hide(id) {
            self.aside += 1;
        }
    }

    /// Puts an entry on the list where a mark stands.
    fn touch_for(&mut self, id: usize, marking: bool)
        ensures here { at self.new id ≡ touch_when E.touching marking (at self.old id) }
        ensures others { (c : ℕ) → c ≢ id → at self.new c ≡ at self.old c }
        ensures room { KeepsRoom self.old self.new }
    {
        if marking {
            self.touch(id);
        }
    }

    /// Changes an entry, if one is there, and touches it where a mark stands.
    pub fn change<C: Change<E>>(&mut self, id: usize, marking: bool, change: C)
        ensures here { Relates (C.changes marking change) (touch_when E.touching marking (at self.old id)) (at self.new id) }
        ensures others { (c : ℕ) → c ≢ id → at self.new c ≡ at self.old c }
        ensures room { KeepsRoom self.old self.new }
    {
        self.touch_for(id, marking);
        self.entries.change(id, marking, change);
    }

    /// Drops what is set aside, and what is kept for the mark. Room that is empty then may be given back.
    pub fn settle(&mut self)
        ensures { (c : ℕ) → at self.new c ≡ option_and_then E.settled (at self.old c) }
    {
        settle_listed(&mut self.entries, self.touched.as_slice());
        give_back(&mut self.entries, self.touched.len());
        self.touched.clear();
        self.aside = 0;
    }

    /// Puts the marked entries back. The same of room.
    pub fn roll_back(&mut self)
        ensures { (c : ℕ) → at self.new c ≡ option_and_then E.rolled (at self.old c) }
    {
        roll_back_listed(&mut self.entries, self.touched.as_slice());
        give_back(&mut self.entries, self.touched.len());
        self.touched.clear();
        self.aside = 0;
    }
}
