ghost use Rattle.std.specs.Prelude.{◌≡◌, ◌≢◌, ◌⊎◌, ◌↔◌, ◌<◌, ◌%◌, ℕ, [], Some, IsTrue, OnOk, slice_get};
ghost use Rattle.cga_queue.specs.Remembered.{IsRemembered, cell_of};

use cga_fraction::NoMemory;
use cga_index::NodeId;
use std::alloc::Global;
use std::marker::Model;

/// How many places there are. Two nodes whose numbers differ by a multiple of it share one.
const PLACES: usize = 1024;

/// Some of the nodes that are known to be on an agenda, so that they aren't put there again. A node whose place another
/// takes is forgotten, and nothing but time is lost.
#[derive(Drop)]
pub struct Remembered {
    alloc: Global,
    /// None of them before the first is remembered.
    places: Vec<Option<NodeId>>,
}

impl Model for Remembered {
    ghost use Rattle.cga_queue.specs.Remembered.{RememberedView};

    ghost Value = { RememberedView };

    ghost view = { λ n. n.places.items };
}

fn cell_of(id: NodeId) -> usize
    ensures { result ≡ cell_of id }
{
    id.number() as usize % PLACES
}

impl Remembered {
    /// Takes no memory.
    pub fn new(alloc: Global) -> Remembered
        ensures { result ≡ [] }
    {
        Remembered {
            alloc,
            places: Vec::new(alloc),
        }
    }

    pub fn has(&self, id: NodeId) -> bool
        ensures { IsTrue result ↔ IsRemembered self.now id }
    {
        match self.places.get(cell_of(id)) {
            Some(Some(other)) => other.same(id),
            _ => false,
        }
    }

    /// Takes memory for the first.
    pub fn remember(&mut self, id: NodeId) -> Result<(), NoMemory>
        ensures there { OnOk result (IsRemembered self.new id) }
        ensures only { (c : ℕ) → IsRemembered self.new c → (c ≡ id) ⊎ IsRemembered self.old c }
    {
        if self.places.len() < PLACES {
            self.places.resize(PLACES, None)?;
        }
        self.places[cell_of(id)] = Some(id);
        Ok(())
    }

    pub fn forget(&mut self, id: NodeId)
        ensures { (c : ℕ) → IsRemembered self.new c → (c ≢ id) × IsRemembered self.old c }
    {
        if let Some(place) = self.places.get_mut(cell_of(id)) {
            *place = None;
        }
    }
}
