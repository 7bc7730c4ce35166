ghost use Rattle.std.specs.Prelude.{◌≡◌, ◌↔◌, [], suc, length, IfSome, IfNone, OnOk};
ghost use Rattle.cga_order.specs.Chain.{IsWhole};
ghost use Rattle.cga_order.specs.Seen.{chain_of};
ghost use Rattle.cga_order.specs.Key.{chain_of_key};
ghost use Rattle.cga_queue.specs.Agenda.{IsPopped, IsPut, NamesNone};

use crate::lines::{put_in, take_out};
use cga_fraction::NoMemory;
use cga_index::NodeId;
use cga_order::{Chain, StampKey};
use cga_word::Mode;
use std::alloc::Global;
use std::collections::{BTreeMap, VecDeque};
use std::marker::Model;

/// Numbers of nodes by the stamps at which they are to be looked at.
#[derive(Drop)]
pub struct Agenda {
    alloc: Global,
    mode: Mode,
    entries: BTreeMap<StampKey, NodeId>,
    /// What came behind all that was there, as nearly everything does in the mode Breadth.
    late: VecDeque<(StampKey, NodeId)>,
}

impl Model for Agenda {
    ghost use Rattle.cga_order.specs.Key.{key_cmp};
    ghost use Rattle.cga_queue.specs.Agenda.{AgendaView, OfOneMode};
    ghost use Rattle.cga_queue.specs.Lines.{Rises, counted};

    ghost Value = { AgendaView };

    ghost view = { λ a. record { mode = a.mode; entries = counted key_cmp a.entries.entries a.late.items } };

    ghost invariant = { λ a. OfOneMode a.mode a.entries.entries × OfOneMode a.mode a.late.items × Rises key_cmp a.late.items };
}

impl Agenda {
    /// One with nothing on it, for stamps of this mode. Takes no memory.
    pub fn new(alloc: Global, mode: Mode) -> Agenda
        ensures { result ≡ record { mode = mode; entries = [] } }
    {
        Agenda {
            alloc,
            mode,
            entries: BTreeMap::new(alloc),
            late: VecDeque::new(alloc),
        }
    }

    pub fn mode(&self) -> Mode
        ensures { result ≡ self.now.mode }
    {
        self.mode
    }

    pub fn alloc(&self) -> Global {
        self.alloc
    }

    /// How many entries it keeps. Two of them may be of one stamp.
    pub fn len(&self) -> usize
        ensures none { (result ≡ 0) ↔ (self.now.entries ≡ []) }
    {
        self.entries.len().saturating_add(self.late.len())
    }

    /// Puts a number on it, at the stamp of a chain. Takes memory for the key.
    pub fn put(&mut self, chain: &Chain, id: NodeId) -> Result<(), NoMemory>
        requires whole { IsWhole (chain_of chain.now) }
        ensures put { OnOk result (IsPut self.old self.new (chain_of chain.now) id) }
    {
        let key = StampKey::of(self.alloc, self.mode, chain)?;
        put_in(&mut self.entries, &mut self.late, key, id)
    }

    /// Takes the number of least stamp off it. None where there is none.
    pub fn pop(&mut self) -> Option<(StampKey, NodeId)>
        ensures popped { IfSome result (λ p. IsPopped self.old self.new (chain_of_key p.0) p.1) }
        ensures none { IfNone result (NamesNone self.old) }
        ensures same { IfNone result (self.new ≡ self.old) }
        ensures shorter { IfSome result (λ p. length self.old.entries ≡ suc (length self.new.entries)) }
    {
        take_out(&mut self.entries, &mut self.late)
    }
}
