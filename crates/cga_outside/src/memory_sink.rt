ghost use Rattle.std.specs.Prelude.{◌≡◌, ◌↔◌, ◌<◌, ◌⊎◌, [], length, Contains, Some, false, IsErr, IfOk, is_ok, if◌then◌else◌};
ghost use Rattle.std.specs.Io.{WritesAtMost};
ghost use Rattle.std.specs.Io.KnownBytes.{WriteAppends, Keeps};
ghost use Rattle.cga_outside.specs.Causes.{HasCause, flushed_after, risen};
ghost use Rattle.cga_outside.specs.Memory.{IsFull, write_count};

use crate::failed::Failed;
use crate::sink::Sink;
use cga_fraction::{List, NoMemory};
use std::alloc::Global;
use std::marker::Model;

/// A sink in memory with bounded room. A call, of write or flush, fails where its number, from 0, is one of
/// those that it was given, or where a write finds no room for any byte.
#[derive(Drop)]
pub struct MemorySink {
    held: Vec<u8>,
    room: usize,
    fails: List<u64>,
    number: u64,
    flushed: bool,
    faults: u64,
}

impl Model for MemorySink {
    ghost use Rattle.std.specs.Prelude.{◌≤◌, vec_len, vec_capacity};
    ghost use Rattle.cga_outside.specs.Memory.{Writing};

    ghost Value = { Writing };

    ghost view = { λ s. record {
      held = s.held.items;
      room = s.room;
      fails = s.fails;
      number = s.number;
      flushed = s.flushed;
      faults = s.faults;
    } };

    ghost invariant = { λ s. (s.room ≤ vec_capacity s.held) × (vec_len s.held ≤ s.room) };
}

impl MemorySink {
    /// An empty sink with room for so many bytes. Takes memory for all of them.
    pub fn new(alloc: Global, room: usize, fails: List<u64>) -> Result<MemorySink, NoMemory>
        ensures { IfOk result (λ sink. sink ≡ record {
          held = [];
          room = room;
          fails = fails;
          number = 0;
          flushed = false;
          faults = 0;
        }) }
    {
        let held = Vec::with_capacity(alloc, room)?;
        Ok(MemorySink {
            held,
            room,
            fails,
            number: 0,
            flushed: false,
            faults: 0,
        })
    }

    /// The bytes taken so far.
    pub fn held(&self) -> &[u8]
        ensures { result.now ≡ self.now.held }
    {
        self.held.as_slice()
    }
}

impl Sink for MemorySink {
    ghost held = { λ s. Some s.held };

    ghost flushed = { λ s. s.flushed };

    ghost faults = { λ s. s.faults };

    fn write(&mut self, piece: &[u8]) -> Result<usize, Failed>
        ensures within { WritesAtMost result piece.now }
        ensures some { IfOk result (λ n. 0 < length piece.now → 0 < n) }
        ensures bytes { WriteAppends (Some self.old.held) (Some self.new.held) result piece.now }
        ensures mark { self.new.flushed ≡ flushed_after self.old.flushed piece.now }
        ensures cause { HasCause self.old.faults self.new.faults result }
        ensures fails { IsErr result ↔
            (Contains self.old.fails self.old.number ⊎ IsFull self.old piece.now) }
        ensures faults { self.new.faults ≡
            (if is_ok result then self.old.faults else risen self.old.faults) }
        ensures count { IfOk result (λ n. n ≡ write_count self.old piece.now) }
        ensures number { self.new.number ≡ risen self.old.number }
        ensures same { (self.new.fails ≡ self.old.fails) × (self.new.room ≡ self.old.room) }
    {
        let number = self.number;
        self.number = self.number.saturating_add(1);
        if !piece.is_empty() {
            self.flushed = false;
        }
        let free = self.room - self.held.len();
        if self.fails.as_slice().contains(&number) || (!piece.is_empty() && free == 0) {
            self.faults = self.faults.saturating_add(1);
            return Err(Failed);
        }
        let count = piece.len().min(free);
        match self.held.extend_from_slice(&piece[..count]) {
            Ok(()) => Ok(count),
            Err(_) => unreachable!(),
        }
    }

    fn flush(&mut self) -> Result<(), Failed>
        ensures mark { self.new.flushed ≡ is_ok result }
        ensures bytes { Keeps (Some self.old.held) (Some self.new.held) }
        ensures cause { HasCause self.old.faults self.new.faults result }
        ensures fails { IsErr result ↔ Contains self.old.fails self.old.number }
        ensures faults { self.new.faults ≡
            (if is_ok result then self.old.faults else risen self.old.faults) }
        ensures number { self.new.number ≡ risen self.old.number }
        ensures same { (self.new.fails ≡ self.old.fails) × (self.new.room ≡ self.old.room) }
    {
        let number = self.number;
        self.number = self.number.saturating_add(1);
        self.flushed = !self.fails.as_slice().contains(&number);
        if self.flushed {
            return Ok(());
        }
        self.faults = self.faults.saturating_add(1);
        Err(Failed)
    }
}
