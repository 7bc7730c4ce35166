ghost use Rattle.std.specs.Prelude.{◌≡◌, ◌↔◌, ◌<◌, ◌≤◌, ◌++◌, [], length, Contains, Some, false, IsErr, IfOk, take, min, is_ok, if◌then◌else◌};
ghost use Rattle.std.specs.Io.{ReadsAtMost};
ghost use Rattle.std.specs.Io.KnownBytes.{ReadConsumes};
ghost use Rattle.cga_outside.specs.Causes.{Gives, HasCause, IsZeroAtEnd, ended_after, risen};
ghost use Rattle.cga_outside.specs.Memory.{read_count};

use crate::failed::Failed;
use crate::source::Source;
use cga_fraction::List;
use std::marker::Model;

/// A source over bytes in memory. A read fails where its number, from 0, is one of those that it was given,
/// and otherwise gives as many bytes as are left, fit and may be given at once.
#[derive(Drop)]
pub struct MemorySource {
    bytes: List<u8>,
    taken: usize,
    most: usize,
    fails: List<u64>,
    number: u64,
    ended: bool,
    faults: u64,
}

impl Model for MemorySource {
    ghost use Rattle.std.specs.Prelude.{◌<◌, ◌≤◌, length, drop, take};
    ghost use Rattle.cga_outside.specs.Memory.{Reading};

    ghost Value = { Reading };

    ghost view = { λ s. record {
      given = take s.taken s.bytes;
      left = drop s.taken s.bytes;
      most = s.most;
      fails = s.fails;
      number = s.number;
      ended = s.ended;
      faults = s.faults;
    } };

    ghost invariant = { λ s. (s.taken ≤ length s.bytes) × (0 < s.most) };
}

impl MemorySource {
    /// A source that gives at most `most` bytes a read. Takes no memory.
    pub fn new(bytes: List<u8>, most: usize, fails: List<u64>) -> MemorySource
        requires { 0 < most }
        ensures { result ≡ record {
          given = [];
          left = bytes;
          most = most;
          fails = fails;
          number = 0;
          ended = false;
          faults = 0;
        } }
    {
        MemorySource {
            bytes,
            taken: 0,
            most,
            fails,
            number: 0,
            ended: false,
            faults: 0,
        }
    }
}

// Copies as many bytes as there are, may be given and fit.
fn copy_some(bytes: &[u8], most: usize, buf: &mut [u8]) -> usize
    ensures count { result ≡ min (min (length bytes.now) most) (length buf.old) }
    ensures bytes { take result buf.new ≡ take result bytes.now }
{
    let count = bytes.len().min(most).min(buf.len());
    buf[..count].copy_from_slice(&bytes[..count]);
    count
}

impl Source for MemorySource {
    ghost given = { λ s. s.given };

    ghost left = { λ s. Some s.left };

    ghost ended = { λ s. s.ended };

    ghost faults = { λ s. s.faults };

    fn read(&mut self, buf: &mut [u8]) -> Result<usize, Failed>
        ensures bound { ReadsAtMost result buf.new }
        ensures gave { Gives self.old.given self.new.given result buf.new }
        ensures bytes { ReadConsumes (Some self.old.left) (Some self.new.left) result buf.new }
        ensures end { IsZeroAtEnd (Some self.old.left) result buf.new }
        ensures mark { self.new.ended ≡ ended_after self.old.ended result buf.new }
        ensures cause { HasCause self.old.faults self.new.faults result }
        ensures fails { IsErr result ↔ Contains self.old.fails self.old.number }
        ensures faults { self.new.faults ≡
            (if is_ok result then self.old.faults else risen self.old.faults) }
        ensures count { IfOk result (λ n. n ≡ read_count self.old buf.old) }
        ensures number { self.new.number ≡ risen self.old.number }
        ensures same { (self.new.fails ≡ self.old.fails) × (self.new.most ≡ self.old.most) }
        ensures whole { self.new.given ++ self.new.left ≡ self.old.given ++ self.old.left }
    {
        let number = self.number;
        self.number = self.number.saturating_add(1);
        if self.fails.as_slice().contains(&number) {
            self.faults = self.faults.saturating_add(1);
            return Err(Failed);
        }
        let count = copy_some(&self.bytes.as_slice()[self.taken..], self.most, buf);
        self.taken += count;
        if count == 0 && !buf.is_empty() {
            self.ended = true;
        }
        Ok(count)
    }
}
