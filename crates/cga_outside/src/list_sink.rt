ghost use Rattle.std.specs.Prelude.{◌≡◌, ◌<◌, [], Some, false, length, IfOk, IsOk, is_ok, if◌then◌else◌};
ghost use Rattle.std.specs.Io.{WritesAtMost};
ghost use Rattle.std.specs.Io.KnownBytes.{WriteAppends, Keeps};
ghost use Rattle.cga_outside.specs.Causes.{HasCause, flushed_after, risen};

use crate::failed::Failed;
use crate::sink::Sink;
use cga_fraction::List;
use std::alloc::Global;

/// A sink in memory that grows. Want of memory counts as a fault.
#[derive(Drop)]
pub struct ListSink {
    bytes: Vec<u8>,
    flushed: bool,
    faults: u64,
}

impl ListSink {
    /// An empty sink. Takes no memory.
    pub fn new(alloc: Global) -> ListSink
        ensures bytes { result.bytes.items ≡ [] }
        ensures unflushed { result.flushed ≡ false }
        ensures faults { result.faults ≡ 0 }
    {
        ListSink {
            bytes: Vec::new(alloc),
            flushed: false,
            faults: 0,
        }
    }

    /// All that it took.
    pub fn into_list(self) -> List<u8>
        ensures { result ≡ self.bytes.items }
    {
        List::from_vec(self.bytes)
    }
}

impl Sink for ListSink {
    ghost held = { λ s. Some s.bytes.items };

    ghost flushed = { λ s. s.flushed };

    ghost faults = { λ s. s.faults };

    fn write(&mut self, piece: &[u8]) -> Result<usize, Failed>
        ensures within { WritesAtMost result piece.now }
        ensures some { IfOk result (λ n. 0 < length piece.now → 0 < n) }
        ensures bytes { WriteAppends (Some self.old.bytes.items) (Some self.new.bytes.items) result piece.now }
        ensures mark { self.new.flushed ≡ flushed_after self.old.flushed piece.now }
        ensures cause { HasCause self.old.faults self.new.faults result }
        ensures faults { self.new.faults ≡
            (if is_ok result then self.old.faults else risen self.old.faults) }
    {
        if !piece.is_empty() {
            self.flushed = false;
        }
        match self.bytes.extend_from_slice(piece) {
            Ok(()) => Ok(piece.len()),
            Err(_) => {
                self.faults = self.faults.saturating_add(1);
                Err(Failed)
            }
        }
    }

    fn flush(&mut self) -> Result<(), Failed>
        ensures mark { self.new.flushed ≡ is_ok result }
        ensures bytes { Keeps (Some self.old.bytes.items) (Some self.new.bytes.items) }
        ensures cause { HasCause self.old.faults self.new.faults result }
        ensures never { IsOk result }
    {
        self.flushed = true;
        Ok(())
    }
}
