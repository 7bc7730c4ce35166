ghost use Rattle.std.specs.Prelude.{◌≡◌, ◌<◌, List, ℕ, length, IfOk, Bool, is_ok};
ghost use Rattle.std.specs.declared.option.Option.{Option};
ghost use Rattle.std.specs.Io.{WritesAtMost};
ghost use Rattle.std.specs.Io.KnownBytes.{WriteAppends, Keeps};
ghost use Rattle.cga_outside.specs.Causes.{HasCause, flushed_after};

use crate::failed::Failed;

/// Where bytes go.
pub trait Sink {
    /// The bytes that it holds, where the sink tells them.
    ghost held: { Self → Option (List ℕ) };

    /// All that it holds has been flushed.
    ghost flushed: { Self → Bool };

    /// How often a write or a flush has failed.
    ghost faults: { Self → ℕ };

    /// Takes some of the piece's first bytes, and gives their number, which is above 0 for a piece that
    /// isn't empty. Takes no memory.
    fn write(&mut self, piece: &[u8]) -> Result<usize, Failed>
        ensures within { WritesAtMost result piece.now }
        ensures some { IfOk result (λ n. 0 < length piece.now → 0 < n) }
        ensures bytes { WriteAppends (held self.old) (held self.new) result piece.now }
        ensures mark { flushed self.new ≡ flushed_after (flushed self.old) piece.now }
        ensures cause { HasCause (faults self.old) (faults self.new) result };

    /// Sends on what is held. Takes no memory.
    fn flush(&mut self) -> Result<(), Failed>
        ensures mark { flushed self.new ≡ is_ok result }
        ensures bytes { Keeps (held self.old) (held self.new) }
        ensures cause { HasCause (faults self.old) (faults self.new) result };
}
