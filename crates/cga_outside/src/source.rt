ghost use Rattle.std.specs.Prelude.{◌≡◌, List, ℕ, Bool};
ghost use Rattle.std.specs.declared.option.Option.{Option};
ghost use Rattle.std.specs.Io.{ReadsAtMost};
ghost use Rattle.std.specs.Io.KnownBytes.{ReadConsumes};
ghost use Rattle.cga_outside.specs.Causes.{Gives, HasCause, IsZeroAtEnd, ended_after};

use crate::failed::Failed;

/// Where bytes come from.
pub trait Source {
    /// The bytes that its reads gave so far, one after another.
    ghost given: { Self → List ℕ };

    /// The bytes that are left, where the source tells them.
    ghost left: { Self → Option (List ℕ) };

    /// A read has met the end.
    ghost ended: { Self → Bool };

    /// How often a read has failed.
    ghost faults: { Self → ℕ };

    /// Puts the next bytes at the front of the buffer, and gives their number. It is 0 for a buffer with
    /// room only at the end. Takes no memory.
    fn read(&mut self, buf: &mut [u8]) -> Result<usize, Failed>
        ensures bound { ReadsAtMost result buf.new }
        ensures gave { Gives (given self.old) (given self.new) result buf.new }
        ensures bytes { ReadConsumes (left self.old) (left self.new) result buf.new }
        ensures end { IsZeroAtEnd (left self.old) result buf.new }
        ensures mark { ended self.new ≡ ended_after (ended self.old) result buf.new }
        ensures cause { HasCause (faults self.old) (faults self.new) result };
}
