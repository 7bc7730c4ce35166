ghost use Rattle.std.specs.Prelude.{◌≡◌, [], false, is_ok, if◌then◌else◌};
ghost use Rattle.std.specs.Io.{ReadsAtMost};
ghost use Rattle.std.specs.Io.KnownBytes.{ReadConsumes};
ghost use Rattle.cga_outside.specs.Causes.{Gives, HasCause, IsZeroAtEnd, ended_after, risen};

use crate::failed::Failed;
use crate::source::Source;
use crate::tape::Tape;
use std::io::Read;

/// A source over one of std's readers. Of the bytes that are left it tells what the reader tells, which is nothing for
/// standard input. Any error of the reader counts as a fault, an interrupted read too.
#[derive(Drop)]
pub struct StdSource<R: Read> {
    reader: R,
    ended: bool,
    faults: u64,
    tape: Tape,
}

impl<R: Read> StdSource<R> {
    /// A source that no read has met the end of. Takes no memory.
    pub fn new(reader: R) -> StdSource<R>
        ensures reader { result.reader ≡ reader }
        ensures open { result.ended ≡ false }
        ensures faults { result.faults ≡ 0 }
        ensures given { result.tape.bytes ≡ [] }
    {
        StdSource {
            reader,
            ended: false,
            faults: 0,
            tape: Tape::new(),
        }
    }
}

impl<R: Read> Source for StdSource<R> {
    ghost given = { λ s. s.tape.bytes };

    ghost left = { λ s. R.remaining s.reader };

    ghost ended = { λ s. s.ended };

    ghost faults = { λ s. s.faults };

    fn read(&mut self, buf: &mut [u8]) -> Result<usize, Failed>
        ensures bound { ReadsAtMost result buf.new }
        ensures gave { Gives self.old.tape.bytes self.new.tape.bytes result buf.new }
        ensures bytes { ReadConsumes (R.remaining self.old.reader)
            (R.remaining self.new.reader) result buf.new }
        ensures end { IsZeroAtEnd (R.remaining self.old.reader) result buf.new }
        ensures mark { self.new.ended ≡ ended_after self.old.ended result buf.new }
        ensures cause { HasCause self.old.faults self.new.faults result }
        ensures faults { self.new.faults ≡
            (if is_ok result then self.old.faults else risen self.old.faults) }
    {
        match self.reader.read(buf) {
            Ok(count) => {
                self.tape = Tape::with(&self.tape, &buf[..count]);
                if count == 0 && !buf.is_empty() {
                    self.ended = true;
                }
                Ok(count)
            }
            Err(_) => {
                self.faults = self.faults.saturating_add(1);
                Err(Failed)
            }
        }
    }
}
