ghost use Rattle.std.specs.Prelude.{◌≡◌, ◌<◌, [], Some, false, length, IfOk, is_ok, if◌then◌else◌};
ghost use Rattle.std.specs.Io.{WritesAtMost};
ghost use Rattle.std.specs.Io.KnownBytes.{WriteAppends, Keeps};
ghost use Rattle.cga_outside.specs.Causes.{HasCause, flushed_after, risen};

use crate::failed::Failed;
use crate::sink::Sink;
use crate::tape::Tape;
use std::io::{ErrorKind, Write};

/// A sink over one of std's writers. It tells the bytes that the writer took since, also where the writer tells nothing,
/// as standard output does. A write that a signal interrupts took nothing, and is tried again. Any other error of the writer
/// counts as a fault, and so does a write that takes nothing.
#[derive(Drop)]
pub struct StdSink<W: Write> {
    writer: W,
    flushed: bool,
    faults: u64,
    tape: Tape,
}

// Writes some of the piece, again where a signal interrupts it.
fn written<W: Write>(writer: &mut W, piece: &[u8]) -> Result<usize, Failed>
    ensures within { WritesAtMost result piece.now }
    ensures some { IfOk result (λ n. 0 < n) }
    ensures contents { WriteAppends (W.contents writer.old) (W.contents writer.new) result piece.now }
{
    for _ in 0..u64::MAX {
        match writer.write(piece) {
            Ok(0) => return Err(Failed),
            Ok(count) => return Ok(count),
            Err(error) => {
                if error.kind() != ErrorKind::Interrupted {
                    return Err(Failed);
                }
            }
        }
    }
    Err(Failed)
}

impl<W: Write> StdSink<W> {
    /// A sink that isn't flushed. Takes no memory.
    pub fn new(writer: W) -> StdSink<W>
        ensures writer { result.writer ≡ writer }
        ensures unflushed { result.flushed ≡ false }
        ensures faults { result.faults ≡ 0 }
        ensures took { result.tape.bytes ≡ [] }
    {
        StdSink {
            writer,
            flushed: false,
            faults: 0,
            tape: Tape::new(),
        }
    }
}

impl<W: Write> Sink for StdSink<W> {
    ghost held = { λ s. Some s.tape.bytes };

    ghost flushed = { λ s. s.flushed };

    ghost faults = { λ s. s.faults };

    fn write(&mut self, piece: &[u8]) -> Result<usize, Failed>
        ensures within { WritesAtMost result piece.now }
        ensures some { IfOk result (λ n. 0 < length piece.now → 0 < n) }
        ensures bytes { WriteAppends (Some self.old.tape.bytes) (Some self.new.tape.bytes) result piece.now }
        ensures contents { WriteAppends (W.contents self.old.writer)
            (W.contents self.new.writer) result piece.now }
        ensures mark { self.new.flushed ≡ flushed_after self.old.flushed piece.now }
        ensures cause { HasCause self.old.faults self.new.faults result }
        ensures faults { self.new.faults ≡
            (if is_ok result then self.old.faults else risen self.old.faults) }
    {
        if piece.is_empty() {
            return Ok(0);
        }
        self.flushed = false;
        match written(&mut self.writer, piece) {
            Ok(count) => {
                self.tape = Tape::with(&self.tape, &piece[..count]);
                Ok(count)
            }
            Err(Failed) => {
                self.faults = self.faults.saturating_add(1);
                Err(Failed)
            }
        }
    }

    fn flush(&mut self) -> Result<(), Failed>
        ensures mark { self.new.flushed ≡ is_ok result }
        ensures bytes { Keeps (Some self.old.tape.bytes) (Some self.new.tape.bytes) }
        ensures contents { Keeps (W.contents self.old.writer) (W.contents self.new.writer) }
        ensures cause { HasCause self.old.faults self.new.faults result }
        ensures faults { self.new.faults ≡
            (if is_ok result then self.old.faults else risen self.old.faults) }
    {
        match self.writer.flush() {
            Ok(()) => {
                self.flushed = true;
                Ok(())
            }
            Err(_) => {
                self.flushed = false;
                self.faults = self.faults.saturating_add(1);
                Err(Failed)
            }
        }
    }
}
