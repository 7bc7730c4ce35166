//! A source that gives a line a read, and a sink, which share a count of the bytes that were flushed.
ghost use Rattle.std.specs.Prelude.{◌≡◌, None, false};

use cga_outside::{Failed, Sink, Source, Tape};
use std::cell::Cell;

// Notes how many bytes had been flushed before each of its first reads.
#[derive(Drop)]
pub(crate) struct LineByLine<'a> {
    left: &'a [u8],
    flushed: &'a Cell<usize>,
    pub(crate) flushed_before: [usize; 5],
    number: usize,
    ended: bool,
    tape: Tape,
}

impl<'a> LineByLine<'a> {
    pub(crate) fn new(script: &'a [u8], flushed: &'a Cell<usize>) -> LineByLine<'a>
        ensures { result.ended ≡ false }
    {
        LineByLine {
            left: script,
            flushed,
            flushed_before: [0; 5],
            number: 0,
            ended: false,
            tape: Tape::new(),
        }
    }

    fn note(&mut self)
        ensures ended { self.new.ended ≡ self.old.ended }
        ensures tape { self.new.tape ≡ self.old.tape }
    {
        if let Some(place) = self.flushed_before.get_mut(self.number) {
            *place = self.flushed.get();
        }
        self.number = self.number.saturating_add(1);
    }
}

fn line_end(bytes: &[u8]) -> usize {
    match bytes.iter().position(|byte| *byte == b'\n') {
        Some(end) => end + 1,
        None => bytes.len(),
    }
}

impl Source for LineByLine<'_> {
    ghost given = { λ s. s.tape.bytes };

    ghost left = { λ s. None };

    ghost ended = { λ s. s.ended };

    ghost faults = { λ s. 0 };

    fn read(&mut self, buf: &mut [u8]) -> Result<usize, Failed> {
        self.note();
        let count = line_end(self.left).min(self.left.len()).min(buf.len());
        let (line, left) = self.left.split_at(count);
        buf[..count].copy_from_slice(line);
        self.tape = Tape::with(&self.tape, &buf[..count]);
        self.left = left;
        if count == 0 && !buf.is_empty() {
            self.ended = true;
        }
        Ok(count)
    }
}

// Takes all bytes, and counts them into the shared count where they are flushed.
#[derive(Drop)]
pub(crate) struct FlushCount<'a> {
    written: usize,
    count: &'a Cell<usize>,
    flushed: bool,
}

impl<'a> FlushCount<'a> {
    pub(crate) fn new(count: &'a Cell<usize>) -> FlushCount<'a> {
        FlushCount {
            written: 0,
            count,
            flushed: false,
        }
    }
}

impl Sink for FlushCount<'_> {
    ghost held = { λ s. None };

    ghost flushed = { λ s. s.flushed };

    ghost faults = { λ s. 0 };

    fn write(&mut self, piece: &[u8]) -> Result<usize, Failed> {
        if !piece.is_empty() {
            self.flushed = false;
        }
        self.written = self.written.saturating_add(piece.len());
        Ok(piece.len())
    }

    fn flush(&mut self) -> Result<(), Failed> {
        self.count.set(self.written);
        self.flushed = true;
        Ok(())
    }
}
