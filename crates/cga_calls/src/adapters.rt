//! What no clause says of the adapters: each call is one call of the reader or the writer, and its error is told; a write that
//! a signal interrupts is tried again. What waits in a buffer is written in its order, whatever fails.
use cga_outside::{BufferedSink, Failed, Sink, Source, StdSink, StdSource};
use std::io;
use std::io::{ErrorKind, Read, Write};

// Counts its calls. Where it is to fail, the next one fails with this error.
#[derive(Drop)]
struct Flaky {
    reads: u64,
    writes: u64,
    flushes: u64,
    fails: Option<ErrorKind>,
}

impl Flaky {
    fn new(kind: ErrorKind) -> Flaky {
        Flaky {
            reads: 0,
            writes: 0,
            flushes: 0,
            fails: Some(kind),
        }
    }

    fn answer(&mut self) -> io::Result<()> {
        match self.fails.take() {
            Some(kind) => Err(io::Error::from(kind)),
            None => Ok(()),
        }
    }
}

impl Read for Flaky {
    fn read(&mut self, buf: &mut [u8]) -> io::Result<usize> {
        self.reads = self.reads.saturating_add(1);
        self.answer()?;
        Ok(buf.len().min(1))
    }
}

impl Write for Flaky {
    fn write(&mut self, buf: &[u8]) -> io::Result<usize> {
        self.writes = self.writes.saturating_add(1);
        self.answer()?;
        Ok(buf.len().min(1))
    }

    fn flush(&mut self) -> io::Result<()> {
        self.flushes = self.flushes.saturating_add(1);
        self.answer()
    }
}

#[test]
fn a_read_is_one_read_of_the_reader(rt: HostRuntime) {
    let mut reader = Flaky::new(ErrorKind::Interrupted);
    let mut source = StdSource::new(&mut reader);
    let mut buffer = [0u8; 4];
    let failed = source.read(&mut buffer);
    let read = source.read(&mut buffer);
    assert_eq!(rt; failed, Err(Failed));
    assert_eq!(rt; read, Ok(1));
    assert_eq!(rt; reader.reads, 2);
}

#[test]
fn a_write_is_one_write_of_the_writer(rt: HostRuntime) {
    let mut writer = Flaky::new(ErrorKind::BrokenPipe);
    let mut sink = StdSink::new(&mut writer);
    let failed = sink.write(b"ab");
    let written = sink.write(b"ab");
    assert_eq!(rt; failed, Err(Failed));
    assert_eq!(rt; written, Ok(1));
    assert_eq!(rt; writer.writes, 2);
    assert_eq!(rt; writer.flushes, 0);
}

#[test]
fn a_flush_is_one_flush_of_the_writer(rt: HostRuntime) {
    let mut writer = Flaky::new(ErrorKind::Interrupted);
    let mut sink = StdSink::new(&mut writer);
    let failed = sink.flush();
    let flushed = sink.flush();
    assert_eq!(rt; failed, Err(Failed));
    assert_eq!(rt; flushed, Ok(()));
    assert_eq!(rt; writer.flushes, 2);
}

#[test]
fn an_interrupted_write_is_tried_again(rt: HostRuntime) {
    let mut writer = Flaky::new(ErrorKind::Interrupted);
    let mut sink = StdSink::new(&mut writer);
    let written = sink.write(b"ab");
    assert_eq!(rt; written, Ok(1));
    assert_eq!(rt; writer.writes, 2);
}

#[test]
fn what_a_failed_flush_leaves_goes_on_waiting(rt: HostRuntime) {
    let mut writer = Flaky::new(ErrorKind::BrokenPipe);
    let mut sink = BufferedSink::new(rt.alloc(), 4, StdSink::new(&mut writer)).expect(
        &rt, "memory",
    );
    let written = sink.write(b"abc");
    let failed = sink.flush();
    let flushed = sink.flush();
    drop(sink);
    assert_eq!(rt; written, Ok(3));
    assert_eq!(rt; failed, Err(Failed));
    assert_eq!(rt; flushed, Ok(()));
    assert_eq!(rt; writer.writes, 4);
    assert_eq!(rt; writer.flushes, 1);
}

#[test]
fn what_waits_is_written_at_the_end(rt: HostRuntime) {
    let mut writer = Flaky::new(ErrorKind::Interrupted);
    let mut sink = BufferedSink::new(rt.alloc(), 4, StdSink::new(&mut writer)).expect(
        &rt, "memory",
    );
    let written = sink.write(b"abc");
    drop(sink);
    assert_eq!(rt; written, Ok(3));
    assert_eq!(rt; writer.writes, 4);
    assert_eq!(rt; writer.flushes, 0);
}
