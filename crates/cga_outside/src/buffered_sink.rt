ghost use Rattle.std.specs.Prelude.{◌≡◌, ◌+◌, ◌++◌, ◌≤◌, ◌&&◌, [], false, length, take, drop, nat_eq, IfOk, OnOk, is_ok, if◌then◌else◌, vec_capacity};
ghost use Rattle.std.specs.Io.KnownBytes.{Appends, Keeps, append_known};
ghost use Rattle.cga_outside.specs.Causes.{HasCause, Rose, risen};
ghost use Rattle.cga_outside.specs.Waiting.{HandsOn};

use crate::failed::Failed;
use crate::sink::Sink;
use cga_fraction::NoMemory;
use std::alloc::Global;

/// A sink with a buffer before another one, which gets the bytes in their order, some thousands at once. It holds what the
/// other one holds, and behind that what waits in the buffer. All is flushed only where nothing waits and the other one is
/// flushed. When it is dropped, what waits is handed on once more.
pub struct BufferedSink<K: Sink + Drop> {
    below: K,
    waiting: Vec<u8>,
    flushed: bool,
    faults: u64,
}

// Hands bytes on until the sink has all of them or fails, and gives how many it has.
fn handed<K: Sink>(bytes: &[u8], below: &mut K) -> (usize, Result<(), Failed>)
    ensures bound { result.0 ≤ length bytes.now }
    ensures all { OnOk result.1 (result.0 ≡ length bytes.now) }
    ensures bytes { Appends (K.held below.old) (K.held below.new) (take result.0 bytes.now) }
{
    let mut sent = 0;
    while sent < bytes.len() {
        match below.write(&bytes[sent..]) {
            Ok(count) => sent += count,
            Err(Failed) => return (sent, Err(Failed)),
        }
    }
    (sent, Ok(()))
}

fn remove_front(bytes: &mut Vec<u8>, count: usize)
    requires { count ≤ length bytes.old.items }
    ensures items { bytes.new.items ≡ drop count bytes.old.items }
    ensures room { vec_capacity bytes.new ≡ vec_capacity bytes.old }
{
    let len = bytes.len();
    bytes.as_mut_slice().copy_within(count..len, 0);
    bytes.truncate(len - count);
}

// Hands on what waits. What a failure leaves goes on waiting, in its order.
fn hand_on<K: Sink>(waiting: &mut Vec<u8>, below: &mut K) -> Result<(), Failed>
    ensures front { HandsOn (K.held below.old) (K.held below.new) waiting.old.items waiting.new.items }
    ensures all { OnOk result (waiting.new.items ≡ []) }
    ensures held { Keeps (append_known (K.held below.old) waiting.old.items)
        (append_known (K.held below.new) waiting.new.items) }
    ensures room { vec_capacity waiting.new ≡ vec_capacity waiting.old }
{
    let (sent, result) = handed(waiting.as_slice(), below);
    remove_front(waiting, sent);
    result
}

fn append(waiting: &mut Vec<u8>, piece: &[u8])
    requires { length waiting.old.items + length piece.now ≤ vec_capacity waiting.old }
    ensures { waiting.new.items ≡ waiting.old.items ++ piece.now }
{
    match waiting.extend_from_slice(piece) {
        Ok(()) => {}
        Err(_) => unreachable!(),
    }
}

impl<K: Sink + Drop> BufferedSink<K> {
    /// A sink before this one, with an empty buffer for so many bytes. Takes memory for all of them.
    pub fn new(alloc: Global, room: usize, below: K) -> Result<BufferedSink<K>, NoMemory>
        ensures { IfOk result (λ sink. (sink.below ≡ below) × (sink.waiting.items ≡ [])
            × (sink.flushed ≡ false) × (sink.faults ≡ 0)) }
    {
        let waiting = Vec::with_capacity(alloc, room)?;
        Ok(BufferedSink {
            below,
            waiting,
            flushed: false,
            faults: 0,
        })
    }

    // One more fault.
    fn failed(&mut self) -> Failed
        ensures below { self.new.below ≡ self.old.below }
        ensures waiting { self.new.waiting ≡ self.old.waiting }
        ensures flushed { self.new.flushed ≡ false }
        ensures faults { self.new.faults ≡ risen self.old.faults }
        ensures later { self.old.faults ≤ self.new.faults }
        ensures rose { Rose self.old.faults self.new.faults }
    {
        self.flushed = false;
        self.faults = self.faults.saturating_add(1);
        Failed
    }
}

impl<K: Sink + Drop> Sink for BufferedSink<K> {
    ghost held = { λ s. append_known (K.held s.below) s.waiting.items };

    ghost flushed = { λ s. s.flushed && (K.flushed s.below && nat_eq (length s.waiting.items) 0) };

    ghost faults = { λ s. s.faults };

    fn write(&mut self, piece: &[u8]) -> Result<usize, Failed> {
        if piece.is_empty() {
            return Ok(0);
        }
        self.flushed = false;
        if piece.len() > self.waiting.capacity() - self.waiting.len() {
            match hand_on(&mut self.waiting, &mut self.below) {
                Ok(()) => {}
                Err(Failed) => return Err(self.failed()),
            }
        }
        if piece.len() <= self.waiting.capacity() - self.waiting.len() {
            append(&mut self.waiting, piece);
            return Ok(piece.len());
        }
        match self.below.write(piece) {
            Ok(count) => Ok(count),
            Err(Failed) => Err(self.failed()),
        }
    }

    fn flush(&mut self) -> Result<(), Failed>
        ensures mark { (self.new.flushed && (K.flushed self.new.below && nat_eq (length self.new.waiting.items) 0))
            ≡ is_ok result }
        ensures bytes { Keeps (append_known (K.held self.old.below) self.old.waiting.items)
            (append_known (K.held self.new.below) self.new.waiting.items) }
        ensures cause { HasCause self.old.faults self.new.faults result }
        ensures faults { self.new.faults ≡
            (if is_ok result then self.old.faults else risen self.old.faults) }
        ensures front { HandsOn (K.held self.old.below) (K.held self.new.below) self.old.waiting.items self.new.waiting.items }
        ensures all { OnOk result (self.new.waiting.items ≡ []) }
    {
        match hand_on(&mut self.waiting, &mut self.below) {
            Ok(()) => {}
            Err(Failed) => return Err(self.failed()),
        }
        match self.below.flush() {
            Ok(()) => {
                self.flushed = true;
                Ok(())
            }
            Err(Failed) => Err(self.failed()),
        }
    }
}

impl<K: Sink + Drop> Drop for BufferedSink<K> {
    fn drop(mut self) {
        let _ = hand_on(&mut self.waiting, &mut self.below);
        let BufferedSink {
            below: _below,
            waiting: _,
            flushed: _,
            faults: _,
        } = self;
    }
}
