//! What is outside of the program: a source of bytes and a sink for them, each with a count of its failures, once in
//! memory and once over std's readers and writers, and a buffer before a sink.
//!
//! It must not know lines, scripts or statuses.
//!
//! What callers get wrong: a read or a write may move fewer bytes than were asked for, so that moving all of them is a
//! loop of the caller's.
#![tactic(auto)]

mod buffered_sink;
mod failed;
mod list_sink;
mod memory_sink;
mod memory_source;
mod sink;
mod source;
mod std_sink;
mod std_source;
mod tape;

pub use buffered_sink::BufferedSink;
pub use failed::Failed;
pub use list_sink::ListSink;
pub use memory_sink::MemorySink;
pub use memory_source::MemorySource;
pub use sink::Sink;
pub use source::Source;
pub use std_sink::StdSink;
pub use std_source::StdSource;
pub use tape::Tape;
