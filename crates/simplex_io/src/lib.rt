//! Where bytes come from and where they go: a [`Source`] is read, a [`Sink`] is written to. Both
//! count their faults, so that a caller can tell a fault from the end of the input and from want of
//! memory. There is one of each in memory, whose calls fail as they are told, and one of each over
//! the standard streams.
#![tactic(auto)]

mod calls;
mod memory_sink;
mod memory_source;
mod read;
mod reader_source;
mod sink;
mod source;
mod write;
mod writer_sink;

pub use memory_sink::MemorySink;
pub use memory_source::MemorySource;
pub use read::{InputEnd, LIMIT, read_bytes, read_to_end};
pub use reader_source::{ReaderSource, StdinSource};
pub use sink::{Sink, SinkError};
pub use source::{Source, SourceError};
pub use write::write_text;
pub use writer_sink::{StdoutSink, WriterSink};
