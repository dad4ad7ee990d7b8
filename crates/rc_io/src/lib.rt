//! The streams by which the store meets the outside: sources and sinks of bytes, in memory and over std's, and the
//! reader that cuts a source into lines within the limits of a run.
#![tactic(auto)]

mod calls;
mod failed;
mod host;
mod line_reader;
mod look;
mod mem_host;
mod mem_sink;
mod mem_source;
mod sink;
mod source;
mod std_streams;
mod window;

pub use failed::Failed;
pub use host::Host;
pub use line_reader::{LineReader, Next};
pub use mem_host::MemHost;
pub use mem_sink::MemSink;
pub use mem_source::MemSource;
pub use sink::{Sink, write_all};
pub use source::Source;
pub use std_streams::{ReadSource, WriteSink};

#[cfg(test)]
mod tests;
