//! The outside of `aggs`: where bytes come from and go to, and the lines of an input. A reader of lines keeps its first
//! fault; sources and sinks in memory show every fault, those of std tell no bytes.
#![tactic(auto)]

mod adapters;
mod failing;
mod limits;
mod lines;
mod memory_sink;
mod memory_source;
mod sink;
mod source;

pub use adapters::{StdSink, StdSource};
pub use limits::BLOCK;
pub use lines::{Block, LineFault, Lines};
pub use memory_sink::MemorySink;
pub use memory_source::MemorySource;
pub use sink::{Sink, write_all};
pub use source::{Failed, Source};
