//! The edge of the programs: octets in, octets out, and each failed call counted.
//!
//! A program is written over [`ByteSource`] and [`ByteSink`], and [`read_all`] and [`put_all`] are its two
//! loops over them; begin with those. [`MemSource`] and [`MemSink`] are fakes in memory whose calls fail on
//! demand, and [`StdSource`] and [`StdSink`] are the trusted edge: a few lines each over standard input and
//! output. No buffer is kept, and no failed call is tried again.
#![tactic(auto)]

mod memory_streams;
mod read_and_put_all;
mod source_and_sink;
mod standard_streams;

pub use memory_streams::{MemSink, MemSource};
pub use read_and_put_all::{ReadEnd, put_all, read_all, take_back};
pub use source_and_sink::{ByteSink, ByteSource, Failed};
pub use standard_streams::{StdSink, StdSource};
