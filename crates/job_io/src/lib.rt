//! The outside of a job: a shelf of files that it reads, and a sink of bytes that it writes.
//! Both have kinds in memory, kinds that never fail, and the trusted kinds over the system's files and standard output.
#![tactic(auto)]

mod counts;
mod file_shelf;
mod mem_shelf;
mod mem_sink;
mod pairs;
mod shelf;
mod sink;
mod std_sink;
mod sure_shelf;
mod sure_sink;

pub use file_shelf::FileShelf;
pub use mem_shelf::MemShelf;
pub use mem_sink::MemSink;
pub use shelf::{Shelf, ShelfFault};
pub use sink::{Sink, SinkFailed, put_all};
pub use std_sink::StdSink;
pub use sure_shelf::SureShelf;
pub use sure_sink::SureSink;
