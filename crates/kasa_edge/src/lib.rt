//! Where texts come from and where they go: files and standard output, and stand-ins in memory.
#![tactic(auto)]

mod calls;
mod disk;
mod shelf;
mod shelf_mem;
mod sink;
mod sink_mem;

pub use disk::{DiskShelf, OutSink};
pub use shelf::{FetchFault, Shelf};
pub use shelf_mem::ShelfMem;
pub use sink::{Failed, Sink};
pub use sink_mem::SinkMem;
