//! The outside of a run: shelves that files are loaded from, and sinks that bytes are put into.
//!
//! A `Shelf` or a `Sink` counts its own faults, so that a caller can tell a refusal of the outside
//! from one of its own. `MemShelf` and `MemSink` stand in memory and tell their content;
//! `DiskShelf` and `StdSink` stand for real files and streams, and tell none.
#![tactic(auto)]

mod counts;
mod disk_shelf;
mod mem_shelf;
mod mem_sink;
mod shelf;
mod sink;
mod std_sink;

pub use disk_shelf::DiskShelf;
pub use mem_shelf::MemShelf;
pub use mem_sink::MemSink;
pub use shelf::{Shelf, ShelfFault};
pub use sink::{Sink, SinkFault, put_pieces};
pub use std_sink::StdSink;
