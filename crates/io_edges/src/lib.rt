//! The edges to the outside, as traits: a source of bytes and a sink for bytes.
//!
//! Each object counts the calls on it that failed, and tells its bytes where it can. The contract that others use:
//! reads give the bytes of the source in order, writes append to the sink, and a call fails only where the count of
//! faults rose. `MemSource` and `MemSink` are the same objects in memory, with the calls listed that are to fail, so that a
//! test can break any one of them. The disk of a store is an edge too: it stands in `disk`. This crate stands on `std` alone.
#![tactic(auto)]

mod calls;
mod edges;
mod mem_sink;
mod mem_source;
mod word;

pub use calls::CallList;
pub use edges::{Failed, NoMemory, Sink, Source};
pub use mem_sink::MemSink;
pub use mem_source::MemSource;
pub use word::Word;
