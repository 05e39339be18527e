//! The real edges of the program: a reader as a source, a writer as a sink, and a file of the machine's as the disk of a store.
//!
//! It stands on `io_edges` and `disk`, whose traits it meets. Source and sink tell the bytes that their reader and their writer tell;
//! the machine's own streams tell none. No clause can say what a file gives or keeps, so a `FileDisk` tells no content and no images:
//! what is proved over edges that tell them holds for these as far as they behave as the traits say. Each call that fails is counted,
//! and a call fails only where the reader's, the writer's or the file's did. Begin with `file_disk.rt`.
#![tactic(auto)]

mod file_disk;
mod streams;

pub use file_disk::FileDisk;
pub use streams::{StdinSource, StdoutSink};
