//! A disk with one file, as a trait, with what a stop at any moment may leave of that file.
//!
//! It stands on `io_edges` alone, for failed calls and their counts. The contract that others use is that of `Disk`: each call
//! says what a read gives behind it, and which bytes a stop may leave, both where it failed and where it didn't. `MemDisk` is
//! such a disk in memory, with a record of its calls, from which a test takes each image. Begin reading at `specs/Stops.antt`.
#![tactic(auto)]

mod bytes;
mod call_counter;
mod choice;
mod device;
mod disk_call;
mod file_bytes;
mod mem_disk;
mod pending;
mod recorded_file;
mod untold;

pub use bytes::Bytes;
pub use choice::{Choice, PieceChoice};
pub use device::Disk;
pub use mem_disk::MemDisk;
pub use pending::{Pending, PendingList};
