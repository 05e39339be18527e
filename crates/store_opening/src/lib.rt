//! Opening a store's file: its header, the record that the counting slot leads to, the mapping and the segments that it names.
//!
//! It stands on `commit_store` and `commit_images` for what a file shows, on `disk` and `store_text`, on `mapping` and
//! `segment_fits`, `segment_codec` and `segment_view`, and on `index_core` for what blocks are. The contract that others use is
//! that of `open_store`: it gives what the file holds and a store that keeps it, or refuses with `Damaged` where the file holds
//! nothing good, and writes nothing but the header of an empty file. Begin reading with `specs/Opening.antt`, then `opening.rt`.
#![tactic(auto)]

mod blocks;
mod bodies;
mod commit;
mod dead;
mod device;
mod entries;
mod extents;
mod header;
mod holding;
mod live_ids;
mod once;
mod opened;
mod opening;
mod record;
mod refusal;
mod segments;

pub use blocks::are_blocks;
pub use bodies::mapping_of_bodies;
pub use commit::{CommitRead, read_commit};
pub use dead::live_bits_of;
pub use device::{read_piece, read_whole};
pub use entries::read_entries;
pub use extents::are_placed;
pub use header::{counting_side, greatest_generation, read_header};
pub use opened::{Inspected, Opened};
pub use opening::{inspected, open_store};
pub use record::read_record_at;
pub use refusal::{NoMemory, OpenRefusal};
pub use segments::read_segment;
