//! Writes, and what they answer.

use flattener::Block;
use segment::Bytes;

/// A write: a block to be put in place of the live one with its id, or as a new one; or the id of a block to be taken out.
#[derive(Drop)]
pub enum WriteOp {
    /// The block has the next sequence number.
    Put(Block),
    Take(Bytes),
}

/// What a write did, with the sequence number that it took.
#[derive(Clone, Copy, Debug, PartialEq, Eq)]
pub enum WriteDone {
    /// No block with the id was live.
    Created(u64),
    /// The live block with the id has given way.
    Updated(u64),
    Deleted(u64),
    /// No block with the id is live, and nothing was done.
    NotFound,
}
