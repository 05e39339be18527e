//! Fields of a byte format: numbers with their lowest byte first, and bytes behind their length.
//! It stands on std alone.
//! The contract that others use is that `take_` undoes `put_` and nothing else: what stands at a place
//! is taken exactly where it is a field's spelling, as `specs/Fields.antt` defines it, whatever
//! stands before it and whatever follows.
#![tactic(auto)]

mod put;
mod take;

pub use put::{NoMemory, put_bytes, put_u8, put_u32, put_u64};
pub use take::{take_bytes, take_u8, take_u32, take_u64};
