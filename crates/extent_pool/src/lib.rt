//! The free space of a store: extents of a file are taken and given back in whole units of 64 bytes.
//! It stands on std alone.
//! The contract that others use is that of `ExtentPool::take`: it hands out the front of the first hole
//! that has room, where the holes are exactly the free units that `specs/Holes.antt` defines, and no
//! byte ever belongs to two taken extents.
#![tactic(auto)]

mod extent;
mod holes;
mod law;
mod pool;
mod taken;

pub use extent::{Extent, ExtentList, UNIT};
pub use law::order_makes_no_difference;
pub use pool::{ExtentPool, PoolRefusal, TakeRefusal};
