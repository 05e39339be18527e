//! Places that a store may name.

ghost use Rattle.std.specs.Prelude.{◌≤◌, ◌^◌, ◌↔◌, IfOk, IsTrue};
ghost use Rattle.std.specs.List.{All};
ghost use Rattle.commit_store.specs.Saying.{AreExtents};
ghost use Rattle.store_opening.specs.Read.{IsPlace};

use crate::refusal::NoMemory;
use extent_pool::{Extent, ExtentList, ExtentPool, PoolRefusal, UNIT};
use std::alloc::Global;
use store_text::HEADER_SIZE;

/// Whether a store of at most `limit` bytes may name these extents: each begins at a unit behind the header, has a byte or more
/// and ends in whole units within the limit, and no byte belongs to two of them.
pub fn are_placed(alloc: Global, limit: u64, extents: &ExtentList) -> Result<bool, NoMemory>
    requires { limit ≤ 2 ^ 38 }
    ensures { IfOk result (λ are. IsTrue are ↔ AreExtents limit extents.now.extents) }
{
    if !are_places(limit, extents.as_slice()) {
        return Ok(false);
    }
    match ExtentPool::over(alloc, limit, extents) {
        Ok(_) => Ok(true),
        Err(PoolRefusal::NoMemory) => Err(NoMemory),
        Err(PoolRefusal::BeyondLimit) => Ok(false),
        Err(PoolRefusal::Overlap) => Ok(false),
    }
}

/// Whether each of the extents is such a place by itself.
fn are_places(limit: u64, extents: &[Extent]) -> bool
    ensures { IsTrue result ↔ All (IsPlace limit) extents.now }
{
    'extents: for extent in extents {
        if !is_place(limit, extent) {
            return false;
        }
    }
    true
}

/// Whether an extent begins at a unit behind the header, has a byte or more and is no longer than a store.
fn is_place(limit: u64, extent: &Extent) -> bool
    ensures { IsTrue result ↔ IsPlace limit extent.now }
{
    extent.at % UNIT == 0 && extent.at >= HEADER_SIZE && extent.len >= 1 && extent.len <= limit
}
