//! The live bits of a segment, by the roots that are dead.

ghost use Rattle.std.specs.Prelude.{◌<◌, ◌↔◌, length, IfOk, IfSome, IsNone, IsTrue};
ghost use Rattle.std.specs.List.{All};
ghost use Rattle.std.specs.List.Sorted.{IsStrictlyIncreasing};
ghost use Rattle.store_opening.specs.Segments.{AreDead};

use crate::refusal::NoMemory;
use segment::{LiveBits, Segment};
use std::alloc::Global;

/// The live bits of a segment whose roots of these indexes are dead; the indexes ascend strictly. None exactly where one of them
/// is that of no root.
pub fn live_bits_of(
    alloc: Global,
    segment: &Segment,
    dead: &[u32],
) -> Result<Option<LiveBits>, NoMemory>
    requires { IsStrictlyIncreasing dead.now }
    ensures live { IfOk result (λ found. IfSome found (λ live. AreDead segment.now live dead.now)) }
    ensures none { IfOk result (λ found. IsNone found → All (λ root. root < length segment.now.roots) dead.now → ⊥) }
{
    if !are_below(segment.roots(), dead) {
        return Ok(None);
    }
    let live = LiveBits::over(alloc, segment, dead)?;
    Ok(Some(live))
}

/// Whether all of the indexes are below a number.
fn are_below(count: u32, indexes: &[u32]) -> bool
    ensures { IsTrue result ↔ All (λ index. index < count) indexes.now }
{
    'indexes: for index in indexes {
        if !is_below(count, *index) {
            return false;
        }
    }
    true
}

fn is_below(count: u32, index: u32) -> bool
    ensures { IsTrue result ↔ index < count }
{
    index < count
}
