//! The documents of a set, listed.

ghost use Rattle.std.specs.Prelude.{◌≡◌, IfOk};
ghost use Rattle.segment_parts.specs.Text.{marked_places};

use crate::NoMemory;
use block_bits::BitSet;
use std::alloc::Global;

/// The documents of a set, in order.
pub(crate) fn places_of(alloc: Global, set: &BitSet) -> Result<Vec<u32>, NoMemory>
    ensures { IfOk result (λ places. places.items ≡ marked_places 0 set.now) }
{
    let mut places = Vec::with_capacity(alloc, set.count() as usize)?;
    let mut from = 0;
    'places: while let Some(place) = set.next_set(from) {
        places.push(place)?;
        from = place + 1;
    }
    Ok(places)
}
