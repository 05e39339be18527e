//! The documents of the roots, listed from their bits.

ghost use Rattle.std.specs.Prelude.{◌≡◌, nat_lt, IfOk};
ghost use Rattle.std.specs.List.{prefix_len};
ghost use Rattle.std.specs.List.Sorted.{IsNonDecreasingBy};
ghost use Rattle.segment_parts.specs.Text.{marked_places};
ghost use Rattle.segment.specs.Roots.{root_documents};

use crate::NoMemory;
use block_bits::{BitList, BitSet};
use std::alloc::Global;

/// The documents of the roots, in order, given the documents of each scope.
pub(crate) fn root_places(alloc: Global, scopes: &BitList) -> Result<Vec<u32>, NoMemory>
    ensures { IfOk result (λ places. places.items ≡ root_documents scopes.now) }
{
    match scopes.as_slice() {
        [] => Ok(Vec::new(alloc)),
        [roots, ..] => places_of(alloc, roots),
    }
}

/// The documents of a set, in order.
fn places_of(alloc: Global, set: &BitSet) -> Result<Vec<u32>, NoMemory>
    ensures { IfOk result (λ places. places.items ≡ marked_places 0 set.now) }
{
    let mut places = Vec::with_capacity(alloc, set.count() as usize)?;
    let mut from = 0;
    'places: while let Some(place) = set.next_set(from) {
        places.push(place)?;
        from = place + 1;
    }
    Ok(places)
}

/// How many of these places, which ascend, come before a document.
pub(crate) fn places_before(places: &[u32], doc: u32) -> usize
    requires { IsNonDecreasingBy (λ place. place) places.now }
    ensures { result ≡ prefix_len (λ place. nat_lt place doc) places.now }
{
    places.partition_point(|place| *place < doc)
}
