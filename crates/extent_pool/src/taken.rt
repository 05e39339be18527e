//! Taken extents in ascending order of place.
ghost use Rattle.std.specs.Prelude.{◌≡◌, ℕ, ◌+◌, ◌<◌, ◌^◌, ◌∷◌, ◌==◌, All, Bool, IfOk, find, nat_le, vec_len, vec_capacity};
ghost use Rattle.std.specs.List.{list_all, prefix_len};
ghost use Rattle.std.specs.List.Sorted.{IsNonDecreasingBy, IsPermutation};
ghost use Rattle.extent_pool.specs.Extents.{end_of};
ghost use Rattle.extent_pool.specs.Gaps.{AreLaid};
ghost use Rattle.extent_pool.specs.Changes.{are_apart, begins_before, with_extent, without_extent};

use crate::extent::Extent;
use std::alloc::{AllocError, Global};

pub(crate) fn all_within(extents: &[Extent], limit: u64) -> bool
    ensures { result ≡ list_all (λ e. nat_le (end_of e) limit) extents.now }
{
    extents.iter().all(|extent| extent.is_within(limit))
}

/// A copy of the extents in ascending order of place.
pub(crate) fn in_order(alloc: Global, extents: &[Extent]) -> Result<Vec<Extent>, AllocError>
    ensures same { IfOk result (λ sorted. IsPermutation extents.now sorted.items) }
    ensures rising { IfOk result (λ sorted. IsNonDecreasingBy (λ e. e.at) sorted.items) }
{
    let mut sorted = Vec::from_slice(alloc, extents)?;
    sorted.sort_unstable_by_key(|extent| extent.at);
    Ok(sorted)
}

/// Whether each extent begins where the one before it ends, or behind.
pub(crate) fn stand_apart(extents: &[Extent]) -> bool
    requires { All (λ e. end_of e < 2 ^ 64) extents.now }
    ensures { result ≡ are_apart 0 extents.now }
{
    let mut from = 0;
    for extent in extents {
        if extent.at < from {
            return false;
        }
        from = extent.end();
    }
    true
}

/// Puts the extent among those that stand in order.
pub(crate) fn add_extent(extents: &mut Vec<Extent>, extent: Extent)
    requires rising { IsNonDecreasingBy (λ e. e.at) extents.old.items }
    requires room { vec_len extents.old < vec_capacity extents.old }
    ensures items { extents.new.items ≡ with_extent extent extents.old.items }
    ensures gains { IsPermutation (extent ∷ extents.old.items) extents.new.items }
{
    let place = place_of(extents.as_slice(), extent.at);
    extents.insert(place, extent).unwrap()
}

/// Takes the extent out of those that stand in order.
pub(crate) fn remove_extent(extents: &mut Vec<Extent>, extent: Extent)
    requires laid { (end : ℕ) × AreLaid 0 extents.old.items end }
    requires found { find (λ e. e.at == extent.at) extents.old.items ≡ Some extent }
    ensures items { extents.new.items ≡ without_extent extent.at extents.old.items }
    ensures loses { IsPermutation extents.old.items (extent ∷ extents.new.items) }
{
    let place = place_of(extents.as_slice(), extent.at);
    extents.remove(place);
}

/// The place of the first extent that begins at the byte or behind it.
fn place_of(extents: &[Extent], byte: u64) -> usize
    requires { IsNonDecreasingBy (λ e. e.at) extents.now }
    ensures { result ≡ prefix_len (begins_before byte) extents.now }
{
    extents.partition_point(|extent| extent.at < byte)
}
