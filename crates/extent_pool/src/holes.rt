//! Holes in ascending order of place: the first with room, and what taking and giving back change.
ghost use Rattle.std.specs.Prelude.{◌≡◌, ℕ, ◌+◌, ◌-◌, ◌*◌, ◌/◌, ◌%◌, ◌≤◌, ◌<◌, ◌^◌, All, length, [], ◌∷◌, ◌++◌, position, take, drop, slice_index_or};
ghost use Rattle.std.specs.List.{prefix_len};
ghost use Rattle.std.specs.List.Sorted.{IsNonDecreasingBy};
ghost use Rattle.extent_pool.specs.Extents.{room_of};
ghost use Rattle.extent_pool.specs.Holes.{has_room};
ghost use Rattle.extent_pool.specs.Gaps.{AreLaid, gaps, gap};
ghost use Rattle.extent_pool.specs.Changes.{ends_before, freed, freed_here, in_front};
ghost use Rattle.extent_pool.specs.declared.extent.Extent.{Extent};

use crate::extent::{Extent, ExtentList, UNIT};

/// The place of the first hole that has room for the length, rounded up to whole units. It counts in units, so that no
/// length is too long to be rounded.
pub(crate) fn first_with_room(holes: &[Extent], len: u64) -> Option<usize>
    ensures { result ≡ position (has_room len) holes.now }
{
    let units = len.div_ceil(UNIT);
    holes.iter().position(|hole| hole.len / UNIT >= units)
}

/// Adds the gaps between extents that stand in order, up to the end.
#[tactic(auto, using(crate::proofs::Places::laid_at))]
pub(crate) fn add_gaps(extents: &[Extent], end: u64, holes: &mut ExtentList)
    requires laid { AreLaid 0 extents.now end }
    requires room { length extents.now + 1 ≤ holes.old.spare }
    ensures extents { holes.new.extents ≡ holes.old.extents ++ gaps 0 extents.now end }
    ensures room { room_of holes.new ≡ room_of holes.old }
{
    let mut from = 0;
    for extent in extents {
        add_gap(from, extent.at, holes);
        from = extent.end();
    }
    add_gap(from, end, holes);
}

fn add_gap(from: u64, end: u64, holes: &mut ExtentList)
    requires { 1 ≤ holes.old.spare }
    ensures extents { holes.new.extents ≡ holes.old.extents ++ gap from end }
    ensures spare { holes.old.spare ≤ holes.new.spare + 1 }
    ensures room { room_of holes.new ≡ room_of holes.old }
{
    if from < end {
        holes.push(Extent {
            at: from,
            len: end - from,
        });
    }
}

/// Takes so many bytes off the front of a hole; a hole that has no more is gone.
#[tactic(auto, using(crate::proofs::Places::shortened_at))]
pub(crate) fn shorten(holes: &mut ExtentList, place: usize, size: u64)
    requires place { place < length holes.old.extents }
    requires size { (d : Extent) → size ≤ (slice_index_or holes.old.extents place d).len }
    requires ends { All (λ h. h.at + h.len < 2 ^ 64) holes.old.extents }
    ensures extents { (d : Extent) → let hole = slice_index_or holes.old.extents place d in
        holes.new.extents ≡ take place holes.old.extents
        ++ (gap (hole.at + size) (hole.at + hole.len) ++ drop (place + 1) holes.old.extents) }
    ensures room { room_of holes.new ≡ room_of holes.old }
{
    let hole = holes.as_slice()[place];
    if size < hole.len {
        holes.set(
            place,
            Extent {
                at: hole.at + size,
                len: hole.len - size,
            },
        );
    } else {
        holes.remove(place);
    }
}

/// Makes the bytes from one place to another a hole, one with the holes that touch it.
pub(crate) fn release(holes: &mut ExtentList, at: u64, end: u64)
    requires order { at < end }
    requires rising { IsNonDecreasingBy (λ h. h.at + h.len) holes.old.extents }
    requires ends { All (λ h. h.at + h.len < 2 ^ 64) holes.old.extents }
    requires room { length (freed at end holes.old.extents) ≤ room_of holes.old }
    ensures extents { holes.new.extents ≡ freed at end holes.old.extents }
    ensures room { room_of holes.new ≡ room_of holes.old }
{
    let place = first_ending_from(holes.as_slice(), at);
    let start = join_before(holes, place, at);
    put_joined(holes, place, start, end);
}

/// The place of the first hole that ends at the byte or behind it.
fn first_ending_from(holes: &[Extent], byte: u64) -> usize
    requires { IsNonDecreasingBy (λ h. h.at + h.len) holes.now }
    ensures { result ≡ prefix_len (ends_before byte) holes.now }
{
    holes.partition_point(|hole| hole.at.saturating_add(hole.len) < byte)
}

/// Takes out the hole at the place where it ends at the byte, and gives the byte where it began; else the byte itself.
fn join_before(holes: &mut ExtentList, place: usize, byte: u64) -> u64
    requires place { place ≤ length holes.old.extents }
    requires ends { All (λ h. h.at + h.len < 2 ^ 64) holes.old.extents }
    ensures start { result ≤ byte }
    ensures front { take place holes.new.extents ≡ take place holes.old.extents }
    ensures joined { (end : ℕ) → in_front result end (drop place holes.new.extents)
        ≡ freed_here byte end (drop place holes.old.extents) }
    ensures place { place ≤ length holes.new.extents }
    ensures ends { All (λ h. h.at + h.len < 2 ^ 64) holes.new.extents }
    ensures room { room_of holes.new ≡ room_of holes.old }
{
    if place == holes.as_slice().len() {
        return byte;
    }
    let hole = holes.as_slice()[place];
    if hole.at + hole.len != byte {
        return byte;
    }
    holes.remove(place);
    hole.at
}

/// Puts a hole at the place, one with the hole there where that begins at its end.
#[tactic(auto, using(crate::proofs::Places::joined_at))]
fn put_joined(holes: &mut ExtentList, place: usize, at: u64, end: u64)
    requires place { place ≤ length holes.old.extents }
    requires order { at < end }
    requires ends { All (λ h. h.at + h.len < 2 ^ 64) holes.old.extents }
    requires room { place + length (in_front at end (drop place holes.old.extents)) ≤ room_of holes.old }
    ensures extents { holes.new.extents ≡ take place holes.old.extents
        ++ in_front at end (drop place holes.old.extents) }
    ensures room { room_of holes.new ≡ room_of holes.old }
{
    if place < holes.as_slice().len() {
        let behind = holes.as_slice()[place];
        if behind.at == end {
            holes.set(
                place,
                Extent {
                    at,
                    len: behind.at + behind.len - at,
                },
            );
            return;
        }
    }
    holes.put(place, Extent { at, len: end - at });
}
