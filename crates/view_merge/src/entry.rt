//! An entry of the live blocks of others.

ghost use Rattle.std.specs.Prelude.{◌≡◌, ℕ, ◌≤◌, List, map, option_map, IfOk, IfSome};
ghost use Rattle.std.specs.List.{All};
ghost use Rattle.flattener.specs.Fits.{SegmentFits, most_live};
ghost use Rattle.layout.specs.Layout.{alive, segment_of};
ghost use Rattle.mapping.specs.Mapping.{Mapping};
ghost use Rattle.merge_jobs.specs.Job.{live_in_all};
ghost use Rattle.segment_builder.specs.Blocks.{blocks_in, blocks_of, objects_of};
ghost use Rattle.segment_builder.specs.Given.{IsNumbered};
ghost use Rattle.view_merge.specs.Given.{AreFitting, segments_of};

use crate::NoMemory;
use segment::{LiveBits, Segment};
use segment_builder::blocks_are_whole;
use segment_merge::merged;
use segment_view::Entry;
use std::alloc::Global;

/// The entry of a segment, all of it live.
pub fn alive_entry(alloc: Global, id: u128, segment: Segment) -> Result<Entry, NoMemory>
    ensures id { IfOk result (λ entry. entry.id ≡ id) }
    ensures columns { IfOk result (λ entry. entry.columns ≡ segment) }
    ensures blocks { IfOk result (λ entry. blocks_in entry ≡ map alive (blocks_of segment)) }
{
    blocks_are_whole(&segment);
    let live = LiveBits::over(alloc, &segment, &[])?;
    Ok(Entry::new(alloc, id, segment, live)?)
}

/// The entry of the live blocks of some entries, in their order; None where there is none.
pub fn merged_entry(alloc: Global, id: u128, entries: &[Entry]) -> Result<Option<Entry>, NoMemory>
    requires few { objects_of (live_in_all entries.now) ≤ most_live }
    requires made { (m : Mapping) × IsNumbered m × AreFitting m entries.now }
    ensures segments { IfOk result (λ found. segments_of found ≡ segment_of id (live_in_all entries.now)) }
    ensures id { IfOk result (λ found. IfSome found (λ entry. entry.id ≡ id)) }
    ensures fits { (m : Mapping) → AreFitting m entries.now → IfOk result (λ found. IfSome found (λ entry. SegmentFits m entry.columns)) }
{
    match merged(alloc, entries)? {
        Some(segment) => Ok(Some(alive_entry(alloc, id, segment)?)),
        None => Ok(None),
    }
}
