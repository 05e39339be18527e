//! The segment that the text of merged columns is.

ghost use Rattle.std.specs.Prelude.{◌≡◌, IfOk};
ghost use Rattle.std.specs.List.{All, flat_map};
ghost use Rattle.flattener.specs.Fits.{SegmentFits};
ghost use Rattle.mapping.specs.Mapping.{Mapping};
ghost use Rattle.segment_builder.specs.Blocks.{blocks_of, live_blocks};
ghost use Rattle.segment_merge.specs.Mergeable.{AreMergeable};
ghost use Rattle.segment_merge.specs.Merged.{IsMerged};
ghost use Rattle.segment_parts.specs.Text.{segment_text};
ghost use Rattle.segment_parts.specs.declared.columns.Columns.{Columns};

use crate::NoMemory;
use crate::law::{merged_columns_agree, merged_segments_are_live_blocks};
use block_bits::words_are_of_one_set;
use segment::Segment;
use segment_view::Entry;
use std::alloc::Global;
use stored_sources::Bytes;

/// The segment of bytes that are the text of columns merged of entries: it has the live blocks of the entries.
pub(crate) fn segment_of(
    alloc: Global,
    entries: &[Entry],
    bytes: Vec<u8>,
) -> Result<Segment, NoMemory>
    requires mergeable { (m : Mapping) × AreMergeable m entries.now }
    requires merged { (columns : Columns) × IsMerged entries.now columns × (bytes.items ≡ segment_text columns) }
    ensures blocks { IfOk result (λ segment. blocks_of segment ≡ flat_map live_blocks entries.now) }
    ensures fits { (m : Mapping) → All (λ entry. SegmentFits m entry.columns) entries.now → IfOk result (λ segment. SegmentFits m segment) }
{
    words_are_of_one_set();
    merged_columns_agree(entries);
    let _length = bytes.len();
    let segment = Segment::of_text(alloc, Bytes::of(bytes))?;
    merged_segments_are_live_blocks(entries, &segment);
    Ok(segment)
}
