//! What columns that are merged of entries are, as laws: call the function where you need its clauses.

ghost use Rattle.std.specs.Prelude.{◌≡◌, ◌<◌, ◌^◌, length};
ghost use Rattle.std.specs.List.{All, flat_map};
ghost use Rattle.flattener.specs.Fits.{SegmentFits};
ghost use Rattle.mapping.specs.Mapping.{Mapping};
ghost use Rattle.segment_builder.specs.Blocks.{blocks_of, live_blocks, objects_of};
ghost use Rattle.segment_merge.specs.Mergeable.{AreMergeable, IsKnown};
ghost use Rattle.segment_merge.specs.Merged.{IsMerged, live_count_of, live_roots};
ghost use Rattle.segment_parts.specs.Agree.{AreColumns};
ghost use Rattle.segment_parts.specs.Text.{segment_text};
ghost use Rattle.segment_parts.specs.declared.columns.Columns.{Columns};

use segment::Segment;
use segment_builder::{
    blocks_carry_what_documents_carry, columns_by_key_are_made, documents_live_with_their_blocks,
    fitting_segments_are_blocks, made_columns_agree, made_segments_are_blocks,
    segments_say_what_documents_carry,
};
use segment_view::Entry;

/// Columns that are merged of entries are those of one segment, where their text isn't longer than memory can be. Does nothing.
pub(crate) fn merged_columns_agree(entries: &[Entry])
    ensures { (m : Mapping) (columns : Columns) → AreMergeable m entries.now → IsMerged entries.now columns → length (segment_text columns) < 2 ^ 64 → AreColumns columns }
{
    entries_are_known(entries);
    fitting_segments_are_blocks();
    blocks_carry_what_documents_carry();
    columns_by_key_are_made();
    made_columns_agree();
}

/// A segment whose columns are merged of entries has their live blocks, in order, and fits each mapping that all of them
/// fit. Does nothing.
pub(crate) fn merged_segments_are_live_blocks(entries: &[Entry], segment: &Segment)
    ensures blocks { (m : Mapping) → AreMergeable m entries.now → IsMerged entries.now segment.now → blocks_of segment.now ≡ flat_map live_blocks entries.now }
    ensures fits { (m other : Mapping) → AreMergeable m entries.now → IsMerged entries.now segment.now → All (λ entry. SegmentFits other entry.columns) entries.now
        → SegmentFits other segment.now }
{
    entries_are_known(entries);
    fitting_segments_are_blocks();
    blocks_carry_what_documents_carry();
    columns_by_key_are_made();
    made_segments_are_blocks(segment);
}

/// The live blocks of entries have as many objects as documents are live, and are as many as the live roots. Does nothing.
pub(crate) fn live_blocks_are_counted(entries: &[Entry])
    ensures objects { (m : Mapping) → All (λ entry. SegmentFits m entry.columns) entries.now → objects_of (flat_map live_blocks entries.now) ≡ live_count_of entries.now }
    ensures blocks { (m : Mapping) → All (λ entry. SegmentFits m entry.columns) entries.now → length (flat_map live_blocks entries.now) ≡ length (live_roots entries.now) }
{
    entries_are_known(entries);
    fitting_segments_are_blocks();
    blocks_carry_what_documents_carry();
}

/// What is known of each entry. Does nothing.
fn entries_are_known(entries: &[Entry])
    ensures { All IsKnown entries.now }
{
    'entries: for entry in entries {
        entry_is_known(entry);
    }
}

/// What is known of an entry. Does nothing.
fn entry_is_known(entry: &Entry)
    ensures { IsKnown entry.now }
{
    let segment = entry.segment();
    let _documents = segment.docs();
    let _live = entry.live();
    documents_live_with_their_blocks(segment);
    segments_say_what_documents_carry(segment);
}
