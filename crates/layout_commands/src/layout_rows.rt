//! The rows of the layout.

ghost use Rattle.std.specs.Prelude.{◌≡◌, map, IfOk};
ghost use Rattle.index_core.specs.Kept.{block_number, layout_kept};
ghost use Rattle.machine.specs.Merging.{layout_rows};
ghost use Rattle.segment_builder.specs.Blocks.{block_objects};
ghost use Rattle.layout_commands.specs.Ends.{merge_row_of, segment_row_of};

use index_core::{IndexCore, LayoutRows, NoMemory};
use reply_text::{MergeRow, MergeRows, Reply, SegmentRow, SegmentRows};
use std::alloc::Global;

/// The rows of the segments and of the open merges, as they stand.
pub fn rows(alloc: Global, index: &IndexCore) -> Result<Reply, NoMemory>
    ensures { IfOk result (λ reply. reply ≡ layout_rows block_objects block_number (layout_kept index.now)) }
{
    let LayoutRows { segments, merges } = index.segments()?;
    Ok(Reply::Layout {
        merges: MergeRows::of(merge_rows(alloc, merges.as_slice())?),
        segments: SegmentRows::of(segment_rows(alloc, segments.as_slice())?),
    })
}

/// The rows of open merges.
fn merge_rows(alloc: Global, merges: &[index_core::MergeRow]) -> Result<Vec<MergeRow>, NoMemory>
    ensures { IfOk result (λ rows. rows.items ≡ map merge_row_of merges.now) }
{
    let mut rows = Vec::with_capacity(alloc, merges.len())?;
    'merges: for merge in merges {
        rows.push(MergeRow {
            count: merge.count,
            from: merge.from,
            left: merge.left,
            merge: merge.merge,
        })?;
    }
    Ok(rows)
}

/// The rows of segments.
fn segment_rows(
    alloc: Global,
    segments: &[index_core::SegmentRow],
) -> Result<Vec<SegmentRow>, NoMemory>
    ensures { IfOk result (λ rows. rows.items ≡ map segment_row_of segments.now) }
{
    let mut rows = Vec::with_capacity(alloc, segments.len())?;
    'segments: for segment in segments {
        rows.push(SegmentRow {
            dead: segment.dead,
            first: segment.first,
            last: segment.last,
            live: segment.live,
            objects: segment.objects,
        })?;
    }
    Ok(rows)
}
