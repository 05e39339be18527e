//! The rows that show the segments of a view.

ghost use Rattle.std.specs.Prelude.{◌≡◌, ◌<◌, length, map, IfOk};
ghost use Rattle.layout.specs.Merges.{summary_of};
ghost use Rattle.merge_jobs.specs.Job.{segment_kept, segments_kept};
ghost use Rattle.segment_builder.specs.Blocks.{block_objects};
ghost use Rattle.view_merge.specs.Given.{number_of_block, summary_shown};

use crate::NoMemory;
use merge_jobs::live_roots;
use segment_builder::blocks_are_whole;
use segment_view::Entry;
use std::alloc::Global;

/// A segment.
#[derive(Clone, Copy, Debug, PartialEq, Eq)]
pub struct SegmentRow {
    /// Its dead roots.
    pub dead: u64,
    /// The number of its first root, live or dead.
    pub first: u64,
    /// The number of its last root, live or dead.
    pub last: u64,
    /// Its live roots.
    pub live: u64,
    /// Its documents, dead ones too.
    pub objects: u64,
}

/// A row for each entry, in order.
pub fn segment_rows(alloc: Global, entries: &[Entry]) -> Result<Vec<SegmentRow>, NoMemory>
    ensures { IfOk result (λ rows. map summary_shown rows.items ≡ map (summary_of block_objects number_of_block) (segments_kept entries.now)) }
{
    let mut rows = Vec::with_capacity(alloc, entries.len())?;
    'entries: for entry in entries {
        rows.push(segment_row(entry))?;
    }
    Ok(rows)
}

/// The row of an entry.
fn segment_row(entry: &Entry) -> SegmentRow
    ensures { summary_shown result ≡ summary_of block_objects number_of_block (segment_kept entry.now) }
{
    let segment = entry.segment();
    let _live = entry.live();
    blocks_are_whole(segment);
    let objects = segment.docs();
    let _first = segment.root_of_doc(0);
    let roots = segment.roots();
    let live = live_roots(entry);
    SegmentRow {
        dead: (roots - live) as u64,
        first: segment.root_number(0),
        last: segment.root_number(roots - 1),
        live: live as u64,
        objects: objects as u64,
    }
}
