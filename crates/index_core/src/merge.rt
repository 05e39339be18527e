//! The merge calls: what they answer, and when they are refused.

ghost use Rattle.std.specs.Prelude.{◌≡◌, ◌<◌, find, length};
ghost use Rattle.std.specs.Option.{option_map};
ghost use Rattle.flattener.specs.Block.{BlockState};
ghost use Rattle.layout.specs.Layout.{Layout};
ghost use Rattle.layout.specs.Merges.{finish_fault, force_fault, has_merge_id, start_fault, step_fault};
ghost use Rattle.merge_jobs.specs.Open.{merge_shown, merges_shown};
ghost use Rattle.index_core.specs.Merge.{refusal_of};

use crate::NoMemory;
use merge_jobs::{MergeRow, overlapping};
use view_merge::SegmentRow;

/// What a merge call did.
#[derive(Clone, Copy, Debug, PartialEq, Eq)]
pub struct MergeDone {
    /// The merge's id; 0 for a forced merge, which takes none.
    pub id: u64,
    /// The roots of a start, those left of an advance, the live ones of a finish, 0 of an abort; the segments that a forced
    /// merge leaves.
    pub count: u64,
}

/// Why a merge call wasn't done.
#[derive(Clone, Copy, Debug, PartialEq, Eq)]
pub enum MergeRefusal {
    /// The range is empty or ends past the segments.
    BadRange,
    /// The range shares a segment with this open merge, the least of its kind.
    Overlaps(u64),
    /// As many merges as can be are open.
    TooMany,
    /// No merge with the id is open.
    Unknown,
    /// So many roots are left.
    NotDone(u64),
    /// Memory ran out, or no id is left for a segment or a merge.
    NoMemory,
}

impl From<NoMemory> for MergeRefusal {
    ghost use Rattle.std.specs.Prelude.{◌≡◌};
    ghost use Rattle.index_core.specs.declared.merge.MergeRefusal.TheVariants.{NoMemory};

    ghost from_gives = { λ _ e. e ≡ NoMemory };

    fn from(_: crate::refusal::NoMemory) -> MergeRefusal {
        MergeRefusal::NoMemory
    }
}

/// The rows that show a layout.
#[derive(Debug, Drop)]
pub struct LayoutRows {
    /// The segments, in order.
    pub segments: Vec<SegmentRow>,
    /// The open merges, by their ids.
    pub merges: Vec<MergeRow>,
}

/// How many merges can be open.
const MOST_MERGES: usize = 16;

/// Why the start of a merge is refused, beside these open merges and so many segments.
pub(crate) fn start_refusal(
    merges: &[MergeRow],
    segments: u64,
    from: u64,
    count: u64,
) -> Option<MergeRefusal>
    ensures { (layout : Layout BlockState) → layout.merges ≡ merges_shown merges.now → length layout.segments ≡ segments → result ≡ option_map refusal_of (start_fault from count layout) }
{
    if count == 0 || from as u128 + count as u128 > segments as u128 {
        return Some(MergeRefusal::BadRange);
    }
    if let Some(id) = overlapping(merges, from, count) {
        return Some(MergeRefusal::Overlaps(id));
    }
    if merges.len() >= MOST_MERGES {
        return Some(MergeRefusal::TooMany);
    }
    None
}

/// Why a forced merge is refused, beside these open merges and so many segments.
pub(crate) fn force_refusal(merges: &[MergeRow], segments: u64, most: u64) -> Option<MergeRefusal>
    requires { 0 < most }
    ensures { (layout : Layout BlockState) → layout.merges ≡ merges_shown merges.now → length layout.segments ≡ segments → result ≡ option_map refusal_of (force_fault most layout) }
{
    if segments < most {
        return None;
    }
    match overlapping(merges, most - 1, segments - (most - 1)) {
        Some(id) => Some(MergeRefusal::Overlaps(id)),
        None => None,
    }
}

/// Why a step or an abort of the merge with an id is refused, beside these open merges.
pub(crate) fn step_refusal(merges: &[MergeRow], id: u64) -> Option<MergeRefusal>
    ensures { (layout : Layout BlockState) → layout.merges ≡ merges_shown merges.now → result ≡ option_map refusal_of (step_fault id layout) }
{
    match row_named(merges, id) {
        Some(_) => None,
        None => Some(MergeRefusal::Unknown),
    }
}

/// Why the finish of the merge with an id is refused, beside these open merges.
pub(crate) fn finish_refusal(merges: &[MergeRow], id: u64) -> Option<MergeRefusal>
    ensures { (layout : Layout BlockState) → layout.merges ≡ merges_shown merges.now → result ≡ option_map refusal_of (finish_fault id layout) }
{
    match row_named(merges, id) {
        Some(row) => {
            if row.left > 0 {
                Some(MergeRefusal::NotDone(row.left))
            } else {
                None
            }
        }
        None => Some(MergeRefusal::Unknown),
    }
}

/// The open merge with an id.
fn row_named(merges: &[MergeRow], id: u64) -> Option<MergeRow>
    ensures { option_map merge_shown result ≡ find (has_merge_id id) (merges_shown merges.now) }
{
    'merges: for row in merges {
        if row.merge == id {
            return Some(*row);
        }
    }
    None
}
