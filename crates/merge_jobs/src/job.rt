//! A merge in pieces.

ghost use Rattle.std.specs.Prelude.{◌≡◌, ◌↔◌, ◌-◌, ◌≤◌, List, [], length, IfOk, IfSome, IsNone, OnOk, OnErr};
ghost use Rattle.std.specs.List.{All};
ghost use Rattle.flattener.specs.Fits.{SegmentFits, most_live};
ghost use Rattle.mapping.specs.Mapping.{Mapping};
ghost use Rattle.merge_jobs.specs.Job.{AreLater, live_in_all};
ghost use Rattle.merge_jobs.specs.Made.{IsMadeLater};
ghost use Rattle.segment.specs.Live.{EntryState};
ghost use Rattle.segment_builder.specs.Blocks.{blocks_of, objects_of};
ghost use Rattle.segment_builder.specs.Given.{IsNumbered};

use crate::NoMemory;
use crate::counted::live_roots_in;
use crate::made::{Made, pinned};
use segment::Segment;
use segment_merge::merged;
use segment_view::Entry;
use std::alloc::Global;
use std::marker::Model;

/// The entries that a merge was started on, pinned as they were then, how many of their live roots are left to walk, and what
/// was made when none was left.
#[derive(Drop)]
pub struct MergeJob {
    parts: Vec<Entry>,
    left: u64,
    made: Option<Made>,
}

impl Model for MergeJob {
    ghost use Rattle.merge_jobs.specs.Job.{JobState};
    ghost use Rattle.merge_jobs.specs.Made.{IsMadeLater};

    ghost Value = { JobState };

    ghost view = { λ job. record { parts = job.parts.items; left = job.left } };

    ghost invariant = { λ job. IsMadeLater job.parts.items job.made };
}

impl MergeJob {
    /// A merge of entries, all live roots of which are left. No segment and no bits are copied.
    pub fn start(alloc: Global, entries: &[Entry]) -> Result<MergeJob, NoMemory>
        requires { objects_of (live_in_all entries.now) ≤ most_live }
        ensures { IfOk result (λ job. job ≡ record { parts = entries.now; left = length (live_in_all entries.now) }) }
    {
        Ok(MergeJob {
            parts: pinned(alloc, entries)?,
            left: live_roots_in(entries),
            made: None,
        })
    }

    /// How many roots are left.
    pub fn left(&self) -> u64
        ensures { result ≡ self.now.left }
    {
        self.left
    }

    /// Walks so many roots further, or those that are left, whether they died since the start or not. How many are left then.
    /// Once none is left, the segment of what is live in the entries now is made, and kept until the finish.
    pub fn advance(&mut self, alloc: Global, entries: &[Entry], roots: u64) -> Result<u64, NoMemory>
        requires same { AreLater self.old.parts entries.now }
        requires few { objects_of (live_in_all entries.now) ≤ most_live }
        requires made { (m : Mapping) × IsNumbered m × All (λ entry. SegmentFits m entry.columns) entries.now }
        ensures left { OnOk result (self.new ≡ record self.old { left = self.old.left - roots }) }
        ensures told { IfOk result (λ left. left ≡ self.old.left - roots) }
        ensures same { OnErr result (self.new ≡ self.old) }
    {
        let left = self.left.saturating_sub(roots);
        if left == 0 {
            make(alloc, &mut self.made, entries)?;
        }
        self.left = left;
        Ok(left)
    }

    /// The segment of the blocks that are live in the entries now, once no root is left; None where none is live. It is the one
    /// that was made by then, if no root died since, and is made now otherwise. In both cases it is kept no longer.
    pub fn finish(&mut self, alloc: Global, entries: &[Entry]) -> Result<Option<Segment>, NoMemory>
        requires done { self.old.left ≡ 0 }
        requires same { AreLater self.old.parts entries.now }
        requires few { objects_of (live_in_all entries.now) ≤ most_live }
        requires made { (m : Mapping) × IsNumbered m × All (λ entry. SegmentFits m entry.columns) entries.now }
        ensures none { IfOk result (λ found. IsNone found ↔ (live_in_all entries.now ≡ [])) }
        ensures blocks { IfOk result (λ found. IfSome found (λ segment. blocks_of segment ≡ live_in_all entries.now)) }
        ensures fits { (m : Mapping) → All (λ entry. SegmentFits m entry.columns) entries.now → IfOk result (λ found. IfSome found (λ segment. SegmentFits m segment)) }
        ensures same { self.new ≡ self.old }
    {
        if let Some(made) = self.made.take() {
            if made.is_of(entries) {
                return Ok(made.into_segment());
            }
        }
        Ok(merged(alloc, entries)?)
    }
}

/// Makes what is live in entries now, unless it was made of entries as these are.
fn make(alloc: Global, made: &mut Option<Made>, entries: &[Entry]) -> Result<(), NoMemory>
    requires later { (parts : List EntryState) × IsMadeLater parts made.old × AreLater parts entries.now }
    requires few { objects_of (live_in_all entries.now) ≤ most_live }
    requires made { (m : Mapping) × IsNumbered m × All (λ entry. SegmentFits m entry.columns) entries.now }
    ensures { (parts : List EntryState) → IsMadeLater parts made.old → AreLater parts entries.now → IsMadeLater parts made.new }
{
    if let Some(kept) = made {
        if kept.is_of(entries) {
            return Ok(());
        }
    }
    // what was made before is of no use, and leaves its room to what is made now
    *made = None;
    *made = Some(Made::of(alloc, entries)?);
    Ok(())
}
