//! What a merge made before it is finished.

ghost use Rattle.std.specs.Prelude.{◌≡◌, ◌↔◌, ◌≤◌, List, IfOk, IsTrue};
ghost use Rattle.std.specs.List.{All};
ghost use Rattle.flattener.specs.Fits.{SegmentFits, most_live};
ghost use Rattle.mapping.specs.Mapping.{Mapping};
ghost use Rattle.merge_jobs.specs.Job.{AreLater, live_in_all};
ghost use Rattle.merge_jobs.specs.Made.{IsMadeOf};
ghost use Rattle.segment.specs.Live.{EntryState};
ghost use Rattle.segment_builder.specs.Blocks.{objects_of};
ghost use Rattle.segment_builder.specs.Given.{IsNumbered};

use crate::NoMemory;
use block_bits::words_are_of_one_set;
use segment::Segment;
use segment_merge::merged;
use segment_view::Entry;
use std::alloc::Global;
use std::marker::Model;

/// Entries, pinned as they were when they were merged, and the segment of their live blocks; None where no block was live.
#[derive(Drop)]
pub(crate) struct Made {
    entries: Vec<Entry>,
    segment: Option<Segment>,
}

impl Model for Made {
    ghost use Rattle.std.specs.Prelude.{List};
    ghost use Rattle.segment.specs.Live.{EntryState};
    ghost use Rattle.merge_jobs.specs.Made.{IsMadeOf};

    ghost Value = { List EntryState };

    ghost view = { λ it. it.entries.items };

    ghost invariant = { λ it. IsMadeOf it.entries.items it.segment };
}

impl Made {
    /// What is live in some entries now, merged.
    pub(crate) fn of(alloc: Global, entries: &[Entry]) -> Result<Made, NoMemory>
        requires few { objects_of (live_in_all entries.now) ≤ most_live }
        requires made { (m : Mapping) × IsNumbered m × All (λ entry. SegmentFits m entry.columns) entries.now }
        ensures { IfOk result (λ made. made ≡ entries.now) }
    {
        let pinned = pinned(alloc, entries)?;
        let segment = merged(alloc, entries)?;
        Ok(Made {
            entries: pinned,
            segment,
        })
    }

    /// Whether it was made of entries as these are: the same segments, in which the same roots are live.
    pub(crate) fn is_of(&self, entries: &[Entry]) -> bool
        requires { (parts : List EntryState) × AreLater parts self.now × AreLater parts entries.now }
        ensures { IsTrue result ↔ (self.now ≡ entries.now) }
    {
        'entries: for index in 0..entries.len() {
            if !is_same(&self.entries[index], &entries[index]) {
                return false;
            }
        }
        true
    }

    /// The segment that was made.
    pub(crate) fn into_segment(self) -> Option<Segment>
        ensures { IsMadeOf self result }
    {
        let Made {
            entries: _entries,
            segment,
        } = self;
        segment
    }
}

/// The same entries once more. No segment and no bits are copied.
pub(crate) fn pinned(alloc: Global, entries: &[Entry]) -> Result<Vec<Entry>, NoMemory>
    ensures { IfOk result (λ pinned. pinned.items ≡ entries.now) }
{
    let mut pinned = Vec::with_capacity(alloc, entries.len())?;
    'entries: for entry in entries {
        pinned.push(entry.share()?)?;
    }
    Ok(pinned)
}

/// Whether two entries of one segment have the same live roots, and so are the same.
fn is_same(one: &Entry, other: &Entry) -> bool
    requires id { one.now.id ≡ other.now.id }
    requires columns { one.now.columns ≡ other.now.columns }
    ensures { IsTrue result ↔ (one.now ≡ other.now) }
{
    words_are_of_one_set();
    let (live, others) = (one.live(), other.live());
    live.live_roots().words() == others.live_roots().words()
}
