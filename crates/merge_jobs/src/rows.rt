//! Open merges as rows: their places before and after neighbours gave way, and which of them have a segment.

ghost use Rattle.std.specs.Prelude.{◌≡◌, count_by, find, map};
ghost use Rattle.std.specs.List.{list_any};
ghost use Rattle.std.specs.Option.{option_map};
ghost use Rattle.layout.specs.Layout.{covers};
ghost use Rattle.layout.specs.Merges.{merge_id, shares};
ghost use Rattle.merge_jobs.specs.Open.{merge_shown, merges_shown};
ghost use Rattle.merge_policy.specs.Runs.{ends_before, moved};

use merge_policy::Run;

/// An open merge.
#[derive(Clone, Copy, Debug, PartialEq, Eq)]
pub struct MergeRow {
    /// How many neighbours it merges.
    pub count: u64,
    /// The place of the first of them.
    pub from: u64,
    /// How many roots are left.
    pub left: u64,
    /// Its id.
    pub merge: u64,
}

impl MergeRow {
    /// Whether a segment of a range is among its neighbours.
    fn shares(&self, from: u64, count: u64) -> bool
        ensures { result ≡ shares from count (merge_shown self.now) }
    {
        (self.from as u128) < from as u128 + count as u128
            && (from as u128) < self.from as u128 + self.count as u128
    }

    /// Whether the segment at a place is among its neighbours.
    fn covers(&self, index: u64) -> bool
        ensures { result ≡ covers index (merge_shown self.now) }
    {
        self.from <= index && (index as u128) < self.from as u128 + self.count as u128
    }
}

/// The least id of an open merge that has a segment of a range.
pub fn overlapping(rows: &[MergeRow], from: u64, count: u64) -> Option<u64>
    ensures { result ≡ option_map merge_id (find (shares from count) (merges_shown rows.now)) }
{
    'rows: for row in rows {
        if row.shares(from, count) {
            return Some(row.merge);
        }
    }
    None
}

/// Whether an open merge has the segment at a place.
pub fn is_held(rows: &[MergeRow], index: u64) -> bool
    ensures { result ≡ list_any (covers index) (merges_shown rows.now) }
{
    'rows: for row in rows {
        if row.covers(index) {
            return true;
        }
    }
    false
}

/// Moves each merge behind the runs that end before it.
pub fn move_behind(rows: &mut Vec<MergeRow>, runs: &[Run])
    ensures { merges_shown rows.new.items ≡ map (moved runs.now) (merges_shown rows.old.items) }
{
    'rows: for row in rows.iter_mut() {
        row.from = count_before(runs, row.from);
    }
}

/// How many runs end before a place.
fn count_before(runs: &[Run], index: u64) -> u64
    ensures { result ≡ count_by (ends_before index) runs.now }
{
    let mut count = 0;
    'runs: for run in runs {
        if run.last < index {
            count += 1;
        }
    }
    count
}
