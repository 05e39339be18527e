//! The merges that are open, by ascending ids.

ghost use Rattle.std.specs.Prelude.{◌≡◌, ◌↔◌, ℕ, ◌+◌, ◌-◌, ◌<◌, ◌≤◌, ◌++◌, ◌∷◌, [], List, drop, filter, find, length, map, set, slice_get, take, vec_len, IsNone, IsSome, Some, IfSome, IfOk, OnOk, OnErr};
ghost use Rattle.std.specs.List.{All};
ghost use Rattle.std.specs.Option.{option_map};
ghost use Rattle.flattener.specs.Fits.{SegmentFits, most_live};
ghost use Rattle.layout.specs.Ascending.{Ascend};
ghost use Rattle.layout.specs.Layout.{OpenMerge, shifted};
ghost use Rattle.layout.specs.Merges.{advanced_if, merge_id};
ghost use Rattle.mapping.specs.Mapping.{Mapping};
ghost use Rattle.merge_jobs.specs.Job.{AreLater, live_in_all};
ghost use Rattle.merge_jobs.specs.Open.{OpenState, at_rows, is_named, is_other_than, merge_shown, merges_in, merges_shown, parts_in, placeless, with_merge};
ghost use Rattle.segment_builder.specs.Blocks.{blocks_of, objects_of};
ghost use Rattle.segment_builder.specs.Given.{IsNumbered};

use crate::{MergeJob, MergeRow, NoMemory};
use segment::Segment;
use segment_view::Entry;
use std::alloc::Global;
use std::marker::Model;

/// An open merge: its id, the place of its first segment, how many segments it merges, and its job.
#[derive(Drop)]
pub struct OpenJob {
    id: u64,
    from: u64,
    count: u64,
    job: MergeJob,
}

impl Model for OpenJob {
    ghost use Rattle.merge_jobs.specs.Open.{OpenState};

    ghost Value = { OpenState };

    ghost view = { λ it. record { merge = record { id = it.id; from = it.from; count = it.count; left = it.job.left }; parts = it.job.parts } };
}

impl OpenJob {
    /// The place of the first segment.
    pub fn from(&self) -> u64
        ensures { result ≡ self.now.merge.from }
    {
        self.from
    }

    /// How many segments it merges.
    pub fn count(&self) -> u64
        ensures { result ≡ self.now.merge.count }
    {
        self.count
    }

    /// Its row.
    fn row(&self) -> MergeRow
        ensures { merge_shown result ≡ self.now.merge }
    {
        MergeRow {
            count: self.count,
            from: self.from,
            left: self.job.left(),
            merge: self.id,
        }
    }

    /// Walks so many roots further, or those that are left. How many are left then.
    fn advance(&mut self, alloc: Global, entries: &[Entry], roots: u64) -> Result<u64, NoMemory>
        requires same { AreLater self.old.parts entries.now }
        requires few { objects_of (live_in_all entries.now) ≤ most_live }
        requires made { (m : Mapping) × IsNumbered m × All (λ entry. SegmentFits m entry.columns) entries.now }
        ensures advanced { OnOk result (self.new ≡ record self.old { merge = record self.old.merge { left = self.old.merge.left - roots } }) }
        ensures left { IfOk result (λ left. left ≡ self.old.merge.left - roots) }
        ensures same { OnErr result (self.new ≡ self.old) }
    {
        self.job.advance(alloc, entries, roots)
    }

    /// The segment of the blocks that are live in the entries now, or None where none is live.
    fn finish(&mut self, alloc: Global, entries: &[Entry]) -> Result<Option<Segment>, NoMemory>
        requires done { self.old.merge.left ≡ 0 }
        requires same { AreLater self.old.parts entries.now }
        requires few { objects_of (live_in_all entries.now) ≤ most_live }
        requires made { (m : Mapping) × IsNumbered m × All (λ entry. SegmentFits m entry.columns) entries.now }
        ensures none { IfOk result (λ found. IsNone found ↔ (live_in_all entries.now ≡ [])) }
        ensures blocks { IfOk result (λ found. IfSome found (λ segment. blocks_of segment ≡ live_in_all entries.now)) }
        ensures fits { (m : Mapping) → All (λ entry. SegmentFits m entry.columns) entries.now → IfOk result (λ found. IfSome found (λ segment. SegmentFits m segment)) }
        ensures same { self.new ≡ self.old }
    {
        self.job.finish(alloc, entries)
    }

    /// Moves where a range before it gave way to so many segments.
    fn shift(&mut self, from: u64, count: u64, by: u64)
        requires { by ≤ count }
        ensures { self.new ≡ with_merge (shifted from count by) self.old }
    {
        if from as u128 + count as u128 <= self.from as u128 {
            self.from = self.from - count + by;
        }
    }
}

/// The merges that are open.
#[derive(Drop)]
pub struct OpenJobs {
    jobs: Vec<OpenJob>,
}

impl Model for OpenJobs {
    ghost use Rattle.std.specs.Prelude.{List};
    ghost use Rattle.merge_jobs.specs.Open.{OpenState};

    ghost Value = { List OpenState };

    ghost view = { λ it. it.jobs.items };
}

impl OpenJobs {
    /// No merge is open. Takes no memory.
    pub fn empty(alloc: Global) -> OpenJobs
        ensures { result ≡ [] }
    {
        OpenJobs {
            jobs: Vec::new(alloc),
        }
    }

    /// The merge with an id.
    pub fn named(&self, id: u64) -> Option<&OpenJob>
        ensures { option_map (λ job. job.now) result ≡ find (is_named id) self.now }
    {
        'jobs: for job in &self.jobs {
            if job.id == id {
                return Some(job);
            }
        }
        None
    }

    /// A row for each merge.
    pub fn rows(&self, alloc: Global) -> Result<Vec<MergeRow>, NoMemory>
        ensures { IfOk result (λ rows. merges_shown rows.items ≡ merges_in self.now) }
    {
        let mut rows = Vec::with_capacity(alloc, self.jobs.len())?;
        'jobs: for job in &self.jobs {
            rows.push(job.row())?;
        }
        Ok(rows)
    }

    /// Opens a merge behind the others.
    pub fn open(&mut self, id: u64, from: u64, count: u64, job: MergeJob) -> Result<(), NoMemory>
        ensures opened { OnOk result (self.new ≡ self.old ++ record { merge = record { id = id; from = from; count = count; left = job.left }; parts = job.parts } ∷ []) }
        ensures same { OnErr result (self.new ≡ self.old) }
    {
        self.jobs.push(OpenJob {
            id,
            from,
            count,
            job,
        })?;
        Ok(())
    }

    /// Walks so many roots of the merge with an id further, or those that are left, given its neighbours as they are now. How
    /// many are left then.
    pub fn advance(
        &mut self,
        alloc: Global,
        id: u64,
        entries: &[Entry],
        roots: u64,
    ) -> Result<u64, NoMemory>
        requires open { IsSome (find (is_named id) self.old) }
        requires ids { (end : ℕ) × Ascend 1 (map merge_id (merges_in self.old)) end }
        requires same { (job : OpenState) → find (is_named id) self.old ≡ Some job → AreLater job.parts entries.now }
        requires few { objects_of (live_in_all entries.now) ≤ most_live }
        requires made { (m : Mapping) × IsNumbered m × All (λ entry. SegmentFits m entry.columns) entries.now }
        ensures advanced { OnOk result (self.new ≡ map (with_merge (advanced_if id roots)) self.old) }
        ensures left { (job : OpenState) → find (is_named id) self.old ≡ Some job → IfOk result (λ left. left ≡ job.merge.left - roots) }
        ensures same { OnErr result (self.new ≡ self.old) }
    {
        let index = place_of(self.jobs.as_slice(), id);
        advance_at(alloc, &mut self.jobs, index, entries, roots)
    }

    /// The segment of the blocks that are live now in the neighbours of the merge with an id, which has no root left; None where
    /// none is live. The merge stays open.
    pub fn finish(
        &mut self,
        alloc: Global,
        id: u64,
        entries: &[Entry],
    ) -> Result<Option<Segment>, NoMemory>
        requires open { IsSome (find (is_named id) self.old) }
        requires done { (job : OpenState) → find (is_named id) self.old ≡ Some job → job.merge.left ≡ 0 }
        requires same { (job : OpenState) → find (is_named id) self.old ≡ Some job → AreLater job.parts entries.now }
        requires few { objects_of (live_in_all entries.now) ≤ most_live }
        requires made { (m : Mapping) × IsNumbered m × All (λ entry. SegmentFits m entry.columns) entries.now }
        ensures none { IfOk result (λ found. IsNone found ↔ (live_in_all entries.now ≡ [])) }
        ensures blocks { IfOk result (λ found. IfSome found (λ segment. blocks_of segment ≡ live_in_all entries.now)) }
        ensures fits { (m : Mapping) → All (λ entry. SegmentFits m entry.columns) entries.now → IfOk result (λ found. IfSome found (λ segment. SegmentFits m segment)) }
        ensures same { self.new ≡ self.old }
    {
        let index = place_of(self.jobs.as_slice(), id);
        finish_at(alloc, &mut self.jobs, index, entries)
    }

    /// Closes the merge with an id, and lets go of what its job keeps.
    pub fn close(&mut self, id: u64)
        requires open { IsSome (find (is_named id) self.old) }
        requires ids { (end : ℕ) × Ascend 1 (map merge_id (merges_in self.old)) end }
        ensures { self.new ≡ filter (is_other_than id) self.old }
    {
        let index = place_of(self.jobs.as_slice(), id);
        remove_at(&mut self.jobs, index);
    }

    /// Moves the merges behind a range that gave way to so many segments.
    pub fn shift(&mut self, from: u64, count: u64, by: u64)
        requires { by ≤ count }
        ensures { self.new ≡ map (with_merge (shifted from count by)) self.old }
    {
        shift_all(&mut self.jobs, from, count, by);
    }

    /// Moves each merge to the place that its row has.
    pub fn place(&mut self, rows: &[MergeRow])
        requires { map placeless (merges_shown rows.now) ≡ map placeless (merges_in self.old) }
        ensures merges { merges_in self.new ≡ merges_shown rows.now }
        ensures parts { map parts_in self.new ≡ map parts_in self.old }
    {
        place_all(&mut self.jobs, rows);
    }
}

/// The index of the merge with an id.
fn place_of(jobs: &[OpenJob], id: u64) -> usize
    requires { IsSome (find (is_named id) jobs.now) }
    ensures within { result < length jobs.now }
    ensures found { slice_get jobs.now result ≡ find (is_named id) jobs.now }
{
    'jobs: for index in 0..jobs.len() {
        let job = &jobs[index];
        if job.id == id {
            return index;
        }
    }
    0
}

/// Walks so many roots of the merge at an index further.
fn advance_at(
    alloc: Global,
    jobs: &mut Vec<OpenJob>,
    index: usize,
    entries: &[Entry],
    roots: u64,
) -> Result<u64, NoMemory>
    requires within { index < vec_len jobs.old }
    requires same { (job : OpenState) → slice_get jobs.old.items index ≡ Some job → AreLater job.parts entries.now }
    requires few { objects_of (live_in_all entries.now) ≤ most_live }
    requires made { (m : Mapping) × IsNumbered m × All (λ entry. SegmentFits m entry.columns) entries.now }
    ensures advanced { (job : OpenState) → slice_get jobs.old.items index ≡ Some job → OnOk result (jobs.new.items ≡ set jobs.old.items index (record job { merge = record job.merge { left = job.merge.left - roots } })) }
    ensures left { (job : OpenState) → slice_get jobs.old.items index ≡ Some job → IfOk result (λ left. left ≡ job.merge.left - roots) }
    ensures same { OnErr result (jobs.new.items ≡ jobs.old.items) }
{
    let open = &mut jobs[index];
    open.advance(alloc, entries, roots)
}

/// The segment of the blocks that are live now in the neighbours of the merge at an index, or None where none is live.
fn finish_at(
    alloc: Global,
    jobs: &mut Vec<OpenJob>,
    index: usize,
    entries: &[Entry],
) -> Result<Option<Segment>, NoMemory>
    requires within { index < vec_len jobs.old }
    requires done { (job : OpenState) → slice_get jobs.old.items index ≡ Some job → job.merge.left ≡ 0 }
    requires same { (job : OpenState) → slice_get jobs.old.items index ≡ Some job → AreLater job.parts entries.now }
    requires few { objects_of (live_in_all entries.now) ≤ most_live }
    requires made { (m : Mapping) × IsNumbered m × All (λ entry. SegmentFits m entry.columns) entries.now }
    ensures none { IfOk result (λ found. IsNone found ↔ (live_in_all entries.now ≡ [])) }
    ensures blocks { IfOk result (λ found. IfSome found (λ segment. blocks_of segment ≡ live_in_all entries.now)) }
    ensures fits { (m : Mapping) → All (λ entry. SegmentFits m entry.columns) entries.now → IfOk result (λ found. IfSome found (λ segment. SegmentFits m segment)) }
    ensures same { jobs.new.items ≡ jobs.old.items }
{
    let open = &mut jobs[index];
    open.finish(alloc, entries)
}

/// Takes the merge at an index out.
fn remove_at(jobs: &mut Vec<OpenJob>, index: usize)
    requires { index < vec_len jobs.old }
    ensures { jobs.new.items ≡ take index jobs.old.items ++ drop (index + 1) jobs.old.items }
{
    jobs.remove(index);
}

/// Moves the merges behind a range that gave way to so many segments.
fn shift_all(jobs: &mut Vec<OpenJob>, from: u64, count: u64, by: u64)
    requires { by ≤ count }
    ensures { jobs.new.items ≡ map (with_merge (shifted from count by)) jobs.old.items }
{
    'jobs: for job in jobs.iter_mut() {
        job.shift(from, count, by);
    }
}

/// Moves each merge to the place that its row has.
fn place_all(jobs: &mut Vec<OpenJob>, rows: &[MergeRow])
    requires { length rows.now ≡ vec_len jobs.old }
    ensures { jobs.new.items ≡ at_rows jobs.old.items rows.now }
{
    'jobs: for index in 0..rows.len() {
        let job = &mut jobs[index];
        job.from = rows[index].from;
    }
}
