//! What settling by a factor leaves of a view.

ghost use Rattle.std.specs.Prelude.{◌≡◌, ℕ, ◌+◌, ◌-◌, ◌<◌, ◌≤◌, ◌^◌, ◌++◌, List, [], ◌∷◌, drop, length, map, take, Some, None, IfOk, OnOk};
ghost use Rattle.std.specs.List.{All};
ghost use Rattle.flattener.specs.Fits.{most_live};
ghost use Rattle.layout.proofs.Merging.{AreDistinct, segment_id};
ghost use Rattle.mapping.specs.Mapping.{Mapping};
ghost use Rattle.merge_jobs.specs.Job.{live_in_all, segment_kept, segments_kept};
ghost use Rattle.merge_jobs.specs.Open.{merges_shown};
ghost use Rattle.merge_policy.specs.Runs.{AreRuns, IsRunOf, counts_from, given_way, range_of};
ghost use Rattle.segment_builder.specs.Blocks.{blocks_in, live_blocks, objects_of};
ghost use Rattle.segment_builder.specs.Given.{IsNumbered};
ghost use Rattle.segment_view.specs.Views.{IsNewId};
ghost use Rattle.view_merge.specs.Given.{AreFitting, IsKeptOrMade, settled_segments};

use crate::NoMemory;
use crate::entry::merged_entry;
use merge_jobs::{MergeRow, is_held, live_roots};
use merge_policy::{Run, SegmentCount};
use segment_builder::blocks_are_whole;
use segment_view::{Entry, View};
use std::alloc::Global;

/// What settling counts of each entry, beside the merges that are open.
pub fn counts_of_entries(
    alloc: Global,
    entries: &[Entry],
    merges: &[MergeRow],
) -> Result<Vec<SegmentCount>, NoMemory>
    ensures { IfOk result (λ counts. counts.items ≡ counts_from (merges_shown merges.now) 0 (segments_kept entries.now)) }
{
    let mut counts = Vec::with_capacity(alloc, entries.len())?;
    'entries: for index in 0..entries.len() {
        counts.push(count_of(&entries[index], is_held(merges, index as u64)))?;
    }
    Ok(counts)
}

/// What settling counts of an entry.
fn count_of(entry: &Entry, held: bool) -> SegmentCount
    ensures { result ≡ record { live = length (live_blocks entry.now); dead = length (blocks_in entry.now) - length (live_blocks entry.now); held = held } }
{
    let live = live_roots(entry) as u64;
    SegmentCount {
        live,
        dead: roots(entry) as u64 - live,
        held,
    }
}

/// How many roots an entry has, dead ones too.
fn roots(entry: &Entry) -> u32
    ensures { result ≡ length (blocks_in entry.now) }
{
    let _live = entry.live();
    blocks_are_whole(entry.segment());
    entry.segment().roots()
}

/// The view of entries of which runs have given way to one each. Their ids are those after so many segments.
pub fn settled_view(
    alloc: Global,
    entries: &[Entry],
    runs: &[Run],
    made: u128,
) -> Result<View, NoMemory>
    requires runs { (count : ℕ) × (AreRuns count 0 runs.now (length entries.now) × (made + count < 2 ^ 128)) }
    requires ids { AreDistinct (map segment_id (settled_segments made runs.now (segments_kept entries.now))) }
    requires few { objects_of (live_in_all entries.now) ≤ most_live }
    requires made { (m : Mapping) × IsNumbered m × AreFitting m entries.now }
    ensures segments { IfOk result (λ view. segments_kept view ≡ settled_segments made runs.now (segments_kept entries.now)) }
    ensures entries { IfOk result (λ view. All (IsKeptOrMade entries.now made) view) }
    ensures fits { (m : Mapping) → AreFitting m entries.now → IfOk result (λ view. AreFitting m view) }
{
    let mut view = View::empty(alloc);
    'runs: for run in runs {
        add_run(alloc, entries, *run, made, &mut view)?;
    }
    Ok(view)
}

/// Adds what a run leaves of some entries.
fn add_run(
    alloc: Global,
    entries: &[Entry],
    run: Run,
    made: u128,
    view: &mut View,
) -> Result<(), NoMemory>
    requires order { run.first ≤ run.last }
    requires within { run.last < length entries.now }
    requires made { (count : ℕ) × (IsRunOf count run run.made × (made + count < 2 ^ 128)) }
    requires ids { AreDistinct (map segment_id (segments_kept view.old ++ given_way made run.made (range_of run (segments_kept entries.now)))) }
    requires few { objects_of (live_in_all entries.now) ≤ most_live }
    requires fit { (m : Mapping) × IsNumbered m × AreFitting m entries.now }
    ensures segments { OnOk result (segments_kept view.new ≡ segments_kept view.old ++ given_way made run.made (range_of run (segments_kept entries.now))) }
    ensures entries { All (IsKeptOrMade entries.now made) view.old → All (IsKeptOrMade entries.now made) view.new }
    ensures fits { (m : Mapping) → AreFitting m entries.now → AreFitting m view.old → AreFitting m view.new }
{
    match run.made {
        None => Ok(view.push(entries[run.first as usize].share()?)?),
        Some(before) => {
            let range = neighbours(entries, run.first, run.last + 1 - run.first);
            match merged_entry(alloc, made + before as u128, range)? {
                Some(entry) => Ok(view.push(entry)?),
                None => Ok(()),
            }
        }
    }
}

/// So many entries from a place on.
pub fn neighbours(entries: &[Entry], from: u64, count: u64) -> &[Entry]
    requires { from + count ≤ length entries.now }
    ensures { result.now ≡ take count (drop from entries.now) }
{
    entries.split_at(from as usize).1.split_at(count as usize).0
}
