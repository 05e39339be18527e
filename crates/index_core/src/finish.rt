//! The steps of an open merge, and its end: one entry takes the place of its neighbours, or none.

ghost use Rattle.std.specs.Prelude.{◌≡◌, ℕ, ◌+◌, ◌-◌, ◌<◌, ◌≤◌, find, length, map, take, drop, Some, IsSome, IfSome, IfOk, OnOk, OnErr};
ghost use Rattle.flattener.specs.Fits.{SegmentFits, most_live};
ghost use Rattle.layout.specs.Ascending.{Ascend};
ghost use Rattle.layout.specs.Layout.{segment_of};
ghost use Rattle.layout.specs.Merges.{advanced_if, merge_id};
ghost use Rattle.mapping.specs.Mapping.{Mapping as Mappings};
ghost use Rattle.merge_jobs.specs.Job.{live_in_all};
ghost use Rattle.merge_jobs.specs.Open.{OpenState, is_named, merges_in, with_merge};
ghost use Rattle.segment_builder.specs.Blocks.{objects_of};
ghost use Rattle.segment_builder.specs.Given.{IsNumbered};
ghost use Rattle.segment_view.specs.Views.{replaced};
ghost use Rattle.view_merge.specs.Given.{segments_of};
ghost use Rattle.index_core.specs.Found.{AreBelow, AreFit, HasJob, IsWhole};
ghost use Rattle.index_core.specs.Kept.{most_made};

use crate::NoMemory;
use crate::place::entry_is_whole;
use crate::ready::made_after;
use merge_jobs::OpenJobs;
use segment_builder::blocks_are_whole;
use segment_view::{Entry, View};
use std::alloc::Global;
use view_merge::{alive_entry, neighbours};

/// What takes the place of the neighbours of an open merge: so many entries from a place on give way to one of so many live
/// blocks, or to none.
#[derive(Drop)]
pub(crate) struct Finished {
    pub(crate) from: u64,
    pub(crate) count: u64,
    pub(crate) live: u64,
    pub(crate) entry: Option<Entry>,
}

/// Walks so many roots of the merge with an id further, or those that are left. How many are left then.
pub(crate) fn advancing(
    alloc: Global,
    jobs: &mut OpenJobs,
    view: &View,
    id: u64,
    roots: u64,
) -> Result<u64, NoMemory>
    requires job { (job : OpenState) × HasJob view.now jobs.old id job }
    requires ids { (end : ℕ) × Ascend 1 (map merge_id (merges_in jobs.old)) end }
    requires few { objects_of (live_in_all view.now) ≤ most_live }
    requires fit { (m : Mappings) × IsNumbered m × AreFit m view.now }
    ensures advanced { OnOk result (jobs.new ≡ map (with_merge (advanced_if id roots)) jobs.old) }
    ensures left { (job : OpenState) → find (is_named id) jobs.old ≡ Some job → IfOk result (λ left. left ≡ job.merge.left - roots) }
    ensures same { OnErr result (jobs.new ≡ jobs.old) }
{
    let (from, count) = range_of(jobs, id);
    let now = neighbours(view.entries(), from, count);
    Ok(jobs.advance(alloc, id, now, roots)?)
}

/// What finishes the merge with an id. It stays open.
pub(crate) fn finishing(
    alloc: Global,
    jobs: &mut OpenJobs,
    view: &View,
    made: u128,
    id: u64,
) -> Result<Finished, NoMemory>
    requires job { (job : OpenState) × HasJob view.now jobs.old id job × (job.merge.left ≡ 0) }
    requires few { objects_of (live_in_all view.now) ≤ most_live }
    requires fit { (m : Mappings) × IsNumbered m × AreFit m view.now }
    ensures range { (job : OpenState) → HasJob view.now jobs.old id job → IfOk result (λ end. (end.from ≡ job.merge.from) × (end.count ≡ job.merge.count)) }
    ensures live { IfOk result (λ end. end.live ≡ length (live_in_all (take end.count (drop end.from view.now)))) }
    ensures entry { IfOk result (λ end. segments_of end.entry ≡ segment_of made (live_in_all (take end.count (drop end.from view.now)))) }
    ensures id { IfOk result (λ end. IfSome end.entry (λ entry. entry.id ≡ made)) }
    ensures fits { (m : Mappings) → AreFit m view.now → IfOk result (λ end. IfSome end.entry (λ entry. SegmentFits m entry.columns)) }
    ensures same { jobs.new ≡ jobs.old }
{
    let (from, count) = range_of(jobs, id);
    let range = neighbours(view.entries(), from, count);
    match jobs.finish(alloc, id, range)? {
        Some(segment) => {
            let live = segment.roots() as u64;
            blocks_are_whole(&segment);
            let entry = Some(alive_entry(alloc, made, segment)?);
            Ok(Finished {
                from,
                count,
                live,
                entry,
            })
        }
        None => Ok(Finished {
            from,
            count,
            live: 0,
            entry: None,
        }),
    }
}

/// The place of the first neighbour of the merge with an id, and how many there are.
fn range_of(jobs: &OpenJobs, id: u64) -> (u64, u64)
    requires { IsSome (find (is_named id) jobs.now) }
    ensures { (job : OpenState) → find (is_named id) jobs.now ≡ Some job → result ≡ (job.merge.from, job.merge.count) }
{
    match jobs.named(id) {
        Some(open) => (open.from(), open.count()),
        None => (0, 0),
    }
}

/// Puts one entry with the next id, or none, where so many entries stand. How many it puts.
pub(crate) fn give_way(
    view: &mut View,
    made: &mut u128,
    from: u64,
    count: u64,
    by: Option<Entry>,
) -> Result<u64, NoMemory>
    requires within { from + count ≤ length view.old }
    requires id { IfSome by (λ entry. entry.id ≡ made.old) }
    requires below { AreBelow made.old view.old }
    ensures view { OnOk result (view.new ≡ replaced from count by view.old) }
    ensures made { OnOk result (made.new ≡ made.old + length (segments_of by)) }
    ensures put { IfOk result (λ put. put ≡ length (segments_of by)) }
    ensures whole { IfSome by IsWhole }
    ensures top { made.new < most_made }
    ensures same_view { OnErr result (view.new ≡ view.old) }
    ensures same_made { OnErr result (made.new ≡ made.old) }
{
    one_is_whole(&by);
    let put = by.is_some() as u64;
    let next = made_after(*made, put)?;
    view.replace(from, count, by)?;
    *made = next;
    Ok(put)
}

/// Says that an entry is whole, if there is one. Does nothing.
fn one_is_whole(entry: &Option<Entry>)
    ensures { IfSome entry.now IsWhole }
{
    if let Some(own) = entry {
        entry_is_whole(own);
    }
}
