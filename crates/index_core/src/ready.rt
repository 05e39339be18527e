//! What sealing makes, before anything is replaced.

ghost use Rattle.std.specs.Prelude.{◌≡◌, ◌↔◌, ℕ, ◌+◌, ◌<◌, ◌≤◌, length, map, Some, IfOk, IsTrue};
ghost use Rattle.std.specs.List.{All};
ghost use Rattle.flattener.specs.Fits.{SegmentFits, most_live};
ghost use Rattle.layout.specs.Layout.{settled};
ghost use Rattle.layout.specs.Merges.{AreOpen};
ghost use Rattle.mapping.specs.Mapping.{Mapping as Mappings};
ghost use Rattle.merge_jobs.specs.Job.{live_in_all};
ghost use Rattle.merge_jobs.specs.Open.{merges_shown};
ghost use Rattle.segment_builder.specs.Blocks.{objects_of};
ghost use Rattle.segment_builder.specs.Given.{IsNumbered};
ghost use Rattle.segment_view.specs.Views.{HaveOwnIds};
ghost use Rattle.view_merge.specs.Given.{AreFitting, IsKeptOrMade};
ghost use Rattle.index_core.specs.Found.{AreBelow, AreFit, AreWhole, entry_id, layout_ready};
ghost use Rattle.index_core.specs.Kept.{most_factor, most_made};

use crate::NoMemory;
use crate::place::entry_is_whole;
use mapping::Mapping;
use merge_jobs::{MergeRow, move_behind};
use merge_policy::{Run, settled};
use segment_view::{Entry, View};
use std::alloc::Global;
use view_merge::{counts_of_entries, settled_view};

/// The view, the number of segments that were made, and the open merges, as sealing leaves them.
#[derive(Drop)]
pub(crate) struct Ready {
    pub(crate) view: View,
    pub(crate) made: u128,
    pub(crate) merges: Vec<MergeRow>,
}

/// What settling by a factor makes of a sealed buffer.
pub(crate) fn settled_ready(
    alloc: Global,
    mapping: &Mapping,
    ready: Ready,
    factor: u64,
) -> Result<Ready, NoMemory>
    requires factor { (0 < factor) × (factor ≤ most_factor) }
    requires open { (started : ℕ) × AreOpen (length ready.view) started (merges_shown ready.merges.items) }
    requires below { AreBelow ready.made ready.view }
    requires few { objects_of (live_in_all ready.view) ≤ most_live }
    requires fit { AreFit mapping.now ready.view }
    ensures settled { (started : ℕ) → IfOk result (λ now. layout_ready now started factor ≡ settled (Some factor) (layout_ready ready started factor)) }
    ensures below { IfOk result (λ now. AreBelow now.made now.view) }
    ensures entries { IfOk result (λ now. All (IsKeptOrMade ready.view ready.made) now.view) }
    ensures fits { (m : Mappings) → AreFit m ready.view → IfOk result (λ now. AreFit m now.view) }
{
    mapping_is_numbered(mapping);
    let entries = ready.view.entries();
    let counts = counts_of_entries(alloc, entries, ready.merges.as_slice())?;
    let gone = settled(alloc, counts.as_slice(), factor)?;
    let made = made_after(ready.made, gone.made)?;
    let view = settled_view(alloc, entries, gone.runs.as_slice(), ready.made)?;
    entries_are_whole(view.entries());
    let mut merges = ready.merges;
    move_behind(&mut merges, gone.runs.as_slice());
    Ok(Ready { view, made, merges })
}

/// Whether entries have the ids of others, in the same order.
pub(crate) fn have_same_ids(entries: &[Entry], others: &[Entry]) -> bool
    ensures { IsTrue result ↔ (map entry_id entries.now ≡ map entry_id others.now) }
{
    if entries.len() != others.len() {
        return false;
    }
    'entries: for index in 0..entries.len() {
        if entries[index].id() != others[index].id() {
            return false;
        }
    }
    true
}

/// How many segments were made after so many more.
pub(crate) fn made_after(made: u128, more: u64) -> Result<u128, NoMemory>
    ensures { IfOk result (λ now. now ≡ made + more) }
{
    made.checked_add(more as u128).ok_or(NoMemory)
}

/// Says that fewer segments were made than have an id. Does nothing.
pub(crate) fn made_is_below(made: u128)
    ensures { made < most_made }
{
    let _ = made;
}

/// The id of the merge that is started next.
pub(crate) fn next_merge(started: u64) -> Result<u64, NoMemory>
    ensures { IfOk result (λ id. id ≡ started + 1) }
{
    started.checked_add(1).ok_or(NoMemory)
}

/// Says that a mapping's fields, scopes, bodies and relations are numbered. Does nothing.
pub(crate) fn mapping_is_numbered(mapping: &Mapping)
    ensures { IsNumbered mapping.now }
{
    let _fields = mapping.field_count();
    let _scopes = mapping.scope_count();
    let _bodies = mapping.generation();
    let _relations = mapping.relation_count();
}

/// Says that entries are whole. Looks at each once.
fn entries_are_whole(entries: &[Entry])
    ensures { AreWhole entries.now }
{
    'entries: for entry in entries {
        entry_is_whole(entry);
    }
}
