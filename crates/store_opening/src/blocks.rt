//! Whether the segments of a view hold blocks of one index: what is tested across segments.

ghost use Rattle.std.specs.Prelude.{◌≡◌, ◌↔◌, ◌+◌, ◌<◌, ◌≤◌, ◌++◌, [], ℕ, List, length, IfOk, IsTrue, IsFalse};
ghost use Rattle.std.specs.List.{All};
ghost use Rattle.flattener.specs.Fits.{live_count, most_live};
ghost use Rattle.index_core.specs.Found.{root_numbers};
ghost use Rattle.index_core.specs.Kept.{AreBlocks, HaveOwnIds, laid, most_made, segment_kept};
ghost use Rattle.layout.specs.Layout.{live_in};
ghost use Rattle.store_opening.specs.Blocks.{ascends, ascends_behind, known_times, live_through, numbers_through, root_times, AreNew, IsKnownEntry, IsKnownTwice, KnowsMore};

use crate::live_ids::LiveIds;
use crate::refusal::NoMemory;
use segment::Segment;
use segment_builder::blocks_are_whole;
use segment_view::Entry;
use std::alloc::Global;

/// The greatest number of live objects that a view may have.
const MOST_LIVE: u64 = 67_108_864;

/// Whether the entries of a view hold blocks of one index: the numbers of all roots, dead ones too, ascend through the entries
/// and are below `next`, no two live roots have the same id, and there are not too many live objects. It takes time linear in
/// the roots but for the look-up of each live root's id.
pub fn are_blocks(alloc: Global, entries: &[Entry], next: u64) -> Result<bool, NoMemory>
    ensures { IfOk result (λ are. (made : ℕ) → made < most_made → IsTrue are ↔ AreBlocks (laid entries.now [] made) next) }
{
    entries_are_known(entries);
    if !numbers_ascend(entries, next) {
        return Ok(false);
    }
    if !are_few(entries) {
        return Ok(false);
    }
    have_own_ids(alloc, entries)
}

/// Whether the numbers of all roots ascend through the entries and are below `next`.
fn numbers_ascend(entries: &[Entry], next: u64) -> bool
    ensures { result ≡ ascends 0 (numbers_through entries.now) next }
{
    let mut from = 0;
    'entries: for entry in entries {
        let Some(end) = ascending_to(entry.segment(), from, next) else {
            return false;
        };
        from = end;
    }
    from <= next
}

/// The number behind those of a segment's roots, where they ascend from a number on and are below `next`.
fn ascending_to(segment: &Segment, from: u64, next: u64) -> Option<u64>
    ensures { (more : List ℕ) → ascends_behind result more next ≡ ascends from (root_numbers segment.now ++ more) next }
{
    let mut least = from;
    'roots: for root in 0..segment.roots() {
        let number = segment.root_number(root);
        if number < least {
            return None;
        }
        if number >= next {
            return None;
        }
        least = number + 1;
    }
    Some(least)
}

/// Whether there are not too many live objects.
fn are_few(entries: &[Entry]) -> bool
    ensures { IsTrue result ↔ live_count entries.now ≤ most_live }
{
    let mut objects = 0;
    'entries: for entry in entries {
        objects += entry.live().documents().count() as u64;
        if objects > MOST_LIVE {
            return false;
        }
    }
    true
}

/// Whether no two live roots have the same id.
fn have_own_ids(alloc: Global, entries: &[Entry]) -> Result<bool, NoMemory>
    ensures { IfOk result (λ own. IsTrue own ↔ HaveOwnIds (live_through entries.now)) }
{
    let mut ids = LiveIds::empty(alloc);
    'entries: for entry in entries {
        if !put_ids(alloc, entry, &mut ids)? {
            return Ok(false);
        }
    }
    Ok(true)
}

/// Puts the ids of an entry's live roots to those that are known; false where one of them was known, or is there twice.
fn put_ids(alloc: Global, entry: &Entry, ids: &mut LiveIds) -> Result<bool, NoMemory>
    ensures all { IfOk result (λ all. IsTrue all → KnowsMore ids.old (live_in (segment_kept entry.now)) ids.new) }
    ensures twice { IfOk result (λ all. IsFalse all → AreNew ids.old (live_in (segment_kept entry.now)) → ⊥) }
{
    entry_is_known(entry);
    'roots: for root in 0..entry.segment().roots() {
        if !put_id(alloc, entry, root, ids)? {
            return Ok(false);
        }
    }
    Ok(true)
}

/// Puts the id of a root to those that are known, if it is live; false where it was known.
fn put_id(alloc: Global, entry: &Entry, root: u32, ids: &mut LiveIds) -> Result<bool, NoMemory>
    requires { root < length entry.now.columns.roots }
    ensures all { IfOk result (λ all. IsTrue all → (id : List ℕ) → known_times ids.new id ≡ known_times ids.old id + root_times entry.now root id) }
    ensures twice { IfOk result (λ all. IsFalse all → IsKnownTwice entry.now root ids.old) }
{
    if !entry.live().root(root) {
        return Ok(true);
    }
    let id = entry.segment().root_id(root);
    if ids.get(id).is_some() {
        return Ok(false);
    }
    ids.put(id.to_vec(alloc)?, entry.segment().root_number(root))?;
    Ok(true)
}

/// Says that the blocks of each entry have its roots. Does nothing.
pub(crate) fn entries_are_known(entries: &[Entry])
    ensures { All IsKnownEntry entries.now }
{
    'entries: for entry in entries {
        entry_is_known(entry);
    }
}

/// Says that the blocks of an entry have its roots, and that its live documents are those of its live blocks. Does nothing.
fn entry_is_known(entry: &Entry)
    ensures { IsKnownEntry entry.now }
{
    let segment = entry.segment();
    let _live = entry.live();
    blocks_are_whole(segment);
    let _documents = segment.docs();
    let _first = segment.root_of_doc(0);
}
