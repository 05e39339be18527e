//! What is kept of the entries of a view.

ghost use Rattle.std.specs.Prelude.{◌≡◌, ℕ, ◌<◌, ◌≤◌, ◌^◌, true, false, if◌then◌else◌, List, length, Some, OnOk, IfOk, IsOk};
ghost use Rattle.std.specs.List.{flat_map};
ghost use Rattle.std.specs.Option.{option_or};
ghost use Rattle.flattener.specs.Fits.{most_live};
ghost use Rattle.layout.specs.Layout.{live_in};
ghost use Rattle.segment_builder.specs.Blocks.{objects_of};
ghost use Rattle.segment_view.specs.Views.{is_live_root};
ghost use Rattle.std.specs.Str.{bytes_eq};
ghost use Rattle.stored_sources.specs.Roots.{root_of};
ghost use Rattle.index_core.specs.Found.{AreBelow, number_of, number_under};
ghost use Rattle.index_core.specs.Kept.{HaveOwnIds, made_by, segment_kept, segments_kept};

use crate::NoMemory;
use crate::live_numbers::LiveNumbers;
use crate::place::entry_is_whole;
use segment_builder::blocks_are_whole;
use segment_view::Entry;
use std::alloc::Global;

/// The numbers of the live blocks of entries, how many objects they have, and how many segments may have been made.
#[derive(Drop)]
pub(crate) struct Opened {
    pub(crate) numbers: LiveNumbers,
    pub(crate) objects: u64,
    pub(crate) made: u128,
}

/// Goes through the entries of a view.
pub(crate) fn read_entries(alloc: Global, entries: &[Entry]) -> Result<Opened, NoMemory>
    requires ids { HaveOwnIds (flat_map live_in (segments_kept entries.now)) }
    requires few { objects_of (flat_map live_in (segments_kept entries.now)) ≤ most_live }
    requires made { made_by entries.now < 2 ^ 128 }
    ensures numbers { IfOk result (λ opened. (id : List ℕ) → number_under opened.numbers id ≡ number_of id (flat_map live_in (segments_kept entries.now))) }
    ensures objects { IfOk result (λ opened. opened.objects ≡ objects_of (flat_map live_in (segments_kept entries.now))) }
    ensures made { IfOk result (λ opened. opened.made ≡ made_by entries.now) }
    ensures below { IsOk result → AreBelow (made_by entries.now) entries.now }
{
    let mut numbers = LiveNumbers::empty(alloc);
    let mut objects = 0;
    let mut made = 0;
    'entries: for entry in entries {
        entry_is_whole(entry);
        objects += add_entry(alloc, entry, &mut numbers)?;
        made = made.max(entry.id() + 1);
    }
    Ok(Opened {
        numbers,
        objects,
        made,
    })
}

/// Puts the numbers of an entry's live blocks under their ids. How many objects these blocks have.
fn add_entry(alloc: Global, entry: &Entry, numbers: &mut LiveNumbers) -> Result<u64, NoMemory>
    requires { HaveOwnIds (live_in (segment_kept entry.now)) }
    ensures numbers { OnOk result ((id : List ℕ) → number_under numbers.new id ≡ option_or (number_of id (live_in (segment_kept entry.now))) (number_under numbers.old id)) }
    ensures objects { IfOk result (λ objects. objects ≡ objects_of (live_in (segment_kept entry.now))) }
{
    let segment = entry.segment();
    let live = entry.live();
    blocks_are_whole(segment);
    let _documents = segment.docs();
    'roots: for root in 0..segment.roots() {
        add_root(alloc, entry, root, numbers)?;
    }
    Ok(live.documents().count() as u64)
}

/// Puts the number of a root under its id, if it is live.
fn add_root(
    alloc: Global,
    entry: &Entry,
    root: u32,
    numbers: &mut LiveNumbers,
) -> Result<(), NoMemory>
    requires { root < length entry.now.columns.roots }
    ensures live { is_live_root root entry.now ≡ true → OnOk result ((id : List ℕ) → number_under numbers.new id ≡ (if bytes_eq (root_of entry.now.columns.roots root).id id then Some (root_of entry.now.columns.roots root).number else number_under numbers.old id)) }
    ensures dead { is_live_root root entry.now ≡ false → OnOk result ((id : List ℕ) → number_under numbers.new id ≡ number_under numbers.old id) }
{
    let segment = entry.segment();
    if !entry.live().root(root) {
        return Ok(());
    }
    let id = segment.root_id(root).to_vec(alloc)?;
    numbers.put(id, segment.root_number(root))?;
    Ok(())
}
