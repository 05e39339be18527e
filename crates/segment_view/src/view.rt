//! A list of entries.

ghost use Rattle.std.specs.Prelude.{◌≡◌, ◌+◌, ◌≤◌, ◌++◌, ◌∷◌, [], true, length, slice_get, slice_set, Some, IsSomeAnd, IfSome, IfOk, OnOk, OnErr, vec_len};
ghost use Rattle.std.specs.Option.{option_map};
ghost use Rattle.segment.specs.Live.{EntryState, IsLiveOver};
ghost use Rattle.segment_view.specs.Views.{HaveOwnBits, HaveOwnIds, IsNewId, is_live_root, replaced, with_dead};

use crate::{Entry, NoMemory};
use std::alloc::Global;
use std::marker::Model;

/// The entries that a search sees, in order, with different ids.
#[derive(Drop)]
pub struct View {
    entries: Vec<Entry>,
}

impl Model for View {
    ghost use Rattle.std.specs.Prelude.{List};
    ghost use Rattle.segment.specs.Live.{EntryState};
    ghost use Rattle.segment_view.specs.Views.{IsView};

    ghost Value = { List EntryState };

    ghost view = { λ view. view.entries.items };

    ghost invariant = { λ view. IsView view.entries.items };
}

impl View {
    /// A view without entries. Takes no memory.
    pub fn empty(alloc: Global) -> View
        ensures { result ≡ [] }
    {
        View {
            entries: Vec::new(alloc),
        }
    }

    /// The entries, in order.
    pub fn entries(&self) -> &[Entry]
        ensures entries { result.now ≡ self.now }
        ensures ids { HaveOwnIds self.now }
        ensures bits { HaveOwnBits self.now }
    {
        self.entries.as_slice()
    }

    /// The entry at a place; None exactly past the end.
    pub fn entry(&self, place: u64) -> Option<&Entry>
        ensures { option_map (λ entry. entry.now) result ≡ slice_get self.now place }
    {
        self.entries.get(place as usize)
    }

    /// Adds an entry behind the others.
    pub fn push(&mut self, entry: Entry) -> Result<(), NoMemory>
        requires { IsNewId self.old entry.id }
        ensures pushed { OnOk result (self.new ≡ self.old ++ entry ∷ []) }
        ensures same { OnErr result (self.new ≡ self.old) }
    {
        let _bits = entry.live();
        self.entries.push(entry)?;
        Ok(())
    }

    /// Puts one entry, or none, where so many entries stand from a place on.
    pub fn replace(&mut self, from: u64, count: u64, by: Option<Entry>) -> Result<(), NoMemory>
        requires within { from + count ≤ length self.old }
        requires new_id { IfSome by (λ entry. IsNewId self.old entry.id) }
        ensures replaced { OnOk result (self.new ≡ replaced from count by self.old) }
        ensures same { OnErr result (self.new ≡ self.old) }
    {
        have_own_bits(&by);
        replace_in(&mut self.entries, from as usize, count as usize, by)?;
        Ok(())
    }

    /// A view of the same entries. No segment and no bits are copied; neither view sees what becomes of the other.
    pub fn pin(&self, alloc: Global) -> Result<View, NoMemory>
        ensures { IfOk result (λ pin. pin ≡ self.now) }
    {
        let mut entries = Vec::with_capacity(alloc, self.entries.len())?;
        'entries: for entry in &self.entries {
            entries.push(entry.share()?)?;
        }
        Ok(View { entries })
    }

    /// Makes a root of the entry at a place dead, with its whole block. Takes memory only where a pin has the same bits;
    /// the pin keeps them as they are.
    pub fn kill(&mut self, alloc: Global, place: u64, root: u32) -> Result<(), NoMemory>
        requires { IsSomeAnd (slice_get self.old place) (λ entry. is_live_root root entry ≡ true) }
        ensures killed { (entry : EntryState) → slice_get self.old place ≡ Some entry → OnOk result (self.new ≡ slice_set self.old place (with_dead root entry)) }
        ensures same { OnErr result (self.new ≡ self.old) }
    {
        let entry = &mut self.entries[place as usize];
        entry.kill(alloc, root)
    }
}

/// Says that an entry has live bits of its own segment. Does nothing.
fn have_own_bits(entry: &Option<Entry>)
    ensures { IfSome entry.now (λ own. IsLiveOver own.columns own.live) }
{
    if let Some(own) = entry {
        let _bits = own.live();
    }
}

/// Puts one entry, or none, where so many entries of a list stand from a place on.
fn replace_in(
    entries: &mut Vec<Entry>,
    from: usize,
    count: usize,
    by: Option<Entry>,
) -> Result<(), NoMemory>
    requires { from + count ≤ vec_len entries.old }
    ensures replaced { OnOk result (entries.new.items ≡ replaced from count by entries.old.items) }
    ensures same { OnErr result (entries.new.items ≡ entries.old.items) }
{
    entries.reserve(1)?;
    let mut behind = entries.split_off(from + count)?;
    entries.truncate(from);
    if let Some(entry) = by {
        entries.push(entry).unwrap();
    }
    entries.append(&mut behind).unwrap();
    Ok(())
}
