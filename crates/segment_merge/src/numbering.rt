//! The parts that a merge puts together, and the new numbers of their live documents.

ghost use Rattle.std.specs.Prelude.{◌≡◌, ◌+◌, ◌<◌, ◌^◌, cond, count_by, false, length, slice_index_or, IfOk};
ghost use Rattle.block_bits.specs.Flags.{is_marked};
ghost use Rattle.segment.specs.Live.{IsLiveOver};
ghost use Rattle.segment_merge.specs.Merged.{live_count, live_count_of};
ghost use Rattle.segment_merge.specs.Numbering.{new_number, numbers_from, parts_from};

use crate::NoMemory;
use block_bits::BitSet;
use segment::Segment;
use segment_view::Entry;
use std::alloc::Global;
use std::marker::Model;

/// An entry and the new number of each of its live documents: the live documents before it, those of entries before it among
/// them.
#[derive(Drop)]
pub(crate) struct Part<'a> {
    entry: &'a Entry,
    base: u32,
    numbers: Vec<u32>,
}

impl<'a> Model for Part<'a> {
    ghost use Rattle.std.specs.Prelude.{◌≡◌};
    ghost use Rattle.segment_merge.specs.Numbering.{PartState, numbers_from};

    ghost Value = { PartState };

    ghost view = { λ part. record { base = part.base; entry = part.entry.now } };

    ghost invariant = { λ part. part.numbers.items ≡ numbers_from part.base part.entry.now.live.docs };
}

impl<'a> Part<'a> {
    /// The part of an entry behind so many live documents.
    fn behind(alloc: Global, base: u32, entry: &'a Entry) -> Result<Part<'a>, NoMemory>
        requires { base + live_count entry.now < 2 ^ 32 }
        ensures { IfOk result (λ part. part ≡ record { base = base; entry = entry.now }) }
    {
        let numbers = numbers_of(alloc, base, entry.live().documents())?;
        Ok(Part {
            entry,
            base,
            numbers,
        })
    }

    /// The segment.
    pub(crate) fn segment(&self) -> &'a Segment
        ensures segment { result.now ≡ self.now.entry.columns }
        ensures live { IsLiveOver self.now.entry.columns self.now.entry.live }
    {
        let _live = self.entry.live();
        self.entry.segment()
    }

    /// The live roots, one flag a root.
    pub(crate) fn live_roots(&self) -> &'a BitSet
        ensures { result.now ≡ self.now.entry.live.roots }
    {
        self.entry.live().live_roots()
    }

    /// The live documents, one flag a document.
    pub(crate) fn live_documents(&self) -> &'a BitSet
        ensures { result.now ≡ self.now.entry.live.docs }
    {
        self.entry.live().documents()
    }

    /// The new number of a document; None where it is dead.
    pub(crate) fn number(&self, doc: u32) -> Option<u32>
        requires { doc < self.now.entry.columns.documents }
        ensures { result ≡ new_number self.now doc }
    {
        if self.entry.live().doc(doc) {
            Some(self.numbers[doc as usize])
        } else {
            None
        }
    }
}

/// Entries as parts, each with the live documents of those before it.
pub(crate) fn parts_of<'a>(alloc: Global, entries: &'a [Entry]) -> Result<Vec<Part<'a>>, NoMemory>
    requires { live_count_of entries.now < 2 ^ 32 }
    ensures { IfOk result (λ parts. parts.items ≡ parts_from 0 entries.now) }
{
    let mut parts = Vec::with_capacity(alloc, entries.len())?;
    let mut base = 0;
    'entries: for entry in entries {
        parts.push(Part::behind(alloc, base, entry)?)?;
        base += entry.live().documents().count();
    }
    Ok(parts)
}

/// For each document the number that it gets if it is live, where the first live one gets `base`.
fn numbers_of(alloc: Global, base: u32, live: &BitSet) -> Result<Vec<u32>, NoMemory>
    requires { base + count_by is_marked live.now < 2 ^ 32 }
    ensures { IfOk result (λ numbers. numbers.items ≡ numbers_from base live.now) }
{
    let mut numbers = Vec::with_capacity(alloc, live.len() as usize)?;
    let mut next = base;
    'docs: for doc in 0..live.len() {
        numbers.push(next)?;
        next = behind_document(live, doc, next);
    }
    Ok(numbers)
}

/// The number that the next live document gets, given the one that this would get.
fn behind_document(live: &BitSet, doc: u32, own: u32) -> u32
    requires within { doc < length live.now }
    requires fits { cond (slice_index_or live.now doc false) (own + 1) own < 2 ^ 32 }
    ensures { result ≡ cond (slice_index_or live.now doc false) (own + 1) own }
{
    if live.has(doc) { own + 1 } else { own }
}
