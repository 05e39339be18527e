//! Entries of long lists whose places are kept, so that a cursor leaps to them.

ghost use Rattle.std.specs.Prelude.{◌≡◌, ℕ, ◌<◌, ◌≤◌, List, length, IfOk, OnOk, IfSome, Contains, All};
ghost use Rattle.part_text.specs.Places.{row};
ghost use Rattle.term_table.specs.Part.{Belong};
ghost use Rattle.postings.specs.Kept.{lists_of, list_text, IsList, IsTable};
ghost use Rattle.postings.specs.Skips.{IsSkip, AreSkips};

use crate::entry::{behind_entry, is_plain, list_at};
use part_text::{NoMemory, PlaceList, first_u32};
use std::alloc::Global;
use std::marker::Model;

/// How many documents a list has at least of which entries are kept.
const LONG: u32 = 128;

/// How many entries lie from one that is kept to the next.
pub(crate) const APART: u32 = 32;

/// An entry of a list: its index, its document, and how many bytes of the list stand before it.
#[derive(Clone, Copy)]
pub(crate) struct Skip {
    pub(crate) at: u32,
    pub(crate) document: u32,
    pub(crate) offset: u64,
}

/// Each 32nd entry of the list of a term, by the term's ordinal.
#[derive(Drop)]
pub(crate) struct SkipList {
    ordinal: u64,
    skips: Vec<Skip>,
}

/// Entries to leap to of the long lists of a segment whose postings have positions: Lucene's skip lists, kept in memory.
///
/// A list of a word takes 16 bytes for 32 entries, each of which has 12 bytes at least; one of fewer than 128 takes none.
#[derive(Drop)]
pub struct SkipLists {
    lists: Vec<SkipList>,
}

impl Model for SkipLists {
    ghost use Rattle.std.specs.Prelude.{List};
    ghost use Rattle.postings.specs.declared.skips.SkipList.{SkipList};

    ghost Value = { List SkipList };

    ghost view = { λ it. it.lists.items };
}

impl SkipLists {
    /// The entries to leap to, of the postings that stand in these bytes at the places of their terms.
    pub fn made(alloc: Global, bytes: &[u8], places: &PlaceList) -> Result<SkipLists, NoMemory>
        requires { Belong bytes.now places.now }
        ensures { IfOk result (AreSkips bytes.now places.now) }
    {
        let places = places.as_slice();
        let mut lists = Vec::new(alloc);
        'ordinals: for ordinal in 0..places.len() - 1 {
            put_list(alloc, bytes, places, ordinal, &mut lists)?;
        }
        Ok(SkipLists { lists })
    }

    /// The lists, by ordinals that ascend.
    pub(crate) fn as_slice(&self) -> &[SkipList]
        ensures { result.now ≡ self.now }
    {
        self.lists.as_slice()
    }
}

/// Appends the entries to leap to of a list, where it is long and its entries are of many widths.
fn put_list(
    alloc: Global,
    bytes: &[u8],
    places: &[u64],
    ordinal: usize,
    lists: &mut Vec<SkipList>,
) -> Result<(), NoMemory>
    requires table { IsTable bytes.now places.now }
    requires below { ordinal < length (lists_of bytes.now places.now) }
    requires are { AreSkips bytes.now places.now lists.old.items }
    ensures { OnOk result (AreSkips bytes.now places.now lists.new.items) }
{
    let text = list_at(bytes, places, ordinal);
    let count = first_u32(text);
    if count < LONG || is_plain(text.split_at(4).1, count) {
        return Ok(());
    }
    lists.push(SkipList {
        ordinal: ordinal as u64,
        skips: skips_in(alloc, text)?,
    })?;
    Ok(())
}

/// Each 32nd entry of a list, from the first on.
fn skips_in(alloc: Global, text: &[u8]) -> Result<Vec<Skip>, NoMemory>
    requires { IsList text.now }
    ensures { IfOk result (λ skips. All (IsSkip text.now) skips.items) }
{
    let count = first_u32(text);
    let mut rest = text.split_at(4).1;
    let mut skips = Vec::with_capacity(alloc, (count / APART + 1) as usize)?;
    'entries: for at in 0..count {
        if at % APART == 0 {
            skips.push(Skip {
                at,
                document: first_u32(rest),
                offset: (text.len() - rest.len()) as u64,
            })?;
        }
        rest = behind_entry(rest, false);
    }
    Ok(skips)
}

/// The entries to leap to of the list with this ordinal; none of a list of which none are kept.
pub(crate) fn skips_of(lists: &[SkipList], ordinal: u64) -> &[Skip]
    ensures { (bytes places : List ℕ) → AreSkips bytes places lists.now → All (IsSkip (list_text (row places bytes ordinal))) result.now }
{
    let at = lists.partition_point(|list| list.ordinal < ordinal);
    match lists.get(at) {
        Some(list) => {
            if list.ordinal == ordinal {
                list.skips.as_slice()
            } else {
                &[]
            }
        }
        None => &[],
    }
}

/// Of entries to leap to the last before `to`, looked for from an index on in steps that double, and then halve; None where
/// the one at that index isn't before `to`.
pub(crate) fn last_before(skips: &[Skip], near: usize, to: u32) -> Option<Skip>
    requires { near ≤ length skips.now }
    ensures { IfSome result (λ skip. Contains skips.now skip × (skip.document < to)) }
{
    let mut last = None;
    let mut passed = near;
    let mut step = 1usize;
    let mut grows = true;
    'steps: while step > 0 {
        if step <= skips.len() - passed && skips[passed + (step - 1)].document < to {
            last = Some(skips[passed + (step - 1)]);
            passed += step;
        } else {
            grows = false;
        }
        step = if grows {
            step.saturating_mul(2)
        } else {
            step / 2
        };
    }
    last
}
