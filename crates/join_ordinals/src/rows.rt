//! The ids of the roots of each entry: first the place at which each was met, then its number; and the roots' relations.

ghost use Rattle.std.specs.Prelude.{◌≡◌, ◌<◌, length, map, IfOk, OnOk};
ghost use Rattle.std.specs.List.{range_with_len};
ghost use Rattle.std.specs.Option.{option_map};
ghost use Rattle.stored_sources.specs.Roots.{lent_join};
ghost use Rattle.join_ordinals.specs.Ordinals.{AreRelations, AreRows, IsNumbered, own_relation, parent_in, relation_in};
ghost use Rattle.join_ordinals.specs.Rows.{Keep, IsRow, id_by, renumbered, rows_seen};

use crate::NoMemory;
use crate::ids::Ids;
use segment::JoinValue;
use segment_view::Entry;
use std::alloc::Global;

/// Whose id is met: the root's own, or its parent's.
#[derive(Clone, Copy, Debug, PartialEq, Eq)]
pub(crate) enum Whose {
    Own,
    Parent,
}

/// The id that is met at a root.
fn id_of(entry: &Entry, whose: Whose, root: u32) -> Option<&[u8]>
    requires { root < length entry.now.columns.roots }
    ensures { option_map (λ id. id.now) result ≡ id_by whose entry.now root }
{
    let live = entry.live();
    if !live.root(root) {
        return None;
    }
    match whose {
        Whose::Own => Some(entry.segment().root_id(root)),
        Whose::Parent => parent_in(entry.segment().root_join(root)),
    }
}

/// The id of the parent that a join value names.
fn parent_in(join: JoinValue<'_>) -> Option<&[u8]>
    ensures { option_map (λ id. id.now) result ≡ parent_in (lent_join join.entry) }
{
    match join {
        JoinValue::Unjoined => None,
        JoinValue::Named(_) => None,
        JoinValue::Child(_, parent) => Some(parent),
    }
}

/// The place of an id, if there is one.
fn place_of<'a>(ids: &mut Ids<'a>, id: Option<&'a [u8]>) -> Result<Option<u32>, NoMemory>
    ensures numbered { IfOk result (λ place. IsNumbered ids.new (option_map (λ id. id.now) id.entry) place) }
    ensures keep { OnOk result (Keep ids.old ids.new) }
{
    match id {
        Some(id) => Ok(Some(ids.meet(id)?)),
        None => Ok(None),
    }
}

/// The places of the ids of an entry's roots.
#[tactic(auto, using(crate::proofs::Numbering::row_start, crate::proofs::Numbering::row_more, crate::proofs::Numbering::keep_same, crate::proofs::Numbering::keep_on))]
fn row_of<'a>(
    alloc: Global,
    entry: &'a Entry,
    whose: Whose,
    ids: &mut Ids<'a>,
) -> Result<Vec<Option<u32>>, NoMemory>
    ensures long { IfOk result (λ row. length row.items ≡ length entry.now.columns.roots) }
    ensures row { IfOk result (λ row. IsRow ids.new (id_by whose entry.now) row.items) }
    ensures keep { OnOk result (Keep ids.old ids.new) }
{
    let count = entry.segment().roots();
    let mut row = Vec::with_capacity(alloc, count as usize)?;
    'roots: for root in 0..count {
        let place = place_of(ids, id_of(entry, whose, root))?;
        row.push(place)?;
    }
    Ok(row)
}

/// The places of the ids of the roots of each entry.
pub(crate) fn rows_of<'a>(
    alloc: Global,
    entries: &'a [Entry],
    whose: Whose,
    ids: &mut Ids<'a>,
) -> Result<Vec<Vec<Option<u32>>>, NoMemory>
    ensures rows { IfOk result (λ rows. AreRows ids.new (id_by whose) entries.now (rows_seen rows.items)) }
    ensures keep { OnOk result (Keep ids.old ids.new) }
{
    let mut rows = Vec::with_capacity(alloc, entries.len())?;
    'entries: for entry in entries {
        let _live = entry.live();
        let row = row_of(alloc, entry, whose, ids)?;
        rows.push(row)?;
    }
    Ok(rows)
}

/// Puts its number in place of each id's place.
pub(crate) fn renumber(rows: &mut Vec<Vec<Option<u32>>>, numbers: &[u32])
    ensures { rows_seen rows.new.items ≡ map (map (renumbered numbers.now)) (rows_seen rows.old.items) }
{
    'rows: for row in rows.iter_mut() {
        renumber_row(row, numbers);
    }
}

/// The same for an entry's roots.
fn renumber_row(row: &mut Vec<Option<u32>>, numbers: &[u32])
    ensures { row.new.items ≡ map (renumbered numbers.now) row.old.items }
{
    'places: for place in row.iter_mut() {
        *place = number_of(*place, numbers);
    }
}

/// The number at a place, if there is one.
fn number_of(place: Option<u32>, numbers: &[u32]) -> Option<u32>
    ensures { result ≡ renumbered numbers.now place }
{
    match place {
        Some(place) => match numbers.get(place as usize) {
            Some(number) => Some(*number),
            None => None,
        },
        None => None,
    }
}

/// The relation that a join value names.
fn relation_in(join: JoinValue<'_>) -> Option<u32>
    ensures { result ≡ relation_in (lent_join join.entry) }
{
    match join {
        JoinValue::Unjoined => None,
        JoinValue::Named(relation) => Some(relation),
        JoinValue::Child(relation, _) => Some(relation),
    }
}

/// The relation of a root, if it is live.
fn relation_of(entry: &Entry, root: u32) -> Option<u32>
    requires { root < length entry.now.columns.roots }
    ensures { result ≡ own_relation entry.now root }
{
    let live = entry.live();
    if live.root(root) {
        relation_in(entry.segment().root_join(root))
    } else {
        None
    }
}

/// The relations of an entry's roots.
fn relation_row(alloc: Global, entry: &Entry) -> Result<Vec<Option<u32>>, NoMemory>
    ensures { IfOk result (λ row. row.items ≡ map (own_relation entry.now) (range_with_len 0 (length entry.now.columns.roots))) }
{
    let count = entry.segment().roots();
    let mut row = Vec::with_capacity(alloc, count as usize)?;
    'roots: for root in 0..count {
        row.push(relation_of(entry, root))?;
    }
    Ok(row)
}

/// The relations of the roots of each entry.
pub(crate) fn relations_of(
    alloc: Global,
    entries: &[Entry],
) -> Result<Vec<Vec<Option<u32>>>, NoMemory>
    ensures { IfOk result (λ rows. AreRelations entries.now (rows_seen rows.items)) }
{
    let mut rows = Vec::with_capacity(alloc, entries.len())?;
    'entries: for entry in entries {
        let _live = entry.live();
        let row = relation_row(alloc, entry)?;
        rows.push(row)?;
    }
    Ok(rows)
}
