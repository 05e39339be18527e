//! The trees that are joined to a tree, among those that a query hits.
ghost use Rattle.std.specs.Prelude.{◌≡◌, ◌<◌, ◌++◌, ◌∷◌, [], get_or, length, map, filter, IfOk, OnOk};
ghost use Rattle.inner_hits.specs.Kinship.{AreCapped, AreKin, IsInKeyOrder, kin_from, has_key, hit_of, key_in, owner_hits};
ghost use Rattle.nested_sort.specs.Listed.{IsCapped};
ghost use Rattle.query_eval.specs.Found.{AreLong};
ghost use Rattle.view_objects.specs.Hits.{hits_from, hits_in};

use crate::NoMemory;
use crate::trees::root_of;
use crate::walk::add_hits;
use block_join::Matches;
use join_ordinals::JoinOrdinals;
use mapping::Mapping;
use query_eval::{Side, key_of};
use segment_view::Entry;
use std::alloc::Global;
use view_objects::Hit;

/// A root that a query hits, with the key by which it takes part in a join.
#[derive(Clone, Copy, Debug, PartialEq, Eq)]
pub(crate) struct Kin {
    pub(crate) key: u32,
    pub(crate) hit: Hit,
}

/// The hits among the roots of a side, by their keys, those of one key in the order of the view.
pub(crate) fn kin_of(
    alloc: Global,
    entries: &[Entry],
    mapping: &Mapping,
    ordinals: &JoinOrdinals,
    matches: &Matches,
    side: Side,
) -> Result<Vec<Kin>, NoMemory>
    requires { AreLong entries.now matches.now }
    ensures { IfOk result (λ kin. AreKin mapping.now ordinals.now side entries.now matches.now kin.items) }
{
    let mut kin = gathered(alloc, entries, mapping, ordinals, matches, side)?;
    kin.sort_by_key(|one| one.key)?;
    Ok(kin)
}

/// The hits among the roots of a side, in the order of the view.
#[tactic(auto, using(crate::proofs::Capped::capping, crate::proofs::Gathering::gathering))]
fn gathered(
    alloc: Global,
    entries: &[Entry],
    mapping: &Mapping,
    ordinals: &JoinOrdinals,
    matches: &Matches,
    side: Side,
) -> Result<Vec<Kin>, NoMemory>
    requires { AreLong entries.now matches.now }
    ensures kin { IfOk result (λ kin. kin.items ≡ kin_from mapping.now ordinals.now side entries.now (hits_in matches.now)) }
    ensures capped { IfOk result (λ kin. AreCapped kin.items) }
{
    let mut kin = Vec::new(alloc);
    'entries: for place in 0..entries.len() {
        add_kin(
            alloc, entries, mapping, ordinals, matches, side, place, &mut kin,
        )?;
    }
    Ok(kin)
}

/// Adds those of one entry.
#[tactic(auto, using(crate::proofs::Capped::capping, crate::proofs::Gathering::gathering))]
fn add_kin(
    alloc: Global,
    entries: &[Entry],
    mapping: &Mapping,
    ordinals: &JoinOrdinals,
    matches: &Matches,
    side: Side,
    place: usize,
    kin: &mut Vec<Kin>,
) -> Result<(), NoMemory>
    requires long { AreLong entries.now matches.now }
    requires place { place < length entries.now }
    ensures kin { OnOk result (kin.new.items ≡ kin.old.items ++ kin_from mapping.now ordinals.now side entries.now (hits_from place 0 (get_or matches.now place []))) }
    ensures capped { OnOk result (AreCapped kin.old.items → AreCapped kin.new.items) }
{
    let scores = &matches.as_slice()[place];
    let mut hits = Vec::new(alloc);
    add_hits(scores, place as u64, 0, scores.len(), &mut hits)?;
    'hits: for hit in &hits {
        add_one(entries, mapping, ordinals, side, *hit, kin)?;
    }
    Ok(())
}

/// Adds a hit, if its root takes part.
#[tactic(auto, using(crate::proofs::Capped::capping))]
fn add_one(
    entries: &[Entry],
    mapping: &Mapping,
    ordinals: &JoinOrdinals,
    side: Side,
    hit: Hit,
    kin: &mut Vec<Kin>,
) -> Result<(), NoMemory>
    requires capped { IsCapped hit }
    ensures kin { OnOk result (kin.new.items ≡ kin.old.items ++ kin_from mapping.now ordinals.now side entries.now (hit ∷ [])) }
    ensures capped { OnOk result (AreCapped kin.old.items → AreCapped kin.new.items) }
{
    if let Some(key) = key_at(
        entries,
        mapping,
        ordinals,
        side,
        hit.place as usize,
        hit.doc,
    ) {
        kin.push(Kin { key, hit })?;
    }
    Ok(())
}

/// The key of the root of a document's block; None past the documents of the view.
#[tactic(auto, using(crate::proofs::Gathering::keying))]
fn key_at(
    entries: &[Entry],
    mapping: &Mapping,
    ordinals: &JoinOrdinals,
    side: Side,
    place: usize,
    doc: u32,
) -> Option<u32>
    ensures { result ≡ key_in mapping.now ordinals.now side entries.now place doc }
{
    if place >= entries.len() {
        return None;
    }
    let segment = entries[place].segment();
    if doc >= segment.docs() {
        return None;
    }
    key_of(
        mapping,
        ordinals,
        segment,
        place,
        root_of(segment, doc),
        side,
    )
}

/// The hits of the key that the root of a document has on the other side.
pub(crate) fn joined(
    alloc: Global,
    entries: &[Entry],
    mapping: &Mapping,
    ordinals: &JoinOrdinals,
    kin: &[Kin],
    side: Side,
    place: usize,
    doc: u32,
) -> Result<Vec<Hit>, NoMemory>
    requires { IsInKeyOrder kin.now }
    ensures { IfOk result (λ hits. hits.items ≡ owner_hits (key_in mapping.now ordinals.now side entries.now place doc) kin.now) }
{
    match key_at(entries, mapping, ordinals, side, place, doc) {
        Some(key) => Ok(of_key(alloc, kin, key)?),
        None => Ok(Vec::new(alloc)),
    }
}

/// The hits of a key.
fn of_key(alloc: Global, kin: &[Kin], key: u32) -> Result<Vec<Hit>, NoMemory>
    requires { IsInKeyOrder kin.now }
    ensures { IfOk result (λ hits. hits.items ≡ map hit_of (filter (has_key key) kin.now)) }
{
    let mut at = kin.partition_point(|one| one.key < key);
    let mut hits = Vec::new(alloc);
    'kin: while at < kin.len() {
        if kin[at].key != key {
            return Ok(hits);
        }
        hits.push(kin[at].hit)?;
        at += 1;
    }
    Ok(hits)
}
