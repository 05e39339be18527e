//! Joins of few hits: the roots of a side stand by their keys, so that those that the hits lead to are found without the others.

ghost use Rattle.std.specs.Prelude.{◌≡◌, ◌==◌, ◌&&◌, ◌||◌, ℕ, List, Option, false, length, map, IfOk, OnOk, Some};
ghost use Rattle.std.specs.List.{All};
ghost use Rattle.block_bits.specs.Blocks.{documents_of};
ghost use Rattle.block_join.specs.Scores.{filled};
ghost use Rattle.join_ordinals.specs.Ordinals.{AreOrdinals};
ghost use Rattle.query_ast.specs.Resolved.{IsChildRelation};
ghost use Rattle.query_eval.specs.Folds.{scopes_in};
ghost use Rattle.query_eval.specs.Found.{AreLong, IsSeen};
ghost use Rattle.query_eval.specs.Keyed.{AddsKeyed, AreChildRoots, AreKeyed, AreKeyedTo, AreParentRoots, IsInKeyOrder, IsWithin, Led, any_child_by, flag_at, leads_to, none_in};
ghost use Rattle.query_eval.specs.Sides.{HaveRelations, by_relation, given_by, keys_at, of_roots, pair_if, told, told_by};
ghost use Rattle.query_eval.specs.declared.answer.Answer.{Answer};
ghost use Rattle.tree_objects.specs.Object.{Object};
ghost use Rattle.tree_objects.specs.Tree.{Tree};

use crate::NoMemory;
use crate::nests::scope_set;
use crate::ranks::Ranks;
use crate::side::Side;
use crate::trees::{key_if, take_at};
use block_bits::{BitSet, places_are_nearest};
use block_join::{Matches, Scored};
use join_ordinals::JoinOrdinals;
use mapping::Mapping;
use segment::Segment;
use segment_view::Entry;
use std::alloc::Global;
use std::marker::Model;
use tree_objects::objects_nest;

/// A root that takes part in a join of trees: its key, the entry that it stands in, and its document.
#[derive(Clone, Copy, Debug, PartialEq, Eq)]
pub struct KeyedRoot {
    pub(crate) key: u32,
    pub(crate) place: usize,
    pub(crate) doc: u32,
}

/// The roots of a view that take part in a join of trees on one side, by ascending keys.
#[derive(Drop)]
pub struct KeyedRoots {
    roots: Vec<KeyedRoot>,
}

impl Model for KeyedRoots {
    ghost use Rattle.std.specs.Prelude.{List};
    ghost use Rattle.query_eval.specs.declared.keyed.KeyedRoot.{KeyedRoot};
    ghost use Rattle.query_eval.specs.Keyed.Code.{keyed_code};

    ghost Value = { List KeyedRoot };

    ghost coded = { keyed_code };

    ghost view = { λ k. k.roots.items };
}

impl KeyedRoots {
    /// The roots of a child relation, by the ids of their parents. It looks at each document of the view once.
    pub fn children(
        alloc: Global,
        entries: &[Entry],
        mapping: &Mapping,
        joins: &JoinOrdinals,
        child: u32,
    ) -> Result<KeyedRoots, NoMemory>
        requires { AreOrdinals entries.now joins.now }
        ensures { IfOk result (AreChildRoots mapping.now joins.now child entries.now) }
    {
        Ok(keyed(alloc, entries, mapping, joins, Side::Children(child))?)
    }

    /// The roots of the relation that a child relation has as its parent, by their own ids. It looks at each document of the
    /// view once.
    pub fn parents(
        alloc: Global,
        entries: &[Entry],
        mapping: &Mapping,
        joins: &JoinOrdinals,
        child: u32,
    ) -> Result<KeyedRoots, NoMemory>
        requires joined { AreOrdinals entries.now joins.now }
        requires child { IsChildRelation mapping.now child }
        ensures { IfOk result (AreParentRoots mapping.now joins.now child entries.now) }
    {
        let Some(parent) = mapping.parent_relation(child) else {
            unreachable!()
        };
        Ok(keyed(alloc, entries, mapping, joins, Side::Parents(parent))?)
    }

    /// The roots in order.
    fn as_slice(&self) -> &[KeyedRoot]
        ensures { result.now ≡ self.now }
    {
        self.roots.as_slice()
    }
}

/// The roots of a side, by ascending keys.
fn keyed(
    alloc: Global,
    entries: &[Entry],
    mapping: &Mapping,
    joins: &JoinOrdinals,
    side: Side,
) -> Result<KeyedRoots, NoMemory>
    requires { AreOrdinals entries.now joins.now }
    ensures { IfOk result (AreKeyed mapping.now joins.now side entries.now) }
{
    let mut roots = gathered(alloc, entries, mapping, joins, side)?;
    roots.sort_by_key(|root| root.key)?;
    Ok(KeyedRoots { roots })
}

/// The roots of a side, entry by entry.
fn gathered(
    alloc: Global,
    entries: &[Entry],
    mapping: &Mapping,
    joins: &JoinOrdinals,
    side: Side,
) -> Result<Vec<KeyedRoot>, NoMemory>
    requires { AreOrdinals entries.now joins.now }
    ensures { IfOk result (λ roots. AreKeyedTo mapping.now joins.now side entries.now (length entries.now) roots.items) }
{
    let mut roots = Vec::new(alloc);
    'entries: for place in 0..entries.len() {
        let segment = entries[place].segment();
        add_roots(alloc, mapping, joins, segment, place, side, &mut roots)?;
    }
    Ok(roots)
}

/// Adds those of an entry.
fn add_roots(
    alloc: Global,
    mapping: &Mapping,
    joins: &JoinOrdinals,
    segment: &Segment,
    place: usize,
    side: Side,
    roots: &mut Vec<KeyedRoot>,
) -> Result<(), NoMemory>
    requires { HaveRelations joins.now side segment.now place }
    ensures { OnOk result (AddsKeyed mapping.now joins.now side segment.now place segment.now.documents roots.old.items roots.new.items) }
{
    let set = scope_set(alloc, segment, 0)?;
    let mut ranks = Ranks::over(&set);
    'documents: for doc in 0..set.len() {
        let rank = ranks.before(doc);
        if let Some(key) = key_if(mapping, joins, segment, place, &set, doc, rank, side) {
            roots.push(KeyedRoot { key, place, doc })?;
        }
    }
    Ok(())
}

/// The roots of a child relation whose parent tree's root is a hit, as `with_parent_by` has them. No child is looked at but
/// those of the hits.
pub fn children_led(
    alloc: Global,
    entries: &[Entry],
    mapping: &Mapping,
    joins: &JoinOrdinals,
    hits: &Matches,
    child: u32,
    children: &KeyedRoots,
) -> Result<Matches, NoMemory>
    requires long { AreLong entries.now hits.now }
    requires joined { AreOrdinals entries.now joins.now }
    requires child { IsChildRelation mapping.now child }
    requires children { AreChildRoots mapping.now joins.now child entries.now children.now }
    ensures long { IfOk result (AreLong entries.now) }
    ensures seen { (given : List Tree → Object → Option ℕ) → IsSeen mapping.now entries.now 0 given hits.now → IfOk result (IsSeen mapping.now entries.now 0 (by_relation mapping.now child given)) }
{
    objects_nest();
    let _scopes = mapping.scope_count();
    let Some(parent) = mapping.parent_relation(child) else {
        unreachable!()
    };
    let made = led(
        alloc,
        entries,
        mapping,
        joins,
        hits,
        Side::Parents(parent),
        Side::Children(child),
        children,
    )?;
    Ok(made)
}

/// The roots with a child tree of a relation whose root is a hit, each with the score 1. No parent is looked at but those of
/// the hits.
pub fn parents_led(
    alloc: Global,
    entries: &[Entry],
    mapping: &Mapping,
    joins: &JoinOrdinals,
    hits: &Matches,
    child: u32,
    parents: &KeyedRoots,
) -> Result<Matches, NoMemory>
    requires long { AreLong entries.now hits.now }
    requires joined { AreOrdinals entries.now joins.now }
    requires child { IsChildRelation mapping.now child }
    requires parents { AreParentRoots mapping.now joins.now child entries.now parents.now }
    ensures long { IfOk result (AreLong entries.now) }
    ensures seen { (given : List Tree → Object → Option ℕ) → IsSeen mapping.now entries.now 0 given hits.now → IfOk result (IsSeen mapping.now entries.now 0 (any_child_by mapping.now child given)) }
{
    objects_nest();
    let _scopes = mapping.scope_count();
    let Some(parent) = mapping.parent_relation(child) else {
        unreachable!()
    };
    let made = led(
        alloc,
        entries,
        mapping,
        joins,
        hits,
        Side::Children(child),
        Side::Parents(parent),
        parents,
    )?;
    Ok(made)
}

/// The roots of a side that the hits of the other lead to, each with the score 1.
fn led(
    alloc: Global,
    entries: &[Entry],
    mapping: &Mapping,
    joins: &JoinOrdinals,
    hits: &Matches,
    from: Side,
    _to: Side,
    roots: &KeyedRoots,
) -> Result<Matches, NoMemory>
    requires long { AreLong entries.now hits.now }
    requires ordinals { AreOrdinals entries.now joins.now }
    requires keyed { AreKeyed mapping.now joins.now _to entries.now roots.now }
    ensures long { IfOk result (AreLong entries.now) }
    ensures given { IfOk result (λ made. made ≡ given_by mapping.now joins.now _to (Answer.Parent false 1) (told_by mapping.now joins.now from 0 entries.now hits.now) 0 entries.now) }
{
    let mut sets = empty_sets(alloc, entries)?;
    lead_all(
        alloc,
        entries,
        mapping,
        joins,
        hits,
        from,
        roots.as_slice(),
        &mut sets,
    )?;
    Ok(Matches::of(alike(alloc, sets)?))
}

/// An empty set for each entry.
fn empty_sets(alloc: Global, entries: &[Entry]) -> Result<Vec<BitSet>, NoMemory>
    ensures { IfOk result (λ sets. sets.items ≡ map none_in entries.now) }
{
    let mut sets = Vec::with_capacity(alloc, entries.len())?;
    'entries: for at in 0..entries.len() {
        sets.push(BitSet::empty(alloc, entries[at].segment().docs())?)?;
    }
    Ok(sets)
}

/// The documents of sets, all with the score 1.
fn alike(alloc: Global, sets: Vec<BitSet>) -> Result<Vec<Scored>, NoMemory>
    ensures { IfOk result (λ made. made.items ≡ map (filled (Some 1)) sets.items) }
{
    let mut made = Vec::with_capacity(alloc, sets.len())?;
    'sets: for set in sets {
        made.push(Scored::same(set, 1))?;
    }
    Ok(made)
}

/// Puts the documents of the roots that hits lead to into the sets of their entries.
fn lead_all(
    alloc: Global,
    entries: &[Entry],
    mapping: &Mapping,
    joins: &JoinOrdinals,
    hits: &Matches,
    side: Side,
    roots: &[KeyedRoot],
    sets: &mut Vec<BitSet>,
) -> Result<(), NoMemory>
    requires long { AreLong entries.now hits.now }
    requires ordinals { AreOrdinals entries.now joins.now }
    requires sorted { IsInKeyOrder roots.now }
    requires within { All (IsWithin (map length sets.old.items)) roots.now }
    ensures long { map length sets.new.items ≡ map length sets.old.items }
    ensures led { OnOk result (Led roots.now sets.old.items (told_by mapping.now joins.now side 0 entries.now hits.now) sets.new.items) }
{
    let hits = hits.as_slice();
    'entries: for place in 0..entries.len() {
        let segment = entries[place].segment();
        let own = scope_set(alloc, segment, 0)?;
        lead(
            mapping,
            joins,
            segment,
            place,
            &own,
            side,
            &hits[place],
            roots,
            sets,
        );
    }
    Ok(())
}

/// The same for the hits of an entry. It goes from hit to hit, and reads of no other root.
fn lead(
    mapping: &Mapping,
    joins: &JoinOrdinals,
    segment: &Segment,
    place: usize,
    own: &BitSet,
    side: Side,
    hits: &Scored,
    roots: &[KeyedRoot],
    sets: &mut Vec<BitSet>,
)
    requires documents { length hits.now ≡ length own.now }
    requires own { own.now ≡ documents_of (scopes_in segment.now) 0 }
    requires relations { HaveRelations joins.now side segment.now place }
    requires sorted { IsInKeyOrder roots.now }
    requires within { All (IsWithin (map length sets.old.items)) roots.now }
    ensures long { map length sets.new.items ≡ map length sets.old.items }
    ensures led { Led roots.now sets.old.items (told (keys_at mapping.now joins.now side segment.now place) (of_roots own.now hits.now)) sets.new.items }
{
    places_are_nearest::<Option<u64>>();
    let _documents = hits.len();
    let mut ranks = Ranks::over(own);
    let mut left = hits.cursor();
    'documents: while let Some(doc) = left.peek() {
        let score = take_at(&mut left, doc);
        let rank = ranks.before(doc);
        let key = key_if(mapping, joins, segment, place, own, doc, rank, side);
        lead_one(key, score, roots, sets);
    }
}

/// Puts the documents of the roots of a key into the sets, where there are a key and a score.
fn lead_one(key: Option<u32>, score: Option<u64>, roots: &[KeyedRoot], sets: &mut Vec<BitSet>)
    requires sorted { IsInKeyOrder roots.now }
    requires within { All (IsWithin (map length sets.old.items)) roots.now }
    ensures long { map length sets.new.items ≡ map length sets.old.items }
    ensures led { Led roots.now sets.old.items (pair_if key score) sets.new.items }
{
    let Some(key) = key else {
        return;
    };
    if score.is_some() {
        put_key(key, roots, sets);
    }
}

/// Puts the documents of the roots of a key into the sets.
fn put_key(key: u32, roots: &[KeyedRoot], sets: &mut Vec<BitSet>)
    requires sorted { IsInKeyOrder roots.now }
    requires within { All (IsWithin (map length sets.old.items)) roots.now }
    ensures long { map length sets.new.items ≡ map length sets.old.items }
    ensures led { (place doc : ℕ) → flag_at sets.new.items place doc ≡ (flag_at sets.old.items place doc || leads_to roots.now place doc key) }
{
    let mut at = roots.partition_point(|root| root.key < key);
    'roots: while at < roots.len() {
        let root = &roots[at];
        if root.key != key {
            return;
        }
        put_root(root, sets);
        at += 1;
    }
}

/// Puts the document of a root into the set of its entry.
fn put_root(root: &KeyedRoot, sets: &mut Vec<BitSet>)
    requires { IsWithin (map length sets.old.items) root.now }
    ensures long { map length sets.new.items ≡ map length sets.old.items }
    ensures put { (place doc : ℕ) → flag_at sets.new.items place doc ≡ (flag_at sets.old.items place doc || ((root.now.place == place) && (root.now.doc == doc))) }
{
    let set = &mut sets[root.place];
    set.set(root.doc);
}
