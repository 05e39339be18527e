//! Joins of trees: scores of roots go to the roots of their parents, or of their children.

ghost use Rattle.std.specs.Prelude.{◌≡◌, ◌<◌, ◌≤◌, ◌+◌, ◌^◌, ℕ, List, [], ◌++◌, get_or, length, map, Option, None, IfOk, IfSome, OnOk};
ghost use Rattle.block_bits.specs.Blocks.{documents_of};
ghost use Rattle.join_ordinals.specs.Ordinals.{AreOrdinals};
ghost use Rattle.query_ast.specs.Resolved.{IsChildRelation, IsParentRelation};
ghost use Rattle.query_eval.specs.Folds.{scopes_in};
ghost use Rattle.query_eval.specs.Found.{AreLong, IsSeen};
ghost use Rattle.query_eval.specs.declared.answer.Answer.{Answer};
ghost use Rattle.query_eval.specs.Sides.{HaveRelations, HaveTallies, AreKeyScores, answer_for, at_roots, by_relation, children_by, given_by, key_count, keys_at, of_roots, pair_if, parent_by, told, told_by};
ghost use Rattle.score_math.specs.declared.score.TheConstants.{SCORE_CAP};
ghost use Rattle.segment.specs.Live.{root_of};
ghost use Rattle.segment_parts.specs.Parts.{root_flags};
ghost use Rattle.tree_objects.specs.Object.{Object};
ghost use Rattle.tree_objects.specs.Tree.{Tree};

use crate::NoMemory;
use crate::answer::Answer;
use crate::key_scores::KeyScores;
use crate::nests::scope_set;
use crate::ranks::Ranks;
use crate::side::{Side, is_kept_on, kept_key, ordinal_by};
use block_bits::{BitSet, places_are_nearest};
use block_join::{Builder, Cursor, Matches, Scored};
use join_ordinals::JoinOrdinals;
use mapping::Mapping;
use score_math::ScoreMode;
use segment::{Segment, scopes_are_of_documents};
use segment_view::Entry;
use std::alloc::Global;
use tree_objects::objects_nest;

/// The roots with so many child trees of a relation whose roots are hits, each with the mode of their scores.
pub fn with_children(
    alloc: Global,
    entries: &[Entry],
    mapping: &Mapping,
    joins: &JoinOrdinals,
    hits: &Matches,
    child: u32,
    mode: ScoreMode,
    least: u64,
    most: Option<u64>,
) -> Result<Matches, NoMemory>
    requires long { AreLong entries.now hits.now }
    requires joined { AreOrdinals entries.now joins.now }
    requires child { IsChildRelation mapping.now child }
    ensures long { IfOk result (AreLong entries.now) }
    ensures seen { (given : List Tree → Object → Option ℕ) → IsSeen mapping.now entries.now 0 given hits.now → IfOk result (IsSeen mapping.now entries.now 0 (children_by mapping.now child mode least most given)) }
{
    objects_nest();
    let _scopes = mapping.scope_count();
    let Some(parent) = mapping.parent_relation(child) else {
        unreachable!()
    };
    let answer = Answer::Children { mode, least, most };
    let made = joined(
        alloc,
        entries,
        mapping,
        joins,
        hits,
        Side::Children(child),
        Side::Parents(parent),
        answer,
    )?;
    Ok(made)
}

/// The roots whose parent tree is of a relation and its root a hit, each with the hit's score or a boost.
pub(crate) fn with_parent(
    alloc: Global,
    entries: &[Entry],
    mapping: &Mapping,
    joins: &JoinOrdinals,
    hits: &Matches,
    parent: u32,
    score: bool,
    boost: u32,
) -> Result<Matches, NoMemory>
    requires long { AreLong entries.now hits.now }
    requires joined { AreOrdinals entries.now joins.now }
    ensures { (given : List Tree → Object → Option ℕ) → IsSeen mapping.now entries.now 0 given hits.now → IfOk result (IsSeen mapping.now entries.now 0 (parent_by mapping.now parent score boost given)) }
{
    objects_nest();
    let _scopes = mapping.scope_count();
    let answer = Answer::Parent { score, boost };
    let made = joined(
        alloc,
        entries,
        mapping,
        joins,
        hits,
        Side::Parents(parent),
        Side::ChildrenOf(parent),
        answer,
    )?;
    Ok(made)
}

/// The roots of a child relation whose parent tree's root is a hit.
pub fn with_parent_by(
    alloc: Global,
    entries: &[Entry],
    mapping: &Mapping,
    joins: &JoinOrdinals,
    hits: &Matches,
    child: u32,
) -> Result<Matches, NoMemory>
    requires long { AreLong entries.now hits.now }
    requires joined { AreOrdinals entries.now joins.now }
    requires child { IsChildRelation mapping.now child }
    ensures long { IfOk result (AreLong entries.now) }
    ensures seen { (given : List Tree → Object → Option ℕ) → IsSeen mapping.now entries.now 0 given hits.now → IfOk result (IsSeen mapping.now entries.now 0 (by_relation mapping.now child given)) }
{
    objects_nest();
    let _scopes = mapping.scope_count();
    let Some(parent) = mapping.parent_relation(child) else {
        unreachable!()
    };
    let answer = Answer::Parent {
        score: false,
        boost: 1,
    };
    let made = joined(
        alloc,
        entries,
        mapping,
        joins,
        hits,
        Side::Parents(parent),
        Side::Children(child),
        answer,
    )?;
    Ok(made)
}

/// What the roots of one side are given by the hits among those of the other.
fn joined(
    alloc: Global,
    entries: &[Entry],
    mapping: &Mapping,
    joins: &JoinOrdinals,
    hits: &Matches,
    from: Side,
    to: Side,
    answer: Answer,
) -> Result<Matches, NoMemory>
    requires long { AreLong entries.now hits.now }
    requires ordinals { AreOrdinals entries.now joins.now }
    ensures long { IfOk result (AreLong entries.now) }
    ensures given { IfOk result (λ made. made ≡ given_by mapping.now joins.now to answer (told_by mapping.now joins.now from 0 entries.now hits.now) 0 entries.now) }
{
    let keyed = gathered(alloc, entries, mapping, joins, hits, from, answer)?;
    let mut made = Vec::with_capacity(alloc, entries.len())?;
    'entries: for place in 0..entries.len() {
        let segment = entries[place].segment();
        let scores = given(alloc, mapping, joins, segment, place, to, &keyed)?;
        made.push(scores)?;
    }
    Ok(Matches::of(made))
}

/// The scores of the hits of a side by their keys, for an answer.
fn gathered(
    alloc: Global,
    entries: &[Entry],
    mapping: &Mapping,
    joins: &JoinOrdinals,
    hits: &Matches,
    side: Side,
    answer: Answer,
) -> Result<KeyScores, NoMemory>
    requires long { AreLong entries.now hits.now }
    requires ordinals { AreOrdinals entries.now joins.now }
    ensures long { IfOk result (λ keyed. key_count keyed ≡ joins.now.count) }
    ensures scores { IfOk result (AreKeyScores answer (told_by mapping.now joins.now side 0 entries.now hits.now)) }
{
    let hits = hits.as_slice();
    let mut keyed = KeyScores::none(alloc, joins.count(), answer)?;
    'entries: for place in 0..entries.len() {
        let segment = entries[place].segment();
        let roots = scope_set(alloc, segment, 0)?;
        tell(
            &mut keyed,
            mapping,
            joins,
            segment,
            place,
            &roots,
            side,
            &hits[place],
        )?;
    }
    Ok(keyed)
}

/// Adds the scores of an entry's roots to those of their keys. It goes from hit to hit, and reads of no other root.
fn tell(
    keyed: &mut KeyScores,
    mapping: &Mapping,
    joins: &JoinOrdinals,
    segment: &Segment,
    place: usize,
    roots: &BitSet,
    side: Side,
    hits: &Scored,
) -> Result<(), NoMemory>
    requires documents { length hits.now ≡ length roots.now }
    requires roots { roots.now ≡ documents_of (scopes_in segment.now) 0 }
    requires keys { HaveTallies joins.now side place (key_count keyed.old) }
    requires relations { HaveRelations joins.now side segment.now place }
    ensures long { key_count keyed.new ≡ key_count keyed.old }
    ensures scores { (asked : Answer) (pairs : List (ℕ × ℕ)) → AreKeyScores asked pairs keyed.old
        → OnOk result (AreKeyScores asked (pairs ++ told (keys_at mapping.now joins.now side segment.now place) (of_roots roots.now hits.now)) keyed.new) }
{
    places_are_nearest::<Option<u64>>();
    let _documents = hits.len();
    let mut ranks = Ranks::over(roots);
    let mut left = hits.cursor();
    'documents: while let Some(doc) = left.peek() {
        let score = take_at(&mut left, doc);
        let rank = ranks.before(doc);
        let key = key_if(mapping, joins, segment, place, roots, doc, rank, side);
        tell_one(keyed, key, score)?;
    }
    Ok(())
}

/// The score of a document, if it has one. The cursor goes on behind it.
#[tactic(auto, using(crate::proofs::Walking::took))]
pub(crate) fn take_at(left: &mut Cursor, doc: u32) -> Option<u64>
    requires ordered { left.old.from ≤ doc }
    requires within { doc < length left.old.scores }
    requires numbered { length left.old.scores < 2 ^ 32 }
    ensures value { result ≡ get_or left.old.scores doc None }
    ensures capped { IfSome result (λ score. score ≤ SCORE_CAP) }
    ensures place { left.new ≡ record { scores = left.old.scores; from = doc + 1 } }
{
    left.skip(doc);
    left.next_before(doc + 1)
}

/// The key of the root at a document, if it takes part; none where the document is no root's. The rank is a guess.
pub(crate) fn key_if(
    mapping: &Mapping,
    joins: &JoinOrdinals,
    segment: &Segment,
    place: usize,
    roots: &BitSet,
    doc: u32,
    rank: u32,
    side: Side,
) -> Option<u32>
    requires document { doc < length roots.now }
    requires roots { roots.now ≡ documents_of (scopes_in segment.now) 0 }
    requires relations { HaveRelations joins.now side segment.now place }
    ensures key { result ≡ get_or (at_roots roots.now (keys_at mapping.now joins.now side segment.now place)) doc None }
    ensures within { (count : ℕ) → HaveTallies joins.now side place count → IfSome result (λ key. key < count) }
{
    if !roots.has(doc) {
        return None;
    }
    scopes_are_of_documents(segment);
    let _documents = segment.docs();
    kept_key(mapping, joins, place, root_at(segment, doc, rank), side)
}

/// The root at a document: that of the rank, if the rank is the document's.
fn root_at(segment: &Segment, doc: u32, rank: u32) -> u32
    requires { doc < segment.now.documents }
    ensures root { result ≡ root_of (root_flags segment.now.scopes) doc }
    ensures within { result < length segment.now.roots }
{
    if rank < segment.roots() && segment.root_doc(rank) == doc {
        return rank;
    }
    segment.root_of_doc(doc)
}

/// Adds a score to those of its key, where there are both.
fn tell_one(keyed: &mut KeyScores, key: Option<u32>, score: Option<u64>) -> Result<(), NoMemory>
    requires key { IfSome key (λ key. key < key_count keyed.old) }
    requires capped { IfSome score (λ score. score ≤ SCORE_CAP) }
    ensures long { key_count keyed.new ≡ key_count keyed.old }
    ensures scores { (asked : Answer) (pairs : List (ℕ × ℕ)) → AreKeyScores asked pairs keyed.old → OnOk result (AreKeyScores asked (pairs ++ pair_if key score) keyed.new) }
{
    let Some(key) = key else {
        return Ok(());
    };
    let Some(score) = score else {
        return Ok(());
    };
    keyed.add(key, score)?;
    Ok(())
}

/// What the roots of an entry are given. The documents are looked up of those roots alone that are given something.
fn given(
    alloc: Global,
    mapping: &Mapping,
    joins: &JoinOrdinals,
    segment: &Segment,
    place: usize,
    side: Side,
    keyed: &KeyScores,
) -> Result<Scored, NoMemory>
    requires keys { HaveTallies joins.now side place (key_count keyed.now) }
    requires relations { HaveRelations joins.now side segment.now place }
    ensures scores { (asked : Answer) (pairs : List (ℕ × ℕ)) → AreKeyScores asked pairs keyed.now → IfOk result (λ scores. scores ≡ at_roots (documents_of (scopes_in segment.now) 0) (map (answer_for asked pairs) (keys_at mapping.now joins.now side segment.now place))) }
    ensures long { IfOk result (λ scores. length scores ≡ segment.now.documents) }
{
    scopes_are_of_documents(segment);
    let documents = segment.docs();
    let count = segment.roots();
    let mut hits = Builder::empty(alloc, documents)?;
    'roots: for root in 0..count {
        if let Some(score) = given_to(mapping, joins, segment, place, root, side, keyed) {
            hits.push(segment.root_doc(root), score)?;
        }
    }
    Ok(hits.finish())
}

/// What a root is given. Its relation is looked at only where its ordinal has scores.
fn given_to(
    mapping: &Mapping,
    joins: &JoinOrdinals,
    _segment: &Segment,
    place: usize,
    root: u32,
    side: Side,
    keyed: &KeyScores,
) -> Option<u64>
    requires root { root < length _segment.now.roots }
    requires keys { HaveTallies joins.now side place (key_count keyed.now) }
    requires relations { HaveRelations joins.now side _segment.now place }
    ensures given { (asked : Answer) (pairs : List (ℕ × ℕ)) → AreKeyScores asked pairs keyed.now → result ≡ get_or (map (answer_for asked pairs) (keys_at mapping.now joins.now side _segment.now place)) root None }
    ensures capped { IfSome result (λ score. score ≤ SCORE_CAP) }
{
    let Some(ordinal) = ordinal_by(joins, place, root, side) else {
        return None;
    };
    let Some(score) = keyed.given(ordinal) else {
        return None;
    };
    if is_kept_on(mapping, joins, place, root, side) {
        Some(score)
    } else {
        None
    }
}
