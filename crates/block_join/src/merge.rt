//! Two lists of scores put together.

ghost use Rattle.std.specs.Prelude.{◌≡◌, ◌+◌, ◌<◌, ◌≤◌, ◌^◌, true, length, replicate, Some, None, slice_index_or, IfSome, IfOk};
ghost use Rattle.std.specs.Option.{is_some};
ghost use Rattle.block_bits.specs.Places.{next_place};
ghost use Rattle.block_join.specs.Kept.{next_by};
ghost use Rattle.block_join.specs.Merge.{paired, put_together};
ghost use Rattle.block_join.specs.Scores.{filled};
ghost use Rattle.block_join.specs.declared.rule.Rule.{Rule};
ghost use Rattle.score_math.specs.declared.score.TheConstants.{SCORE_CAP};

use crate::{Builder, Cursor, NoMemory, Rule, Scored};
use block_bits::BitSet;
use std::alloc::Global;

/// Lists with fewer documents than one in so many are put together document by document, since a set costs all its words.
const FEW: u32 = 512;

/// The scores of one list and another, put together document by document.
///
/// It costs the documents that have one of the two; where a rule asks for both, those of the one that has fewer. Sums of
/// lists that have one score each cost an addition for 64 documents.
pub fn merged(alloc: Global, one: &Scored, other: &Scored, rule: Rule) -> Result<Scored, NoMemory>
    requires { length one.now ≡ length other.now }
    ensures scores { IfOk result (λ made. made ≡ paired (put_together rule) one.now other.now) }
    ensures long { IfOk result (λ made. length made ≡ length one.now) }
{
    match merged_parts(alloc, one, other, rule)? {
        Some(made) => Ok(made),
        None => Ok(merged_each(alloc, one, other, rule)?),
    }
}

/// The same as a sum of parts, where there are so many documents and so few parts that it costs less.
#[tactic(auto, using(crate::proofs::Totals::counted_sets))]
fn merged_parts(
    alloc: Global,
    one: &Scored,
    other: &Scored,
    rule: Rule,
) -> Result<Option<Scored>, NoMemory>
    requires { length one.now ≡ length other.now }
    ensures { IfOk result (λ made. IfSome made (λ made. made ≡ paired (put_together rule) one.now other.now)) }
{
    match rule {
        Rule::Either => {
            let Some(score) = other.shared() else {
                return Ok(None);
            };
            Ok(added(alloc, one, other.set(), score)?)
        }
        Rule::Counted => Ok(added(alloc, one, other.set(), 1)?),
        Rule::Plus => {
            let Some(score) = other.shared() else {
                return Ok(None);
            };
            Ok(added_inside(alloc, one, other.set(), score)?)
        }
        Rule::Both => {
            let Some(0) = one.shared() else {
                return Ok(None);
            };
            if are_few(one.set()) {
                return Ok(None);
            }
            Ok(other.cut(alloc, one.set())?)
        }
        _ => Ok(None),
    }
}

/// Scores with one more for the documents of a set.
fn added(alloc: Global, one: &Scored, set: &BitSet, score: u64) -> Result<Option<Scored>, NoMemory>
    requires long { length set.now ≡ length one.now }
    requires capped { score ≤ SCORE_CAP }
    ensures { IfOk result (λ made. IfSome made (λ made. made ≡ paired (put_together Rule.Either) one.now (filled (Some score) set.now))) }
{
    if have_none(one) {
        return Ok(Some(Scored::same(set.copy(alloc)?, score)));
    }
    if one.has_many_parts() || (are_few(one.set()) && are_few(set)) {
        return Ok(None);
    }
    Ok(one.plus(alloc, set, score)?)
}

/// Scores with one more for those of their documents that are in a set.
fn added_inside(
    alloc: Global,
    one: &Scored,
    set: &BitSet,
    score: u64,
) -> Result<Option<Scored>, NoMemory>
    requires long { length set.now ≡ length one.now }
    requires capped { score ≤ SCORE_CAP }
    ensures { IfOk result (λ made. IfSome made (λ made. made ≡ paired (put_together Rule.Plus) one.now (filled (Some score) set.now))) }
{
    if one.has_many_parts() || are_few(one.set()) {
        return Ok(None);
    }
    let mut inside = set.copy(alloc)?;
    inside.and(one.set());
    Ok(one.plus(alloc, &inside, score)?)
}

/// Whether no document has a score.
fn have_none(scores: &Scored) -> bool
    ensures { result ≡ true → scores.now ≡ replicate (length scores.now) None }
{
    match scores.set().next_set(0) {
        Some(_) => false,
        None => true,
    }
}

/// Whether a set has fewer documents than one in `FEW`.
fn are_few(set: &BitSet) -> bool {
    set.count() < set.len() / FEW
}

/// The same from document to document.
fn merged_each(alloc: Global, one: &Scored, other: &Scored, rule: Rule) -> Result<Scored, NoMemory>
    requires { length one.now ≡ length other.now }
    ensures scores { IfOk result (λ made. made ≡ paired (put_together rule) one.now other.now) }
    ensures long { IfOk result (λ made. length made ≡ length one.now) }
{
    let len = one.len();
    let mut hits = Builder::empty(alloc, len)?;
    let mut first = one.cursor();
    let mut second = other.cursor();
    'hits: while let Some(doc) = next_of(&first, &second, rule) {
        let a = take_at(&mut first, doc);
        let b = take_at(&mut second, doc);
        hits.put(doc, rule.apply(a, b))?;
    }
    Ok(hits.finish())
}

/// The next document that may have a score by the rule.
fn next_of(first: &Cursor, second: &Cursor, rule: Rule) -> Option<u32>
    requires from { second.now.from ≡ first.now.from }
    requires long { length second.now.scores ≡ length first.now.scores }
    ensures value { result ≡ next_by rule (next_place is_some first.now.from first.now.scores) (next_place is_some second.now.from second.now.scores) }
    ensures within { IfSome result (λ doc. (first.now.from ≤ doc) × (doc < length first.now.scores)) }
{
    match rule {
        Rule::Both | Rule::Kept => match (first.peek(), second.peek()) {
            (Some(a), Some(b)) => Some(a.max(b)),
            _ => None,
        },
        Rule::Without | Rule::Plus | Rule::AtLeast(_) => first.peek(),
        Rule::Either | Rule::Greatest | Rule::Counted => match (first.peek(), second.peek()) {
            (Some(a), Some(b)) => Some(a.min(b)),
            (Some(a), None) => Some(a),
            (None, second) => second,
        },
    }
}

/// The score of a document, behind which the cursor goes on.
fn take_at(cursor: &mut Cursor, doc: u32) -> Option<u64>
    requires ordered { cursor.old.from ≤ doc }
    requires within { doc < length cursor.old.scores }
    requires small { length cursor.old.scores < 2 ^ 32 }
    ensures value { result ≡ slice_index_or cursor.old.scores doc None }
    ensures capped { IfSome result (λ score. score ≤ SCORE_CAP) }
    ensures place { cursor.new ≡ record { scores = cursor.old.scores; from = doc + 1 } }
{
    cursor.skip(doc);
    cursor.next_before(doc + 1)
}
