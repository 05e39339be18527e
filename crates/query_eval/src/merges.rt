//! Scores of all entries of a view put together.

ghost use Rattle.std.specs.Prelude.{◌≡◌, ℕ, List, Option, length, map, is_some, IfOk, IfSome};
ghost use Rattle.std.specs.List.{list_all};
ghost use Rattle.block_bits.specs.Flags.{difference, intersection};
ghost use Rattle.block_join.specs.Merge.{paired, put_together};
ghost use Rattle.mapping.specs.Mapping.{Mapping as Meaning};
ghost use Rattle.query_eval.specs.Folds.{have_none, narrows, paired_by};
ghost use Rattle.query_eval.specs.Found.{AreLong, IsSeen};
ghost use Rattle.tree_objects.specs.Object.{Object};
ghost use Rattle.tree_objects.specs.Tree.{Tree};

use crate::NoMemory;
use block_bits::BitSet;
use block_join::{Matches, Rule, Scored, merged};
use score_math::cap_add;
use segment_view::Entry;
use std::alloc::Global;

/// Whether no document has a score.
pub(crate) fn is_nothing(hits: &Matches) -> bool
    ensures { result ≡ list_all have_none hits.now }
{
    let all = hits.as_slice();
    'entries: for scores in all {
        if !have_none(scores) {
            return false;
        }
    }
    true
}

/// Whether no document of an entry has one.
fn have_none(scores: &Scored) -> bool
    ensures { result ≡ have_none scores.now }
{
    match scores.set().next_set(0) {
        Some(_) => false,
        None => true,
    }
}

/// Whether a document without a first score gets none.
pub(crate) fn narrows(rule: Rule) -> bool
    ensures { result ≡ narrows rule }
{
    match rule {
        Rule::Both | Rule::Kept | Rule::Without | Rule::Plus | Rule::AtLeast(_) => true,
        Rule::Either | Rule::Greatest | Rule::Counted => false,
    }
}

/// The scores of one list and another put together, document by document.
pub fn merges(
    alloc: Global,
    entries: &[Entry],
    one: &Matches,
    other: &Matches,
    rule: Rule,
) -> Result<Matches, NoMemory>
    requires one { AreLong entries.now one.now }
    requires other { AreLong entries.now other.now }
    ensures long { IfOk result (AreLong entries.now) }
    ensures seen { (m : Meaning) (n : ℕ) (first second : List Tree → Object → Option ℕ) → IsSeen m entries.now n first one.now → IsSeen m entries.now n second other.now
        → IfOk result (IsSeen m entries.now n (paired_by rule first second)) }
{
    let ones = one.as_slice();
    let others = other.as_slice();
    let mut made = Vec::with_capacity(alloc, entries.len())?;
    'entries: for at in 0..entries.len() {
        let scores = merged_scores(alloc, &ones[at], &others[at], rule)?;
        made.push(scores)?;
    }
    Ok(Matches::of(made))
}

/// Those of one entry.
fn merged_scores(
    alloc: Global,
    one: &Scored,
    other: &Scored,
    rule: Rule,
) -> Result<Scored, NoMemory>
    requires { length one.now ≡ length other.now }
    ensures scores { IfOk result (λ made. made ≡ paired (put_together rule) one.now other.now) }
    ensures long { IfOk result (λ made. length made ≡ length one.now) }
{
    match merged_sets(alloc, one, other, rule)? {
        Some(made) => Ok(made),
        None => Ok(merged(alloc, one, other, rule)?),
    }
}

/// The same by sets, 64 documents at a time, where no document gets a score of its own.
fn merged_sets(
    alloc: Global,
    one: &Scored,
    other: &Scored,
    rule: Rule,
) -> Result<Option<Scored>, NoMemory>
    requires { length one.now ≡ length other.now }
    ensures { IfOk result (λ made. IfSome made (λ made. made ≡ paired (put_together rule) one.now other.now)) }
{
    let Some(first) = one.shared() else {
        return Ok(None);
    };
    match rule {
        Rule::Both => {
            let Some(second) = other.shared() else {
                return Ok(None);
            };
            let set = in_both(alloc, one, other)?;
            Ok(Some(Scored::same(set, cap_add(first, second))))
        }
        Rule::Kept => {
            let set = in_both(alloc, one, other)?;
            Ok(Some(Scored::same(set, first)))
        }
        Rule::Without => {
            let set = in_first(alloc, one, other)?;
            Ok(Some(Scored::same(set, first)))
        }
        _ => Ok(None),
    }
}

/// The documents with scores of both.
fn in_both(alloc: Global, one: &Scored, other: &Scored) -> Result<BitSet, NoMemory>
    requires { length one.now ≡ length other.now }
    ensures { IfOk result (λ set. set ≡ intersection (map is_some one.now) (map is_some other.now)) }
{
    let mut set = one.set().copy(alloc)?;
    set.and(other.set());
    Ok(set)
}

/// The documents with a score of the first alone.
fn in_first(alloc: Global, one: &Scored, other: &Scored) -> Result<BitSet, NoMemory>
    requires { length one.now ≡ length other.now }
    ensures { IfOk result (λ set. set ≡ difference (map is_some one.now) (map is_some other.now)) }
{
    let mut set = one.set().copy(alloc)?;
    set.and_not(other.set());
    Ok(set)
}
