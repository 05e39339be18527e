//! The join up: scores of nested documents go to the documents around them.

ghost use Rattle.std.specs.Prelude.{◌≡◌, ℕ, ◌^◌, ◌<◌, ◌≤◌, List, [], length, map, Option, None, IfSome, IfOk};
ghost use Rattle.std.specs.List.{zip};
ghost use Rattle.std.specs.Option.{option_to_list};
ghost use Rattle.block_bits.specs.Blocks.{documents_of};
ghost use Rattle.score_math.specs.Scores.{mode_of};
ghost use Rattle.block_join.specs.Joins.{joined};
ghost use Rattle.block_join.specs.Kept.{AreAlike, next_parent};
ghost use Rattle.score_math.specs.declared.score.TheConstants.{SCORE_CAP};

use crate::reached::reached;
use crate::{Builder, Cursor, NoMemory, Scored};
use block_bits::{BitSet, ScopeBits};
use score_math::ScoreMode;
use source_steps::Steps;
use std::alloc::Global;
use std::sync::ledger::Ledger;

/// Each document of scope `to` that has hits of `child` inside it, with the mode of their scores.
///
/// The hits are documents of the scope `from`.
pub fn to_parent<L: Ledger>(
    alloc: Global,
    bits: &ScopeBits,
    child: &Scored,
    _from: u32,
    to: u32,
    mode: ScoreMode,
    steps: &mut Steps<L>,
) -> Result<Scored, NoMemory>
    requires scope { to < length bits.now.parents }
    requires documents { length child.now ≡ length bits.now.scopes }
    ensures scores { IfOk result (λ made. made ≡ joined (mode_of mode) None to [] (zip bits.now.scopes (map option_to_list child.now))) }
    ensures long { IfOk result (λ made. length made ≡ length bits.now.scopes) }
    ensures steps { steps.new ≡ steps.old }
{
    join_up(alloc, bits.documents(to), child, mode)
}

/// The join up to the documents of a set: each of them that has hits of `child` behind the one before it, with the mode of
/// their scores.
///
/// In blocks these are the hits inside it. It costs the hits; where they share one score, an addition for 64 documents.
pub fn join_up(
    alloc: Global,
    parents: &BitSet,
    child: &Scored,
    mode: ScoreMode,
) -> Result<Scored, NoMemory>
    requires { length child.now ≡ length parents.now }
    ensures scores { (scopes : List ℕ) (to : ℕ) → parents.now ≡ documents_of scopes to → IfOk result (λ made. made ≡ joined (mode_of mode) None to [] (zip scopes (map option_to_list child.now))) }
    ensures long { IfOk result (λ made. length made ≡ length parents.now) }
{
    match together(child, mode) {
        Some(score) => Ok(Scored::same(reached(alloc, parents, child.set())?, score)),
        None => Ok(join_each(alloc, parents, child, mode)?),
    }
}

/// The score that a document has for any number of the hits, where it is known without reading their scores.
#[tactic(auto, using(crate::proofs::Shared::alike_avg, crate::proofs::Shared::alike_max, crate::proofs::Shared::alike_min, crate::proofs::Shared::alike_zero))]
fn together(child: &Scored, mode: ScoreMode) -> Option<u64>
    ensures alike { IfSome result (AreAlike mode child.now) }
    ensures capped { IfSome result (λ score. score ≤ SCORE_CAP) }
{
    let own = child.shared()?;
    match mode {
        ScoreMode::Avg => Some(own),
        ScoreMode::Max => Some(own),
        ScoreMode::Min => Some(own),
        ScoreMode::Zero => Some(0),
        ScoreMode::Sum => None,
    }
}

/// The join up of hits with scores of their own.
fn join_each(
    alloc: Global,
    parents: &BitSet,
    child: &Scored,
    mode: ScoreMode,
) -> Result<Scored, NoMemory>
    requires { length child.now ≡ length parents.now }
    ensures scores { (scopes : List ℕ) (to : ℕ) → parents.now ≡ documents_of scopes to → IfOk result (λ made. made ≡ joined (mode_of mode) None to [] (zip scopes (map option_to_list child.now))) }
    ensures long { IfOk result (λ made. length made ≡ length parents.now) }
{
    let len = parents.len();
    let mut hits = Builder::empty(alloc, len)?;
    let mut left = child.cursor();
    'parents: while let Some(parent) = hitting_parent(parents, &left) {
        let score = left.mode_before(parent, mode);
        left.skip(parent + 1);
        hits.put(parent, score)?;
    }
    Ok(hits.finish())
}

/// The first parent that is or follows the next document that hits.
pub(crate) fn hitting_parent(parents: &BitSet, left: &Cursor) -> Option<u32>
    ensures value { result ≡ next_parent parents.now left.now.from left.now.scores }
    ensures within { IfSome result (λ parent. (left.now.from ≤ parent) × (parent < length parents.now)) }
{
    match left.peek() {
        Some(doc) => parents.next_set(doc),
        None => None,
    }
}
