//! How many hits there are, where the hits themselves are not wanted.

ghost use Rattle.std.specs.Prelude.{◌≡◌, ℕ, List, Option, length, IfOk};
ghost use Rattle.mapping.specs.Mapping.{Mapping as Meaning, IsAbove};
ghost use Rattle.query_ast.specs.Clause.{leaf, match_all};
ghost use Rattle.query_eval.specs.Counted.{IsCount, up_marks};
ghost use Rattle.query_eval.specs.Found.{AreLong, IsSeen, score_by};
ghost use Rattle.query_eval.specs.Nested.{below_by};
ghost use Rattle.score_math.specs.Scores.{mode_of};
ghost use Rattle.score_math.specs.declared.score.ScoreMode.{ScoreMode};
ghost use Rattle.tree_objects.specs.Object.{Object};
ghost use Rattle.tree_objects.specs.Tree.{Tree};

use crate::NoMemory;
use crate::law::ups_are_counted;
use crate::nests::{lent_set, scope_set};
use block_bits::BitSet;
use block_join::{Matches, reached_count};
use leaf_search::live_documents;
use score_math::ScoreMode;
use segment::Segment;
use segment_view::Entry;
use std::alloc::Global;

/// How many objects of a scope have hits inside them.
pub fn up_count(alloc: Global, entries: &[Entry], hits: &Matches, to: u32) -> Result<u64, NoMemory>
    requires { AreLong entries.now hits.now }
    ensures { (m : Meaning) (from : ℕ) (given : List Tree → Object → Option ℕ) → IsAbove m to from → IsSeen m entries.now from given hits.now
        → IfOk result (IsCount m entries.now to (below_by m (mode_of ScoreMode.Max) from given)) }
{
    ups_are_counted();
    let hits = hits.as_slice();
    let mut count: u64 = 0;
    'entries: for at in 0..entries.len() {
        let own = marked_ups(alloc, entries[at].segment(), hits[at].set(), to)?;
        let Some(more) = count.checked_add(u64::from(own)) else {
            return Err(NoMemory);
        };
        count = more;
    }
    Ok(count)
}

/// How many documents of a scope of a segment have some of a set inside them.
pub fn marked_ups(alloc: Global, segment: &Segment, set: &BitSet, to: u32) -> Result<u32, NoMemory>
    requires { length set.now ≡ segment.now.documents }
    ensures { IfOk result (λ count. count ≡ up_marks segment.now to set.now) }
{
    match lent_set(segment, to) {
        Some(parents) => Ok(reached_count(parents, set)),
        None => {
            let parents = scope_set(alloc, segment, to)?;
            Ok(reached_count(&parents, set))
        }
    }
}

/// How many live objects of a scope there are. It takes no memory: `NoMemory` says that the count has no 64 bits.
pub fn live_count(entries: &[Entry], scope: u32) -> Result<u64, NoMemory>
    ensures { (m : Meaning) → IfOk result (IsCount m entries.now scope (score_by m (leaf match_all 1))) }
{
    let mut count: u64 = 0;
    'entries: for at in 0..entries.len() {
        let entry = &entries[at];
        let own = live_documents(entry.segment(), entry.live(), scope);
        let Some(more) = count.checked_add(u64::from(own)) else {
            return Err(NoMemory);
        };
        count = more;
    }
    Ok(count)
}
