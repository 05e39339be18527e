//! Documents with scores, and documents of a scope, in a range.
ghost use Rattle.std.specs.Prelude.{◌≡◌, ◌++◌, ◌<◌, ◌≤◌, ◌+◌, ℕ, false, get_or, length, IfSome, IfNone, OnOk};
ghost use Rattle.std.specs.List.{All};
ghost use Rattle.block_bits.specs.Blocks.{documents_of};
ghost use Rattle.query_eval.specs.Folds.{scopes_in};
ghost use Rattle.nested_sort.specs.Listed.{IsCapped};
ghost use Rattle.view_objects.specs.Hits.{count_between, hits_between, start_before};

use crate::NoMemory;
use block_bits::BitSet;
use block_join::Scored;
use nested_sort::next_hit;
use segment::{Segment, scopes_are_of_documents};
use view_objects::Hit;

/// Adds the documents with scores from one on, up to another.
#[tactic(auto, using(crate::proofs::Capped::capping))]
pub(crate) fn add_hits(
    scores: &Scored,
    place: u64,
    start: u32,
    end: u32,
    hits: &mut Vec<Hit>,
) -> Result<(), NoMemory>
    requires ordered { start ≤ end }
    requires within { end ≤ length scores.now }
    ensures hits { OnOk result (hits.new.items ≡ hits.old.items ++ hits_between place start end scores.now) }
    ensures capped { OnOk result (All IsCapped hits.old.items → All IsCapped hits.new.items) }
{
    let mut left = scores.cursor();
    left.skip(start);
    'hits: while let Some(hit) = next_hit(&mut left, place, end) {
        hits.push(hit)?;
    }
    Ok(())
}

/// The documents of a scope; None where the segment has none of it.
pub(crate) fn scope_docs(segment: &Segment, scope: u32) -> Option<&BitSet>
    ensures some { IfSome result (λ set. set.now ≡ documents_of (scopes_in segment.now) scope) }
    ensures none { IfNone result ((doc : ℕ) → get_or (documents_of (scopes_in segment.now) scope) doc false ≡ false) }
{
    scopes_are_of_documents(segment);
    let _documents = segment.docs();
    let scopes = segment.scopes().as_slice();
    let place = scope as usize;
    if place >= scopes.len() {
        return None;
    }
    Some(&scopes[place])
}

/// Where the documents inside a document of a scope begin.
#[tactic(auto, using(nested_sort::proofs::Scopes::starts))]
pub(crate) fn child_start(segment: &Segment, scope: u32, doc: u32) -> u32
    ensures start { result ≡ start_before scope doc (scopes_in segment.now) }
    ensures ordered { result ≤ doc }
{
    let Some(set) = scope_docs(segment, scope) else {
        return 0;
    };
    match set.prev_set(doc) {
        Some(before) => before + 1,
        None => 0,
    }
}

/// How many documents of a scope there are in a range.
#[tactic(auto, using(crate::proofs::Ranges::counts))]
pub(crate) fn count_between(segment: &Segment, scope: u32, start: u32, end: u32) -> u32
    requires { end ≤ segment.now.documents }
    ensures { result ≡ count_between scope start end (scopes_in segment.now) }
{
    let Some(set) = scope_docs(segment, scope) else {
        return 0;
    };
    let mut from = start;
    let mut count = 0;
    'inside: while let Some(at) = set.next_set_before(from, end) {
        count += 1;
        from = at + 1;
    }
    count
}
