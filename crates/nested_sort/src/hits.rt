//! The documents that were found, one after another.
ghost use Rattle.std.specs.Prelude.{◌≡◌, ◌++◌, ◌∷◌, ◌<◌, ◌≤◌, [], length, IfSome, IfNone, IfOk, OnOk};
ghost use Rattle.std.specs.List.{All};
ghost use Rattle.nested_sort.specs.Listed.{IsCapped};
ghost use Rattle.view_objects.specs.Hits.{hits_between, hits_from, hits_in};

use crate::NoMemory;
use block_join::{Cursor, Scored};
use std::alloc::Global;
use view_objects::Hit;

/// The documents with a score, entry by entry.
pub(crate) fn hits_found(alloc: Global, found: &[Scored]) -> Result<Vec<Hit>, NoMemory>
    ensures hits { IfOk result (λ hits. hits.items ≡ hits_in found.now) }
    ensures capped { IfOk result (λ hits. All IsCapped hits.items) }
{
    let mut hits = Vec::new(alloc);
    'entries: for at in 0..found.len() {
        add_hits(at as u64, &found[at], &mut hits)?;
    }
    Ok(hits)
}

/// Adds those of the entry at a place.
fn add_hits(place: u64, found: &Scored, hits: &mut Vec<Hit>) -> Result<(), NoMemory>
    ensures hits { OnOk result (hits.new.items ≡ hits.old.items ++ hits_from place 0 found.now) }
    ensures capped { OnOk result (All IsCapped hits.old.items → All IsCapped hits.new.items) }
{
    let end = found.len();
    let mut left = found.cursor();
    'found: while let Some(hit) = next_hit(&mut left, place, end) {
        hits.push(hit)?;
    }
    Ok(())
}

/// The next document with a score, before `end`. The cursor goes on behind it.
#[tactic(auto, using(crate::proofs::Ranges::none_told))]
pub fn next_hit(left: &mut Cursor, place: u64, end: u32) -> Option<Hit>
    requires ordered { left.old.from ≤ end }
    requires within { end ≤ length left.old.scores }
    ensures scores { left.new.scores ≡ left.old.scores }
    ensures later { IfSome result (λ hit. (left.old.from < left.new.from) × (left.new.from ≤ end)) }
    ensures hit { IfSome result (λ hit. hits_between place left.old.from end left.old.scores ≡ hit ∷ hits_between place left.new.from end left.old.scores) }
    ensures capped { IfSome result IsCapped }
    ensures within { IfSome result (λ hit. (hit.place ≡ place) × (hit.doc < end)) }
    ensures none { IfNone result (hits_between place left.old.from end left.old.scores ≡ []) }
{
    let score = left.next_before(end)?;
    let doc = left.from() - 1;
    Some(Hit { place, doc, score })
}
