//! The search for the first document from a given one on, among entries of one width.

ghost use Rattle.std.specs.Prelude.{◌≡◌, ℕ, ◌*◌, ◌+◌, ◌<◌, ◌≤◌, length};
ghost use Rattle.postings.specs.Search.{document_at, AreEntries, AreBelow};

use part_text::first_u32;

/// The document of entry `at`.
fn document_at(entries: &[u8], at: usize) -> u32
    requires { 8 * at + 8 ≤ length entries.now }
    ensures { result ≡ document_at entries.now at }
{
    first_u32(entries.split_at(8 * at).1)
}

/// Two places between which the first document from `to` on lies, in steps that double.
#[tactic(auto, using(crate::proofs::Places::below_upto))]
pub(crate) fn gallop(entries: &[u8], count: usize, to: u32) -> (usize, usize)
    requires { AreEntries entries.now count }
    ensures ordered { (result.0 ≤ result.1) × (result.1 ≤ count) }
    ensures below { AreBelow entries.now 0 result.0 to }
    ensures reached { result.1 < count → to ≤ document_at entries.now result.1 }
{
    let mut low = 0;
    let mut step = 1usize;
    'steps: while step <= count - low && document_at(entries, low + (step - 1)) < to {
        low += step;
        step = step.saturating_mul(2);
    }
    (low, low + (step - 1).min(count - low))
}

/// The first place from `low` on whose document is at or after `to`; `high` is such a place, or the end.
#[tactic(auto, using(crate::proofs::Places::below_upto))]
pub(crate) fn first_from(entries: &[u8], count: usize, low: usize, high: usize, to: u32) -> usize
    requires entries { AreEntries entries.now count }
    requires ordered { (low ≤ high) × (high ≤ count) }
    requires reached { high < count → to ≤ document_at entries.now high }
    ensures within { (low ≤ result) × (result ≤ high) }
    ensures below { AreBelow entries.now low result to }
    ensures reached { result < count → to ≤ document_at entries.now result }
{
    let mut first = low;
    let mut end = high;
    'halves: while first < end {
        let middle = first + (end - first) / 2;
        if document_at(entries, middle) < to {
            first = middle + 1;
        } else {
            end = middle;
        }
    }
    first
}
