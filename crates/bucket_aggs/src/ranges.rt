//! The terms of a keyword field in a segment, looked for near those of another.

ghost use Rattle.std.specs.Prelude.{◌≡◌, ◌<◌, ◌≤◌, ℕ, List, length, nat_lt, slice_get, Some};
ghost use Rattle.term_table.specs.Ranges.{IsRange, is_of_field};

use term_table::TermTable;

/// The terms of a field: the ordinal of the first, and the one past the last. They are looked for where they stood in another
/// segment.
///
/// The terms of all fields of a segment stand in one list. A search by halves of the whole list reads terms all over the segment,
/// which costs more than to count the documents of ten terms of a small one; in segments of one kind of trees this reads those
/// beside the two ends.
pub(crate) fn terms_of_field(terms: &TermTable, field: u32, near: (u64, u64)) -> (u64, u64)
    ensures ordered { result.0 ≤ result.1 }
    ensures within { result.1 ≤ length terms.now }
    ensures of_field { IsRange (is_of_field field) terms.now result.0 result.1 }
{
    let bound = u64::from(field);
    let first = terms_below(terms, bound, near.0);
    let end = terms_below(terms, bound + 1, near.1.saturating_sub(1));
    (first, end)
}

/// How many terms are of fields below a bound, looked for from an ordinal on in steps that double, and then by halves.
fn terms_below(terms: &TermTable, bound: u64, near: u64) -> u64
    ensures within { result ≤ length terms.now }
    ensures below { (ordinal : ℕ) (term : ℕ × List ℕ) → slice_get terms.now ordinal ≡ Some term → ordinal < result → term.0 < bound }
    ensures past { (ordinal : ℕ) (term : ℕ × List ℕ) → slice_get terms.now ordinal ≡ Some term → result ≤ ordinal → bound ≤ term.0 }
{
    let mut low = 0;
    let mut high = terms.count();
    let mut guess = near;
    let mut step: u64 = 1;
    'search: while low < high {
        let at = probe(low, high, guess);
        let away = step;
        step = step.saturating_mul(2);
        if is_below(terms, at, bound) {
            low = at + 1;
            guess = at.saturating_add(away);
        } else {
            high = at;
            guess = at.saturating_sub(away);
        }
    }
    low
}

/// A guess, where it lies from `low` on and before `high`, and else what lies in their middle.
fn probe(low: u64, high: u64, guess: u64) -> u64
    requires { low < high }
    ensures low { low ≤ result }
    ensures high { result < high }
{
    if guess < low {
        return low + (high - low) / 2;
    }
    if guess < high {
        return guess;
    }
    low + (high - low) / 2
}

/// Whether a term is of a field below a bound.
fn is_below(terms: &TermTable, ordinal: u64, bound: u64) -> bool
    requires { ordinal < length terms.now }
    ensures { (term : ℕ × List ℕ) → slice_get terms.now ordinal ≡ Some term → result ≡ nat_lt term.0 bound }
{
    let (field, _) = terms.term(ordinal);
    u64::from(field) < bound
}
