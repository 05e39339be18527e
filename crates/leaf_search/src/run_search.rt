//! Words that stand one after the other in a document, by the positions of each.

ghost use Rattle.std.specs.Prelude.{◌≡◌, ℕ, ◌+◌, ◌-◌, ◌<◌, ◌≤◌, ◌^◌, true, false, length, slice_index, if◌then◌else◌, IsSome};
ghost use Rattle.std.specs.List.{All};
ghost use Rattle.postings.specs.Postings.{present};
ghost use Rattle.leaf_search.specs.Patterns.{AreApart, AreShifts, IsRun, positions_in, stands};

use crate::conjunction::has_position;
use postings::Cursor;

/// Whether words, each by the index of its cursor, stand one after the other in the document of the cursors.
///
/// Where no two words stand at one position it looks at a number of positions that grows with those of the words, and
/// never with the product of these and the words.
pub(crate) fn has_run(cursors: &[Cursor], words: &[usize], shifts: &[usize], apart: bool) -> bool
    requires there { All (λ cursor. IsSome (present cursor)) cursors.now }
    requires words { All (λ word. word < length cursors.now) words.now }
    requires some { 0 < length words.now }
    requires long { length shifts.now ≡ length words.now }
    requires shifts { AreShifts words.now shifts.now }
    requires apart { apart ≡ true → AreApart (positions_in cursors.now) }
    ensures found { result ≡ true → (start : ℕ) × IsRun (positions_in cursors.now) words.now start (length words.now) }
    ensures none { result ≡ false → (start : ℕ) → IsRun (positions_in cursors.now) words.now start (length words.now) → ⊥ }
{
    let first = &cursors[words[0]];
    let _document = first.doc();
    let mut start = 0;
    let mut count = 0;
    'positions: for i in 0..first.positions() {
        let position = first.position(i) as u64;
        if position >= start {
            let known = if position == start { count } else { 0 };
            let found = run_length(cursors, words, position, known);
            if found == words.len() {
                return true;
            }
            let (further, left) = moved(shifts, found, apart);
            start = position + further as u64;
            count = left;
        }
    }
    false
}

/// How many words stand from a position on, where some are known to.
fn run_length(cursors: &[Cursor], words: &[usize], start: u64, known: usize) -> usize
    requires there { All (λ cursor. IsSome (present cursor)) cursors.now }
    requires words { All (λ word. word < length cursors.now) words.now }
    requires short { start ≤ 2 ^ 32 }
    requires within { known ≤ length words.now }
    requires run { IsRun (positions_in cursors.now) words.now start known }
    ensures within { result ≤ length words.now }
    ensures run { IsRun (positions_in cursors.now) words.now start result }
    ensures stops { result < length words.now → stands (positions_in cursors.now) (slice_index words.now result) (start + result) ≡ false }
{
    let mut count = known;
    'words: while count < words.len() {
        if !has_position(&cursors[words[count]], start + count as u64) {
            return count;
        }
        count += 1;
    }
    count
}

/// By how many places to move on where so many words stand and the next doesn't, and how many stand there then; by one
/// where two words may stand at one position.
fn moved(shifts: &[usize], count: usize, apart: bool) -> (usize, usize)
    requires { count < length shifts.now }
    ensures further { result.0 ≡ if apart then slice_index shifts.now count else 1 }
    ensures left { result.1 ≡ if apart then count - slice_index shifts.now count else 0 }
{
    if !apart {
        return (1, 0);
    }
    let shift = shifts[count];
    (shift, count.saturating_sub(shift))
}
