//! How far a phrase has to be moved on where some of its words stand and the next doesn't (Knuth, Morris and Pratt).

ghost use Rattle.std.specs.Prelude.{◌≡◌, ◌<◌, ◌≤◌, length, IfOk};
ghost use Rattle.leaf_search.specs.Patterns.{AreShifts, IsShift};

use crate::NoMemory;
use std::alloc::Global;

/// For each number of words of a phrase, from none on, the least number of places by which those words can be moved on to
/// stand on themselves: 1, 1, 2, 2 and 2 for the words 0, 1, 0, 1 and 5.
pub(crate) fn shifts_of(alloc: Global, words: &[usize]) -> Result<Vec<usize>, NoMemory>
    requires { 0 < length words.now }
    ensures long { IfOk result (λ shifts. length shifts.items ≡ length words.now) }
    ensures shifts { IfOk result (λ shifts. AreShifts words.now shifts.items) }
{
    let mut shifts = Vec::with_capacity(alloc, words.len())?;
    shifts.push(1)?;
    'counts: while shifts.len() < words.len() {
        let shift = next_shift(words, shifts.as_slice());
        shifts.push(shift)?;
    }
    Ok(shifts)
}

/// The shift of one word more than those that are known.
fn next_shift(words: &[usize], shifts: &[usize]) -> usize
    requires some { 0 < length shifts.now }
    requires within { length shifts.now ≤ length words.now }
    requires shifts { AreShifts words.now shifts.now }
    ensures { IsShift words.now (length shifts.now) result }
{
    let last = shifts.len() - 1;
    let mut shift = shifts[last];
    'shifts: while shift <= last {
        if words[last] == words[last - shift] {
            return shift;
        }
        shift += shifts[last - shift];
    }
    shift
}
