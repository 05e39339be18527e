//! Whether the words of a document stand at a position each.

ghost use Rattle.std.specs.Prelude.{◌≡◌, ℕ, ◌+◌, ◌<◌, ◌≤◌, ◌==◌, true, false, length, slice_index_or, IsSome, IfOk};
ghost use Rattle.std.specs.List.{All, list_any};
ghost use Rattle.postings.specs.Postings.{present, present_positions};
ghost use Rattle.leaf_search.specs.Patterns.{AreApart, positions_in};

use crate::NoMemory;
use block_bits::BitSet;
use postings::Cursor;
use std::alloc::Global;

/// Whether no two words stand at one position of the document at which their cursors stand.
pub(crate) fn are_apart(alloc: Global, cursors: &[Cursor]) -> Result<bool, NoMemory>
    requires { All (λ cursor. IsSome (present cursor)) cursors.now }
    ensures { IfOk result (λ apart. apart ≡ true → AreApart (positions_in cursors.now)) }
{
    let mut taken = BitSet::empty(alloc, end_of(cursors))?;
    'cursors: for cursor in cursors {
        if !take_positions(cursor, &mut taken) {
            return Ok(false);
        }
    }
    Ok(true)
}

/// A number above the positions of the words.
fn end_of(cursors: &[Cursor]) -> u32
    requires { All (λ cursor. IsSome (present cursor)) cursors.now }
{
    let mut end = 0;
    'cursors: for cursor in cursors {
        let count = cursor.positions();
        if count > 0 {
            end = end.max(cursor.position(count - 1).saturating_add(1));
        }
    }
    end
}

/// Puts the positions of a word among those that are taken; whether there was room for them and none was taken before.
fn take_positions(cursor: &Cursor, taken: &mut BitSet) -> bool
    requires { IsSome (present cursor.now) }
    ensures kept { (position : ℕ) → slice_index_or taken.old position false ≡ true → slice_index_or taken.new position false ≡ true }
    ensures free { result ≡ true → (position : ℕ) → list_any (λ p. p == position) (present_positions cursor.now) ≡ true → slice_index_or taken.old position false ≡ false }
    ensures taken { result ≡ true → (position : ℕ) → list_any (λ p. p == position) (present_positions cursor.now) ≡ true → slice_index_or taken.new position false ≡ true }
{
    'positions: for i in 0..cursor.positions() {
        let position = cursor.position(i);
        if position >= taken.len() {
            return false;
        }
        if taken.has(position) {
            return false;
        }
        taken.set(position);
    }
    true
}
