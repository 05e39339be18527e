//! The entry of a document, searched among the entries in place.

ghost use Rattle.std.specs.Prelude.{◌≡◌, ◌+◌, ◌<◌, ◌≤◌, length, drop, slice_index, Contains, IfSome, IfNone};
ghost use Rattle.part_text.specs.Front.{first_u32};
ghost use Rattle.part_text.specs.Places.{row};
ghost use Rattle.doc_values.specs.Kept.{documents_in, AreEntriesAt};

use part_text::{first_u32, row};

/// How many places are guessed before the rest is halved.
const GUESSES: u32 = 4;

/// The index of a document's entry.
///
/// Documents ascend by one at least. So no entry stands further from another than its document does from the other's: where
/// all documents have an entry, it is found at once. Else the first places are guessed from the one before, as if the
/// documents lay evenly, and a guess leaves no more places than the documents it was off by.
pub(crate) fn index_of(places: &[u64], bytes: &[u8], doc: u32) -> Option<usize>
    requires { AreEntriesAt places.now bytes.now }
    ensures found { IfSome result (λ at. (at + 1 < length places.now) × (slice_index (documents_in places.now bytes.now) at ≡ doc)) }
    ensures missing { IfNone result (¬ Contains (documents_in places.now bytes.now) doc) }
{
    let count = places.len() - 1;
    if count == 0 {
        return None;
    }
    let first = document(places, bytes, 0);
    let last = document(places, bytes, count - 1);
    if doc < first {
        return None;
    }
    if last < doc {
        return None;
    }
    let mut low = (count - 1).saturating_sub((last - doc) as usize);
    let mut high = count.min((doc - first) as usize + 1);
    let density = if low + 1 < high {
        (count as u64 - 1).wrapping_mul(1 << 32) / ((last - first) as u64).max(1)
    } else {
        0
    };
    let mut guess = entries_in(doc - first, density);
    let mut guesses = GUESSES;
    'probes: while low < high {
        let at = probe(low, high, guess, &mut guesses);
        let found = document(places, bytes, at);
        if found == doc {
            return Some(at);
        }
        if found < doc {
            low = at + 1;
            high = high.min(low.saturating_add((doc - found) as usize));
            guess = low.saturating_add(entries_in(doc - found - 1, density));
        } else {
            high = at;
            low = low.max(high.saturating_sub((found - doc) as usize));
            guess = high.saturating_sub(entries_in(found - doc, density));
        }
    }
    None
}

/// The index of a document's entry, as `index_of` gives it.
///
/// It is looked for from entry `near` on, and from the one before: a document that has one of these is found at once, one that
/// lies between them is missed at once, and a later one costs the way from there to its entry.
pub(crate) fn index_near(places: &[u64], bytes: &[u8], doc: u32, near: usize) -> Option<usize>
    requires { AreEntriesAt places.now bytes.now }
    ensures found { IfSome result (λ at. (at + 1 < length places.now) × (slice_index (documents_in places.now bytes.now) at ≡ doc)) }
    ensures missing { IfNone result (¬ Contains (documents_in places.now bytes.now) doc) }
{
    let count = places.len() - 1;
    if near < count && document(places, bytes, near) == doc {
        return Some(near);
    }
    let start = near.saturating_sub(1);
    if count <= start || doc < document(places, bytes, start) {
        return index_of(places, bytes, doc);
    }
    index_behind(places, bytes, doc, start)
}

/// The same from an entry on that isn't behind the document's.
///
/// Documents ascend by one at least. So the entry stands no further before the last one than its document does from the last's:
/// where all documents from there on have an entry, it is found at once. Else it is searched in steps that double, and then
/// by halves.
fn index_behind(places: &[u64], bytes: &[u8], doc: u32, start: usize) -> Option<usize>
    requires entries { AreEntriesAt places.now bytes.now }
    requires below { start + 1 < length places.now }
    requires before { slice_index (documents_in places.now bytes.now) start ≤ doc }
    ensures found { IfSome result (λ at. (at + 1 < length places.now) × (slice_index (documents_in places.now bytes.now) at ≡ doc)) }
    ensures missing { IfNone result (¬ Contains (documents_in places.now bytes.now) doc) }
{
    let count = places.len() - 1;
    let last = document(places, bytes, count - 1);
    let mut low = start.max((count - 1).saturating_sub(last.saturating_sub(doc) as usize));
    if document(places, bytes, low) == doc {
        return Some(low);
    }
    let mut step = 1;
    'steps: while step < count - low && document(places, bytes, low + step) <= doc {
        low += step;
        step = step.saturating_add(step);
    }
    let mut high = low + step.min(count - low);
    'halves: while 1 < high - low {
        let middle = low + (high - low) / 2;
        if document(places, bytes, middle) <= doc {
            low = middle;
        } else {
            high = middle;
        }
    }
    if document(places, bytes, low) == doc {
        Some(low)
    } else {
        None
    }
}

/// About how many entries lie in so many documents, given how many lie in 2^32. Nothing but speed rests on it.
fn entries_in(documents: u32, density: u64) -> usize {
    ((documents as u64).wrapping_mul(density) >> 32) as usize
}

/// The place between two to look at next: the guess, or half-way once no guesses are left.
fn probe(low: usize, high: usize, guess: usize, guesses: &mut u32) -> usize
    requires { low < high }
    ensures { (low ≤ result) × (result < high) }
{
    if *guesses == 0 {
        return low + (high - low) / 2;
    }
    *guesses -= 1;
    guess.max(low).min(high - 1)
}

/// The document of an entry.
pub(crate) fn document(places: &[u64], bytes: &[u8], at: usize) -> u32
    requires entries { AreEntriesAt places.now bytes.now }
    requires below { at + 1 < length places.now }
    ensures { result ≡ slice_index (documents_in places.now bytes.now) at }
{
    first_u32(row(places, bytes, at))
}

/// The bytes of an entry's values.
pub(crate) fn value_bytes<'a>(places: &[u64], bytes: &'a [u8], at: usize) -> &'a [u8]
    requires entries { AreEntriesAt places.now bytes.now }
    requires below { at + 1 < length places.now }
    ensures { result.now ≡ drop 8 (row places.now bytes.now at) }
{
    row(places, bytes, at).split_at(8).1
}
