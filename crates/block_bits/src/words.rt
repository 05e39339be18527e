//! The u64s of a set: 64 documents each, the first in the lowest bit.

ghost use Rattle.std.specs.Prelude.{◌≡◌, ◌==◌, ◌+◌, ◌*◌, ◌/◌, ◌%◌, ◌^◌, ℕ, ◌<◌, ◌≤◌, ◌&&◌, ◌||◌, not, nat_lt, length, replicate, slice_index, count_by, IfOk, IfSome, IfNone, if◌then◌else◌};
ghost use Rattle.std.specs.Int.{bit_at};
ghost use Rattle.block_bits.specs.Flags.{IsTight, flags, intersection, is_between, is_marked, is_set};
ghost use Rattle.block_bits.specs.Walks.{IsSearched, IsFirstIn, HasNoneBefore, IsAnswered};

use crate::NoMemory;
use std::alloc::Global;

/// Documents a word.
pub(crate) const WORD: u32 = 64;

/// Words that a search looks at one by one before it passes over runs of them.
const NEAR: u32 = 8;

/// Words that a search passes over at once.
const RUN: u32 = 8;

/// Whether the last word has a bit past the last of so many documents.
pub(crate) fn has_past(words: &[u64], len: u32) -> bool
    requires { length words.now ≡ (len + 63) / 64 }
    ensures { result ≡ not (nat_lt (slice_index words.now (len / 64)) (2 ^ (len % 64))) }
{
    let past = len % WORD;
    past != 0 && words[(len / WORD) as usize] >> past != 0
}

/// Each u64 of a slice is below 2^64.
pub(crate) fn words_fit(words: &[u64])
    ensures { (place : ℕ) → slice_index words.now place < 2 ^ 64 }
{
    let _count = words.len();
}

/// So many words of no document.
pub(crate) fn zero_words(alloc: Global, count: usize) -> Result<Vec<u64>, NoMemory>
    ensures { IfOk result (λ words. words.items ≡ replicate count 0) }
{
    Ok(vec![in alloc; 0; count]?)
}

/// The word of so many documents, or of 64 where there are more.
pub(crate) fn full_word(count: u32) -> u64
    ensures { (i : ℕ) → i < 64 → bit_at result i ≡ (if nat_lt i count then 1 else 0) }
{
    if count < WORD {
        (1 << count) - 1
    } else {
        u64::MAX
    }
}

/// The word of 64 documents, the first of them `start`: those from `from` up to `end`.
pub(crate) fn range_word(start: u32, from: u32, end: u32) -> u64
    ensures { (i : ℕ) → i < 64 → (bit_at result i == 1) ≡ is_between from end (start + i) }
{
    full_word(end.saturating_sub(start)) & !full_word(from.saturating_sub(start))
}

/// Keeps the documents that other words have too.
///
/// The words are slices here and not behind a reference to a set, so that the loop takes several at a time.
pub(crate) fn and_words(words: &mut [u64], others: &[u64])
    requires { length words.old ≡ length others.now }
    ensures long { length words.new ≡ length words.old }
    ensures each { (at : ℕ) → is_set words.new at ≡ (is_set words.old at && is_set others.now at) }
{
    'words: for place in 0..words.len() {
        words[place] &= others[place];
    }
}

/// Keeps the documents that both of two others have too, in one pass.
pub(crate) fn and_both_words(words: &mut [u64], ones: &[u64], others: &[u64])
    requires one { length words.old ≡ length ones.now }
    requires other { length words.old ≡ length others.now }
    ensures long { length words.new ≡ length words.old }
    ensures each { (at : ℕ) → is_set words.new at ≡ ((is_set words.old at && is_set ones.now at) && is_set others.now at) }
{
    'words: for place in 0..words.len() {
        words[place] = words[place] & ones[place] & others[place];
    }
}

/// How many documents both of two have, in one pass.
pub(crate) fn count_both_words(ones: &[u64], others: &[u64]) -> u64
    requires same { length ones.now ≡ length others.now }
    requires few { length ones.now < 2 ^ 32 }
    ensures { (len : ℕ) → IsTight ones.now len → result ≡ count_by is_marked (intersection (flags ones.now len) (flags others.now len)) }
{
    let mut total = 0u64;
    'words: for place in 0..ones.len() {
        total += (ones[place] & others[place]).count_ones() as u64;
    }
    total
}

/// Adds the documents of other words.
pub(crate) fn or_words(words: &mut [u64], others: &[u64])
    requires { length words.old ≡ length others.now }
    ensures long { length words.new ≡ length words.old }
    ensures each { (at : ℕ) → is_set words.new at ≡ (is_set words.old at || is_set others.now at) }
{
    'words: for place in 0..words.len() {
        words[place] |= others[place];
    }
}

/// Takes out the documents of other words.
pub(crate) fn and_not_words(words: &mut [u64], others: &[u64])
    requires { length words.old ≡ length others.now }
    ensures long { length words.new ≡ length words.old }
    ensures each { (at : ℕ) → is_set words.new at ≡ (is_set words.old at && not (is_set others.now at)) }
{
    'words: for place in 0..words.len() {
        words[place] &= !others[place];
    }
}

/// The documents from `from` on of the word that has it; none past the last word.
pub(crate) fn word_from(words: &[u64], from: u32) -> u64
    ensures { IsSearched words.now from (from / 64) result }
{
    let place = (from / WORD) as usize;
    if place < words.len() {
        words[place] & (u64::MAX << (from % WORD))
    } else {
        0
    }
}

/// A search for the first document before `end`, from word `place` on, of which `word` has the documents left: the word
/// where it ends, with the documents left there, and the document that it found.
pub(crate) fn next_document(
    words: &[u64],
    place: u32,
    word: u64,
    end: u32,
) -> (u32, u64, Option<u32>)
    requires some { 0 < end }
    requires within { end ≤ 64 * length words.now }
    ensures answer { (from : ℕ) → IsSearched words.now from place word → IsAnswered words.now from result.0 result.1 end result.2 }
    ensures before { IfSome result.2 (λ at. at < end) }
{
    let (at, left) = next_word(words, place, word, (end - 1) / WORD);
    (at, left, first_in(at, left, end))
}

/// The first word from `place` up to `last` that has a document left, of word `place` those of `word`; or word `last`.
///
/// It looks at a few words one by one, and then passes over words of none several at a time.
fn next_word(words: &[u64], place: u32, word: u64, last: u32) -> (u32, u64)
    requires { last < length words.now }
    ensures searched { (from : ℕ) → IsSearched words.now from place word → IsSearched words.now from result.0 result.1 }
    ensures up_to { result.1 ≡ 0 → last ≤ result.0 }
{
    if word != 0 {
        return (place, word);
    }
    let near = last.min(place.saturating_add(NEAR));
    let (at, left) = next_word_singly(words, place, word, near);
    if left != 0 {
        return (at, left);
    }
    let far = past_empty(words, at, last);
    next_word_singly(words, far, 0, last)
}

/// The same, one word a step.
#[inline(always)]
fn next_word_singly(words: &[u64], place: u32, word: u64, last: u32) -> (u32, u64)
    requires { last < length words.now }
    ensures searched { (from : ℕ) → IsSearched words.now from place word → IsSearched words.now from result.0 result.1 }
    ensures up_to { result.1 ≡ 0 → last ≤ result.0 }
{
    let mut at = place;
    let mut left = word;
    'words: while left == 0 && at < last {
        at += 1;
        left = words[at as usize];
    }
    (at, left)
}

/// A word at or behind word `at`: those behind `at` up to this one are of no document. It looks at none behind word `last`.
#[inline(never)]
fn past_empty(words: &[u64], at: u32, last: u32) -> u32
    requires { last < length words.now }
    ensures behind { at ≤ result }
    ensures none { (place : ℕ) → at < place → place ≤ result → slice_index words.now place ≡ 0 }
{
    let mut far = at;
    'runs: while last.saturating_sub(far) >= RUN {
        let all = run_word(words, far as usize + 1);
        if all != 0 {
            return far;
        }
        far += RUN;
    }
    far
}

/// A word that is 0 only where each of a run of words is.
#[inline(always)]
fn run_word(words: &[u64], first: usize) -> u64
    requires { first + 8 ≤ length words.now }
    ensures { result ≡ 0 → (place : ℕ) → first ≤ place → place < first + 8 → slice_index words.now place ≡ 0 }
{
    let mut all = 0;
    'run: for place in 0..RUN as usize {
        all |= words[first + place];
    }
    all
}

/// The first document of a word, where it is before `end`.
fn first_in(place: u32, word: u64, end: u32) -> Option<u32>
    ensures found { IfSome result (λ at. IsFirstIn place word at × (at < end)) }
    ensures none { IfNone result (HasNoneBefore place word end) }
{
    if word == 0 {
        return None;
    }
    let at = place as u64 * WORD as u64 + word.trailing_zeros() as u64;
    if at < end as u64 {
        Some(at as u32)
    } else {
        None
    }
}
