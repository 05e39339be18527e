//! The words of a text field's values, with their positions.
ghost use Rattle.std.specs.Prelude.{◌≡◌, ◌+◌, ◌<◌, ◌≤◌, ◌^◌, ◌++◌, ◌∷◌, [], None, ℕ, List, length, map, nat_lt, IfOk, OnOk};
ghost use Rattle.analysis.specs.Words.{words};
ghost use Rattle.tree_json.specs.View.{view};
ghost use Rattle.tree_objects.specs.Values.{text_of};
ghost use Rattle.flattener.specs.Flat.{ascending, token_cmp, tokens, grouped, together, placed_words, words_of_field};
ghost use Rattle.flattener.specs.Placing.{IsOfField, grouped_on, tokens_on, texts_among, start_of, end_after, end_of, room};
ghost use Rattle.flattener.specs.Walked.{one_text};
ghost use Rattle.flattener.specs.Seen.{word_seen};

use crate::document::Word;
use crate::refusal::NoMemory;
use analysis::FoldedWord;
use itoa::Buffer;
use smallvec::SmallVec;
use std::alloc::Global;
use tree_json::Json;

const POSITION_GAP: u64 = 100;

/// Words with their positions, in the order in which they come.
#[derive(Drop)]
pub(crate) struct Placed {
    pub tokens: Vec<(FoldedWord, u32)>,
    /// One past the last position so far, and none where no value came yet.
    pub end: Option<u64>,
}

/// The words of the texts that items are, each with its position.
#[tactic(auto, using(crate::proofs::Wording::wording))]
pub(crate) fn tokens(alloc: Global, items: &[&Json]) -> Result<Vec<(FoldedWord, u32)>, NoMemory>
    requires { room (texts_among (map (λ j. view j.now) items.now)) < 2 ^ 32 }
    ensures { IfOk result (λ v. map (λ t. (t.0.items, t.1)) v.items ≡ tokens_on None (texts_among (map (λ j. view j.now) items.now))) }
{
    let mut found = Placed {
        tokens: Vec::new(alloc),
        end: None,
    };
    'items: for item in items {
        push_text(alloc, *item, &mut found)?;
    }
    Ok(found.tokens)
}

/// Adds the words of the text that an item is, if it is one.
#[tactic(auto, using(crate::proofs::Wording::wording))]
fn push_text(alloc: Global, item: &Json, into: &mut Placed) -> Result<(), NoMemory>
    requires { end_of into.old.end + room (one_text (text_of (view item.now))) < 2 ^ 32 }
    ensures end { OnOk result (end_of into.new.end ≤ end_of into.old.end + room (one_text (text_of (view item.now)))) }
    ensures tokens { OnOk result ((rest : List (List ℕ)) → map (λ t. (t.0.items, t.1)) into.new.tokens.items ++ tokens_on into.new.end rest ≡ map (λ t. (t.0.items, t.1)) into.old.tokens.items ++ tokens_on into.old.end (one_text (text_of (view item.now)) ++ rest)) }
{
    match item {
        Json::Text(text) => push_words(alloc, text.as_str(), into),
        Json::Whole(number) => push_words(alloc, Buffer::new().format(*number), into),
        Json::Bool(true) => push_words(alloc, "true", into),
        Json::Bool(false) => push_words(alloc, "false", into),
        _ => Ok(()),
    }
}

/// Adds the words of one more text.
#[tactic(auto, using(crate::proofs::Wording::wording))]
fn push_words(alloc: Global, text: &str, into: &mut Placed) -> Result<(), NoMemory>
    requires { end_of into.old.end + room (text.now ∷ []) < 2 ^ 32 }
    ensures end { OnOk result (end_of into.new.end ≤ end_of into.old.end + room (text.now ∷ [])) }
    ensures tokens { OnOk result ((rest : List (List ℕ)) → map (λ t. (t.0.items, t.1)) into.new.tokens.items ++ tokens_on into.new.end rest ≡ map (λ t. (t.0.items, t.1)) into.old.tokens.items ++ tokens_on into.old.end (text.now ∷ rest)) }
{
    let from = start_of(into.end);
    let count = place(alloc, text, from, &mut into.tokens)?;
    into.end = end_after(into.end, from, count);
    Ok(())
}

/// Adds the words of a text with positions one after the other. How many there were.
fn place(
    alloc: Global,
    text: &str,
    from: u64,
    into: &mut Vec<(FoldedWord, u32)>,
) -> Result<u64, NoMemory>
    requires { from + length text.now < 2 ^ 32 }
    ensures placed { OnOk result (map (λ t. (t.0.items, t.1)) into.new.items ≡ map (λ t. (t.0.items, t.1)) into.old.items ++ placed_words from (words text.now)) }
    ensures count { IfOk result (λ n. n ≡ length (words text.now)) }
    ensures few { IfOk result (λ n. n ≤ length text.now) }
{
    Ok(analysis::push_words(alloc, text, from as u32, into)?)
}

/// The position at which a text's words begin.
fn start_of(end: Option<u64>) -> u64
    requires { end_of end < 2 ^ 32 }
    ensures { result ≡ start_of end }
{
    match end {
        None => 0,
        Some(end) => end + POSITION_GAP,
    }
}

/// One past the last position, once so many words begin at a position.
fn end_after(end: Option<u64>, from: u64, count: u64) -> Option<u64>
    requires from { from ≡ start_of end }
    requires short { from + count < 2 ^ 64 }
    ensures { result ≡ end_after end count }
{
    match end {
        None => Some(from + count),
        Some(end) => if count == 0 {
            Some(end)
        } else {
            Some(from + count)
        },
    }
}

/// Adds each different word of some tokens, in byte order, with its positions.
#[tactic(auto, using(crate::proofs::Wording::wording))]
pub(crate) fn push_words_of_field(
    alloc: Global,
    field: u32,
    mut tokens: Vec<(FoldedWord, u32)>,
    into: &mut Vec<Word>,
) -> Result<(), NoMemory>
    ensures { OnOk result (map word_seen into.new.items ≡ map word_seen into.old.items ++ words_of_field field (map (λ t. (t.0.items, t.1)) tokens.items)) }
{
    sort_tokens(&mut tokens);
    into.reserve_exact(tokens.len())?;
    let mut current = None;
    'tokens: for (word, at) in tokens {
        current = Some(with_token(alloc, field, word, at, current, into)?);
    }
    push_last(current, into)
}

fn sort_tokens(tokens: &mut Vec<(FoldedWord, u32)>)
    ensures { map (λ t. (t.0.items, t.1)) tokens.new.items ≡ ascending token_cmp (map (λ t. (t.0.items, t.1)) tokens.old.items) }
{
    tokens.sort_unstable();
}

/// Adds the word that was being put together, if there is one.
fn push_last(current: Option<Word>, into: &mut Vec<Word>) -> Result<(), NoMemory>
    ensures { OnOk result ((field : ℕ) → IsOfField field current → map word_seen into.new.items ≡ map word_seen into.old.items ++ grouped_on field current []) }
{
    if let Some(word) = current {
        into.push(word)?;
    }
    Ok(())
}

/// The word that is being put together after one more token: the same with one more position, or the next word.
fn with_token(
    alloc: Global,
    field: u32,
    word: FoldedWord,
    at: u32,
    current: Option<Word>,
    into: &mut Vec<Word>,
) -> Result<Word, NoMemory>
    requires { IsOfField field current }
    ensures field { IfOk result (λ w. w.field ≡ field) }
    ensures together { IfOk result (λ w. (rest : List (List ℕ × ℕ)) → map word_seen into.new.items ++ grouped_on field (Some w) rest ≡ map word_seen into.old.items ++ grouped_on field current ((word.items, at) ∷ rest)) }
{
    match current {
        None => new_word(alloc, field, word, at),
        Some(current) => with_next(alloc, field, word, at, current, into),
    }
}

#[tactic(auto, using(crate::proofs::Wording::wording))]
fn with_next(
    alloc: Global,
    field: u32,
    word: FoldedWord,
    at: u32,
    current: Word,
    into: &mut Vec<Word>,
) -> Result<Word, NoMemory>
    requires { current.field ≡ field }
    ensures field { IfOk result (λ w. w.field ≡ field) }
    ensures together { IfOk result (λ w. (rest : List (List ℕ × ℕ)) → map word_seen into.new.items ++ together field w.word.items w.positions.items rest ≡ map word_seen into.old.items ++ together field current.word.items current.positions.items ((word.items, at) ∷ rest)) }
{
    if word.as_slice() == current.word.as_slice() {
        let mut current = current;
        current.positions.push(at)?;
        Ok(current)
    } else {
        into.push(current)?;
        new_word(alloc, field, word, at)
    }
}

fn new_word(alloc: Global, field: u32, word: FoldedWord, at: u32) -> Result<Word, NoMemory>
    ensures { IfOk result (λ w. word_seen w ≡ ((field, word.items), at ∷ [])) }
{
    let mut positions = SmallVec::new(alloc);
    positions.push(at)?;
    Ok(Word {
        field,
        word,
        positions,
    })
}

/// Whether one of the items is a text for a text field.
#[tactic(auto, using(crate::proofs::Wording::wording))]
pub(crate) fn has_text(items: &[&Json]) -> bool
    ensures { result ≡ nat_lt 0 (length (texts_among (map (λ j. view j.now) items.now))) }
{
    'items: for item in items {
        if is_text(*item) {
            return true;
        }
    }
    false
}

fn is_text(item: &Json) -> bool
    ensures { result ≡ nat_lt 0 (length (one_text (text_of (view item.now)))) }
{
    match item {
        Json::Text(_) => true,
        Json::Whole(_) => true,
        Json::Bool(_) => true,
        _ => false,
    }
}
