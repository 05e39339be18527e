//! From a text to its tokens.
ghost use Rattle.std.specs.Prelude.{◌≡◌, ◌+◌, ◌++◌, ◌≤◌, ◌<◌, ◌^◌, length, map, slice_range, IfOk, IsTrue, OnOk, nat_le, string_bytes};
ghost use Rattle.std.specs.Char.{to_ascii_lowercase};
ghost use Rattle.std.specs.List.{list_all, range_with_len};
ghost use Rattle.unicode_segmentation.specs.Word.{words as unfolded_words};
ghost use Rattle.analysis.specs.Tokens.{AreApart};
ghost use Rattle.analysis.specs.Words.{words, folded};

use crate::{Bytes, FoldedWord, NoMemory, Token, TokenList};
use caseless::default_case_fold_str;
use smallvec::SmallVec;
use std::alloc::Global;
use unicode_segmentation::UnicodeSegmentation;

/// The tokens of a text, in order.
///
/// A token is a piece between two word boundaries (Unicode Standard Annex #29, section 4) that has a
/// letter or a number, with full case folding (The Unicode Standard, section 3.13: `Straße` becomes
/// `strasse`). Fails only for want of memory.
pub fn tokens(alloc: Global, text: &str) -> Result<TokenList, NoMemory>
    ensures words { IfOk result (λ tokens. map (λ t. t.folded) tokens ≡ words text.now) }
    ensures places { IfOk result (λ tokens. map (λ t. slice_range text.now t.from t.to) tokens ≡ unfolded_words text.now) }
    ensures apart { IfOk result (AreApart 0 (length text.now)) }
    ensures positions { IfOk result (λ tokens. map (λ t. t.position) tokens ≡ range_with_len 0 (length tokens)) }
    ensures few { IfOk result (λ tokens. length tokens ≤ length text.now) }
{
    let mut tokens = Vec::new(alloc);
    let mut position = 0;
    for (from, word) in text.unicode_word_indices() {
        tokens.push(Token {
            folded: folded(alloc, word)?,
            from: from as u64,
            to: (from + word.len()) as u64,
            position,
        })?;
        position += 1;
    }
    Ok(TokenList::of(tokens))
}

/// Adds the words of a text as `tokens` gives them, without their places: each folded word with a number, which is `from` at
/// the first, and one more at each next. The result is how many there are. A text whose words are short takes memory for the
/// list alone.
#[tactic(auto, using(crate::proofs::Walk::pushing))]
pub fn push_words(
    alloc: Global,
    text: &str,
    from: u32,
    into: &mut Vec<(FoldedWord, u32)>,
) -> Result<u64, NoMemory>
    requires { from + length text.now ≤ 2 ^ 32 }
    ensures words { OnOk result (map (λ w. w.0.items) into.new.items ≡ map (λ w. w.0.items) into.old.items ++ words text.now) }
    ensures numbers { OnOk result (map (λ w. w.1) into.new.items ≡ map (λ w. w.1) into.old.items ++ range_with_len from (length (words text.now))) }
    ensures count { IfOk result (λ n. n ≡ length (words text.now)) }
    ensures few { IfOk result (λ n. n ≤ length text.now) }
{
    let mut number = from as u64;
    'words: for word in text.unicode_words() {
        into.push((folded_word(alloc, word)?, number as u32))?;
        number += 1;
    }
    Ok(number - from as u64)
}

/// Whether the length of a text alone tells that each of its tokens has at most so many bytes: a word of the text is no
/// longer than the text, and full case folding makes at most three characters of one, with at most four bytes each.
pub fn has_short_tokens(text: &str, most: u64) -> bool
    ensures { IsTrue result → IsTrue (list_all (λ w. nat_le (length w) most) (words text.now)) }
{
    text.len() as u64 <= most / 12
}

/// The word with full case folding, which in ASCII is lower case.
#[tactic(auto, using(crate::proofs::Ascii::ascii))]
fn folded(alloc: Global, word: &str) -> Result<Bytes, NoMemory>
    ensures { IfOk result (λ bytes. bytes ≡ folded word.now) }
{
    if word.is_ascii() {
        Ok(Bytes::of(word.as_bytes().to_ascii_lowercase(alloc)?))
    } else {
        Ok(Bytes::of(fully_folded(alloc, word)?.into_bytes()))
    }
}

/// The same where it stands in place if it is short.
#[tactic(auto, using(crate::proofs::Ascii::ascii))]
fn folded_word(alloc: Global, word: &str) -> Result<FoldedWord, NoMemory>
    ensures { IfOk result (λ w. w.items ≡ folded word.now) }
{
    if word.is_ascii() {
        lower(alloc, word.as_bytes())
    } else {
        let folded = fully_folded(alloc, word)?;
        Ok(SmallVec::from_slice(alloc, folded.as_bytes())?)
    }
}

fn lower(alloc: Global, word: &[u8]) -> Result<FoldedWord, NoMemory>
    ensures { IfOk result (λ w. w.items ≡ map to_ascii_lowercase word.now) }
{
    let mut lower = SmallVec::from_slice(alloc, word)?;
    lower.as_mut_slice().make_ascii_lowercase();
    Ok(lower)
}

/// The word with full case folding, by the tables of Unicode.
#[tactic(auto, unfolding(crate::specs::Words::folded))]
fn fully_folded(alloc: Global, word: &str) -> Result<String, NoMemory>
    ensures { IfOk result (λ text. string_bytes text ≡ folded word.now) }
{
    Ok(default_case_fold_str(alloc, word)?)
}
