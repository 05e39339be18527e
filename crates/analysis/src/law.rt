//! A law of words.
ghost use Rattle.std.specs.Prelude.{ℕ, ◌≤◌, List, length};
ghost use Rattle.analysis.specs.Words.{words};

/// A text has no more words than bytes.
pub fn words_are_fewer_than_bytes()
    ensures { (text : List ℕ) → length (words text) ≤ length text }
{}
