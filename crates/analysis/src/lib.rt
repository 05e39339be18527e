//! Analysis of texts: the words by which a text is searched.
//!
//! A token is a word of UAX #29 with full case folding, with its place in the text and its position
//! among the words. The crate stands on `unicode_segmentation` and `caseless`. Other crates use
//! [`tokens`] and [`push_words`], and of their contracts mostly that the folded words are `words` of the text.
#![tactic(auto)]

mod analyzer;
mod law;
mod no_memory;
mod token_list;

pub use analyzer::{has_short_tokens, push_words, tokens};
pub use law::words_are_fewer_than_bytes;
pub use no_memory::NoMemory;
pub use token_list::{Bytes, FoldedWord, Token, TokenList};
