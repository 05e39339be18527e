//! Tokens, and the list of a text's tokens.
ghost use Rattle.std.specs.Prelude.{◌≡◌, ℕ, List};

use smallvec::SmallVec;
use std::marker::Model;

/// The bytes of a folded word. Most are few, and take no memory of their own.
pub type FoldedWord = SmallVec<u8, 16>;

/// The bytes of a folded word, which are UTF-8.
#[derive(Debug, Drop)]
pub struct Bytes {
    bytes: Vec<u8>,
}

impl Model for Bytes {
    ghost Value = { List ℕ };

    ghost view = { λ b. b.bytes.items };
}

impl Bytes {
    /// The bytes of a vector. Takes no memory.
    pub fn of(bytes: Vec<u8>) -> Bytes
        ensures { result ≡ bytes.items }
    {
        Bytes { bytes }
    }

    /// The bytes.
    pub fn as_slice(&self) -> &[u8]
        ensures { result.now ≡ self.now }
    {
        &self.bytes
    }

    /// The vector again. Takes no memory.
    pub fn into_vec(self) -> Vec<u8>
        ensures { result.items ≡ self }
    {
        let Bytes { bytes } = self;
        bytes
    }
}

/// A word of a text.
#[derive(Debug, Drop)]
pub struct Token {
    /// The word with full case folding, as UTF-8.
    pub folded: Bytes,
    /// The byte of the text at which the word begins.
    pub from: u64,
    /// The byte after the word, as it stands in the text: folding may change its length.
    pub to: u64,
    /// How many words of the text come before this one.
    pub position: u64,
}

/// The tokens of a text in the order in which they stand there.
#[derive(Debug, Drop)]
pub struct TokenList {
    tokens: Vec<Token>,
}

impl Model for TokenList {
    ghost use Rattle.std.specs.Prelude.{List};
    ghost use Rattle.analysis.specs.declared.token_list.Token.{Token};

    ghost Value = { List Token };

    ghost view = { λ l. l.tokens.items };
}

impl TokenList {
    /// The list of a vector's tokens. Takes no memory.
    pub fn of(tokens: Vec<Token>) -> TokenList
        ensures { result ≡ tokens.items }
    {
        TokenList { tokens }
    }

    /// The tokens.
    pub fn as_slice(&self) -> &[Token]
        ensures { result.now ≡ self.now }
    {
        &self.tokens
    }

    /// The vector again. Takes no memory.
    pub fn into_vec(self) -> Vec<Token>
        ensures { result.items ≡ self }
    {
        let TokenList { tokens } = self;
        tokens
    }
}
