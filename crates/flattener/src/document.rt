//! Documents and blocks.
use analysis::FoldedWord;
use segment::Root;
use smallvec::SmallVec;
use std::alloc::Global;
use std::default::MadeWith;

/// The bytes of a keyword. Those of most are few, and take no memory of their own.
pub type Keyword = SmallVec<u8, 16>;

/// The numbers of a field in a document, ascending. Most fields have one, which is kept in place.
#[derive(Drop)]
pub struct NumberField {
    pub field: u32,
    pub values: SmallVec<i64, 1>,
}

impl MadeWith<Global> for NumberField {
    fn made_with(alloc: Global) -> Self {
        NumberField {
            field: 0,
            values: SmallVec::new(alloc),
        }
    }
}

/// The keywords of a field in a document, in the order of their bytes; a single one is kept in place.
#[derive(Drop)]
pub struct KeywordField {
    pub field: u32,
    pub values: SmallVec<Keyword, 1>,
}

impl MadeWith<Global> for KeywordField {
    fn made_with(alloc: Global) -> Self {
        KeywordField {
            field: 0,
            values: SmallVec::new(alloc),
        }
    }
}

/// A word of a text field in a document, with its positions there, ascending. Most words have one.
#[derive(Drop)]
pub struct Word {
    pub field: u32,
    pub word: FoldedWord,
    pub positions: SmallVec<u32, 4>,
}

/// A document without its place: the object's scope, and by ascending field its values. Small objects are many: one field of
/// numbers and one of keywords are kept in place.
#[derive(Drop)]
pub struct Document {
    pub scope: u32,
    pub numbers: SmallVec<NumberField, 1>,
    pub keywords: SmallVec<KeywordField, 1>,
    /// By field, and then by the bytes of the word.
    pub words: Vec<Word>,
    /// The text fields with a value; two are kept in place.
    pub texts: SmallVec<u32, 2>,
}

/// The block of a tree.
#[derive(Drop)]
pub struct Block {
    /// Each nested object before the one around it, the root last.
    pub documents: Vec<Document>,
    /// What is kept of the root, with its source as compact text.
    pub root: Root,
}
