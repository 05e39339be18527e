//! The segment and its readers.

ghost use Rattle.std.specs.Prelude.{◌≡◌, ◌↔◌, ℕ, ◌<◌, ◌≤◌, ◌^◌, length, slice_get, Contains, Some, IfOk, IsErrOf};
ghost use Rattle.std.specs.Option.{option_map};
ghost use Rattle.stored_sources.specs.Roots.{root_of, lent_join};
ghost use Rattle.segment_parts.specs.Agree.{AreColumns};
ghost use Rattle.segment.specs.Encoding.{IsEncoding};
ghost use Rattle.segment_parts.specs.Fields.{column_of};
ghost use Rattle.segment_parts.specs.Lists.{terms_of, postings_of};
ghost use Rattle.segment.specs.Flat.{flat_root, flats_of, roots_of};
ghost use Rattle.segment.specs.Live.{root_of as block_root, block_start, block_end};
ghost use Rattle.segment_parts.specs.Parts.{root_flags};
ghost use Rattle.segment.specs.Roots.{root_documents};
ghost use Rattle.segment_parts.specs.Text.{segment_text};
ghost use Rattle.segment_parts.specs.declared.columns.Columns.{Columns};

use crate::agree::are_columns;
use crate::by_id::{roots_by_id, roots_of_id};
use crate::root_docs::{places_before, root_places};
use crate::{Columns, SegmentRefusal};
use block_bits::{BitList, BitSet, words_are_of_one_set};
use doc_values::{NumberColumn, OrdinalColumn};
use postings::PostingsTable;
use segment_parts::{Parts, agree, segment_bytes};
use std::alloc::Global;
use std::marker::Model;
use stored_sources::{Bytes, JoinValue, StoredSources};
use term_table::TermTable;

/// The bytes of one segment, where its parts stand in them, the document of each root, and the roots in the order of their
/// ids. It never changes.
#[derive(Drop)]
pub struct Segment {
    parts: Parts,
    root_docs: Vec<u32>,
    roots_by_id: Vec<u32>,
}

impl Model for Segment {
    ghost use Rattle.segment_parts.specs.declared.columns.Columns.{Columns};

    ghost Value = { Columns };

    ghost use Rattle.segment.specs.Segments.{IsSegment};

    ghost view = { λ it. it.parts };

    ghost invariant = { IsSegment };
}

impl Segment {
    /// The segment that these bytes are. It keeps them, and copies nothing but the bits of scopes and text fields;
    /// it lists the roots by their documents and by their ids.
    pub fn of_bytes(alloc: Global, bytes: Bytes) -> Result<Segment, SegmentRefusal>
        ensures segment { IfOk result (λ segment. IsEncoding segment bytes) }
        ensures none { IsErrOf result SegmentRefusal.NotASegment → (columns : Columns) → IsEncoding columns bytes → ⊥ }
    {
        words_are_of_one_set();
        let Some(parts) = Parts::read(alloc, bytes.into_vec())? else {
            return Err(SegmentRefusal::NotASegment);
        };
        if !are_columns(&parts) {
            return Err(SegmentRefusal::NotASegment);
        }
        Ok(Segment::over(alloc, parts)?)
    }

    /// The segment of these columns, if they agree.
    ///
    /// They disagree where lists are not as long as there are documents or roots; where a document has no scope or several,
    /// the last document is no root, or the last scope has no document; where an id has 0 or more than 512 bytes or a source
    /// more than 16,777,216; where a field has columns of two kinds; where a column names a document that isn't there; or
    /// where a term is too long or its documents differ from those of its field's column. Whether the documents are blocks,
    /// and what a mapping says of the fields, isn't looked at.
    pub fn of_columns(alloc: Global, columns: Columns) -> Result<Segment, SegmentRefusal>
        ensures columns { IfOk result (λ segment. segment ≡ columns) }
        ensures agree { IfOk result (λ segment. AreColumns columns) }
        ensures disagree { IsErrOf result SegmentRefusal.NotASegment ↔ ¬ AreColumns columns }
    {
        if !agree(&columns) {
            return Err(SegmentRefusal::NotASegment);
        }
        Ok(Segment::of_agreeing(alloc, columns)?)
    }

    /// The segment of columns that are known to agree, as those that a builder or a merge makes are.
    pub fn of_agreeing(alloc: Global, columns: Columns) -> Result<Segment, crate::NoMemory>
        requires { AreColumns columns }
        ensures { IfOk result (λ segment. segment ≡ columns) }
    {
        words_are_of_one_set();
        let bytes = segment_bytes(alloc, &columns)?;
        Segment::of_text(alloc, Bytes::of(bytes))
    }

    /// The segment that bytes are known to be, as those are that a builder or a merge writes. It keeps them like `of_bytes`, and
    /// reads them to find where the parts stand: that the columns agree isn't tested.
    pub fn of_text(alloc: Global, bytes: Bytes) -> Result<Segment, crate::NoMemory>
        requires { (columns : Columns) × IsEncoding columns bytes }
        ensures { IfOk result (λ segment. IsEncoding segment bytes) }
    {
        words_are_of_one_set();
        let parts = Parts::read(alloc, bytes.into_vec())?.unwrap();
        Segment::over(alloc, parts)
    }

    /// The segment of parts that agree.
    fn over(alloc: Global, parts: Parts) -> Result<Segment, crate::NoMemory>
        requires { AreColumns parts }
        ensures { IfOk result (λ segment. segment ≡ parts) }
    {
        let root_docs = root_places(alloc, parts.scopes())?;
        let roots_by_id = roots_by_id(alloc, &parts.sources())?;
        Ok(Segment {
            parts,
            root_docs,
            roots_by_id,
        })
    }

    /// The segment's bytes. Takes no memory.
    pub fn bytes(&self) -> &[u8]
        ensures { IsEncoding self.now result.now }
    {
        let _ = &self.root_docs;
        self.parts.bytes()
    }

    /// How many documents there are, one or more.
    pub fn docs(&self) -> u32
        ensures documents { result ≡ self.now.documents }
        ensures flats { length (flats_of self.now) ≡ result }
        ensures agree { AreColumns self.now }
    {
        self.parts.documents()
    }

    /// The documents of each scope.
    pub fn scopes(&self) -> &BitList
        ensures { result.now ≡ self.now.scopes }
    {
        self.parts.scopes()
    }

    /// The terms of all fields.
    pub fn terms(&self) -> TermTable<'_>
        ensures { result ≡ terms_of self.now }
    {
        self.parts.terms()
    }

    /// The documents and positions of each term, by its ordinal.
    pub fn postings(&self) -> PostingsTable<'_>
        ensures postings { result ≡ postings_of self.now }
        ensures long { length result ≡ length (terms_of self.now) }
    {
        self.parts.postings()
    }

    /// The numbers of a field of kind long, boolean or date; None where no document has one.
    pub fn numbers(&self, field: u32) -> Option<NumberColumn<'_>>
        ensures { result ≡ column_of field self.now.numbers }
    {
        self.parts.numbers(field)
    }

    /// How many fields have numbers.
    pub fn number_columns(&self) -> usize
        ensures { result ≡ length self.now.numbers }
    {
        self.parts.number_columns()
    }

    /// Of the fields that have numbers, by ascending field: the one at this place, and its numbers.
    pub fn number_column(&self, at: usize) -> (u32, NumberColumn<'_>)
        requires { at < length self.now.numbers }
        ensures { slice_get self.now.numbers at ≡ Some result }
    {
        self.parts.number_column(at)
    }

    /// The values of a keyword field, as ordinals of its terms; None where no document has one.
    pub fn ordinals(&self, field: u32) -> Option<OrdinalColumn<'_>>
        ensures { result ≡ column_of field self.now.ordinals }
    {
        self.parts.ordinals(field)
    }

    /// How many fields have ordinals.
    pub fn ordinal_columns(&self) -> usize
        ensures { result ≡ length self.now.ordinals }
    {
        self.parts.ordinal_columns()
    }

    /// Of the fields that have ordinals, by ascending field: the one at this place, and its ordinals.
    pub fn ordinal_column(&self, at: usize) -> (u32, OrdinalColumn<'_>)
        requires { at < length self.now.ordinals }
        ensures { slice_get self.now.ordinals at ≡ Some result }
    {
        self.parts.ordinal_column(at)
    }

    /// The documents with a value of a text field; None where no document has one.
    pub fn present(&self, field: u32) -> Option<&BitSet>
        ensures { option_map (λ set. set.now) result ≡ column_of field self.now.present }
    {
        self.parts.present().get(field)
    }

    /// The text fields, by ascending field, each with the documents that have a value.
    pub fn present_columns(&self) -> &[(u32, BitSet)]
        ensures { result.now ≡ self.now.present }
    {
        self.parts.present().as_slice()
    }

    /// The roots with their sources.
    pub fn sources(&self) -> StoredSources<'_>
        ensures roots { result ≡ self.now.roots }
        ensures flat { (root : ℕ) → root < length self.now.roots → slice_get (roots_of self.now) root ≡ Some (flat_root (root_of self.now.roots root)) }
    {
        self.parts.sources()
    }

    /// How many roots there are.
    pub fn roots(&self) -> u32
        ensures roots { result ≡ length self.now.roots }
        ensures flat { length (roots_of self.now) ≡ result }
    {
        self.parts.sources().count()
    }

    /// The document of a root: the last one of its block.
    pub fn root_doc(&self, root: u32) -> u32
        requires { root < length self.now.roots }
        ensures document { slice_get (root_documents self.now.scopes) root ≡ Some result }
        ensures within { result < self.now.documents }
        ensures numbered { self.now.documents < 2 ^ 32 }
    {
        let _bytes = self.parts.bytes();
        self.root_docs[root as usize]
    }

    /// The root of a document's block, by its index.
    pub fn root_of_doc(&self, doc: u32) -> u32
        requires { doc < self.now.documents }
        ensures root { result ≡ block_root (root_flags self.now.scopes) doc }
        ensures within { result < length self.now.roots }
        ensures inside { (block_start self.now.scopes result ≤ doc) × (doc < block_end self.now.scopes result) }
    {
        let _bytes = self.parts.bytes();
        places_before(self.root_docs.as_slice(), doc) as u32
    }

    /// The documents of a root's block: the first, and the one past the last.
    pub fn block(&self, root: u32) -> (u32, u32)
        requires { root < length self.now.roots }
        ensures agree { AreColumns self.now }
        ensures range { result ≡ (block_start self.now.scopes root, block_end self.now.scopes root) }
        ensures ordered { result.0 < result.1 }
        ensures within { result.1 ≤ self.now.documents }
    {
        let _ = &self.root_docs;
        let end = self.root_doc(root) + 1;
        if root == 0 {
            (0, end)
        } else {
            (self.root_doc(root - 1) + 1, end)
        }
    }

    /// The bytes of a root's id.
    pub fn root_id(&self, root: u32) -> &[u8]
        requires { root < length self.now.roots }
        ensures { result.now ≡ (root_of self.now.roots root).id }
    {
        self.parts.sources().id(root)
    }

    /// The roots that have an id, by their indices: the version of a document that is live, if it is here, and those that were
    /// replaced.
    pub fn roots_of_id(&self, id: &[u8]) -> &[u32]
        ensures { (root : ℕ) → Contains result.now root ↔ (root < length self.now.roots) × ((root_of self.now.roots root).id ≡ id.now) }
    {
        let _ = &self.root_docs;
        roots_of_id(self.roots_by_id.as_slice(), &self.parts.sources(), id)
    }

    /// The sequence number of a root.
    pub fn root_number(&self, root: u32) -> u64
        requires { root < length self.now.roots }
        ensures { result ≡ (root_of self.now.roots root).number }
    {
        self.parts.sources().number(root)
    }

    /// The generation of the mapping that a root was indexed under.
    pub fn root_generation(&self, root: u32) -> u32
        requires { root < length self.now.roots }
        ensures { result ≡ (root_of self.now.roots root).generation }
    {
        self.parts.sources().generation(root)
    }

    /// The join value of a root.
    pub fn root_join(&self, root: u32) -> JoinValue<'_>
        requires { root < length self.now.roots }
        ensures { lent_join result ≡ (root_of self.now.roots root).join }
    {
        self.parts.sources().join(root)
    }
}
