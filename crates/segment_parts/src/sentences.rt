//! Sentences of agreement that are tested in one way on columns that are given and on those of a segment.

ghost use Rattle.std.specs.Prelude.{◌≡◌, ◌↔◌, ◌≤◌, ◌-◌, false, [], length, count_by, slice_index_or, IsTrue};
ghost use Rattle.std.specs.List.{All};
ghost use Rattle.block_bits.specs.Flags.{is_marked};
ghost use Rattle.segment_parts.specs.Parts.{root_flags, IsHead};
ghost use Rattle.segment_parts.specs.Agree.{IsId};

use block_bits::BitSet;

/// The most bytes of a source.
pub const MAX_SOURCE_LEN: u32 = 16_777_216;

/// The most bytes of an id.
const MAX_ID_LEN: usize = 512;

/// The greatest number of bytes of a term (Lucene's `IndexWriter.MAX_TERM_LENGTH`).
pub const MAX_TERM_LEN: usize = 32_766;

/// Whether the last document is a root.
pub fn ends_with_root(scopes: &[BitSet], documents: u32) -> bool
    requires { IsHead documents scopes.now }
    ensures { IsTrue result ↔ IsTrue (slice_index_or (root_flags scopes.now) (documents - 1) false) }
{
    scopes[0].has(documents - 1)
}

/// Whether the last scope has documents.
pub fn has_greatest(scopes: &[BitSet]) -> bool
    requires { 1 ≤ length scopes.now }
    ensures { IsTrue result ↔ (1 ≤ count_by is_marked (slice_index_or scopes.now (length scopes.now - 1) [])) }
{
    scopes[scopes.len() - 1].count() >= 1
}

/// Whether bytes are as many as an id has.
pub fn is_id(bytes: &[u8]) -> bool
    ensures { IsTrue result ↔ IsId bytes.now }
{
    !bytes.is_empty() && bytes.len() <= MAX_ID_LEN
}

/// Whether each text field has documents.
pub fn have_present(columns: &[(u32, BitSet)]) -> bool
    ensures { IsTrue result ↔ All (λ column. 1 ≤ count_by is_marked column.1) columns.now }
{
    columns.iter().all(|(_, set)| set.count() >= 1)
}
