//! What the columns say of a flat document, as laws for the crates above: call the function where you need its clauses.

ghost use Rattle.std.specs.Prelude.{◌≡◌, ◌==◌, ◌<◌, ℕ, Bool, false, List, [], Some, length, map, slice_get, slice_index_or, Contains, FitsSigned};
ghost use Rattle.std.specs.Int.{w64};
ghost use Rattle.std.specs.List.{All, list_any};
ghost use Rattle.block_bits.specs.Seen.{scopes_seen};
ghost use Rattle.doc_values.specs.Values.{values_of};
ghost use Rattle.segment_parts.specs.Fields.{column_of};
ghost use Rattle.segment_parts.specs.Lists.{terms_of, postings_of};
ghost use Rattle.segment.specs.Flat.{bytes_at, flat_of, flats_of};
ghost use Rattle.segment.specs.Shows.{has_term, has_word_at, has_text, posts, column_values, column_flag};

use crate::Segment;

/// A document is among the postings of a term exactly where its flat document shows the term, and the positions there are
/// those of the word. Does nothing.
pub fn terms_are_of_documents(segment: &Segment)
    ensures terms { (field doc : ℕ) (test : List ℕ → Bool) → list_any (posts field doc test) segment.now.terms ≡ has_term field test (flat_of segment.now doc) }
    ensures words { (field doc ordinal : ℕ) (word : List ℕ) (test : ℕ → Bool) → slice_get (terms_of segment.now) ordinal ≡ Some (field, word)
        → has_word_at field word test (flat_of segment.now doc) ≡ list_any test (values_of doc (slice_index_or (postings_of segment.now) ordinal [])) }
    ensures no_words { (field doc : ℕ) (word : List ℕ) (test : ℕ → Bool) → ¬ Contains (terms_of segment.now) (field, word)
        → has_word_at field word test (flat_of segment.now doc) ≡ false }

    // postings name documents that are there
    ensures within { (ordinal : ℕ) → All (λ posting. posting.0 < segment.now.documents) (slice_index_or (postings_of segment.now) ordinal []) }
{
    let _documents = segment.docs();
}

/// The values of a document in the column of a field are those that its flat document shows. Does nothing.
pub fn values_are_of_documents(segment: &Segment)
    ensures numbers { (field doc : ℕ) → values_of field (flat_of segment.now doc).numbers ≡ column_values doc (column_of field segment.now.numbers) }
    ensures keywords { (field doc : ℕ) → values_of field (flat_of segment.now doc).keywords
        ≡ map (bytes_at (terms_of segment.now)) (column_values doc (column_of field segment.now.ordinals)) }
    ensures texts { (field doc : ℕ) → has_text field (flat_of segment.now doc) ≡ column_flag doc (column_of field segment.now.present) }

    // numbers fit eight bytes, so that their keys are ordered as they are
    ensures fit { (doc : ℕ) → All (λ pair. All (FitsSigned w64) pair.1) (flat_of segment.now doc).numbers }
{
    let _documents = segment.docs();
}

/// A document has the flag of exactly the scope that its flat document shows. Does nothing.
pub fn scopes_are_of_documents(segment: &Segment)
    ensures seen { scopes_seen segment.now.scopes ≡ map (λ document. document.scope) (flats_of segment.now) }
    ensures sets { (scope doc : ℕ) → scope < length segment.now.scopes → doc < segment.now.documents
        → slice_index_or (slice_index_or segment.now.scopes scope []) doc false ≡ ((flat_of segment.now doc).scope == scope) }
    ensures within { (doc : ℕ) → doc < segment.now.documents → (flat_of segment.now doc).scope < length segment.now.scopes }
{
    let _documents = segment.docs();
}
