//! Whether the columns of a segment agree: its documents, its roots and the columns of its fields.

ghost use Rattle.std.specs.Prelude.{◌≡◌, ◌↔◌, ◌<◌, ℕ, List, length, IsTrue, IsNone};
ghost use Rattle.std.specs.List.{All};
ghost use Rattle.stored_sources.specs.Roots.{root_of, lent_join};
ghost use Rattle.segment_parts.specs.Fields.{column_of};
ghost use Rattle.segment_parts.specs.Agree.{HasParentId, IsStored, AreRooted, AreWithin, HaveFields, HaveTerms, AreColumns};

use crate::agree_columns::{have_keys, have_ordinals};
use crate::agree_terms::are_terms;
use doc_values::{Column, ColumnValue};
use segment_parts::{MAX_SOURCE_LEN, Parts, ends_with_root, has_greatest, have_present, is_id};
use stored_sources::{JoinValue, StoredSources};

/// Whether columns that can be written are those of one segment.
pub(crate) fn are_columns(parts: &Parts) -> bool
    ensures { IsTrue result ↔ AreColumns parts.now }
{
    let _bytes = parts.bytes();
    are_rooted(parts) && have_fields(parts) && have_terms(parts)
}

/// Whether terms and the columns of fields say the same.
fn have_terms(parts: &Parts) -> bool
    ensures { IsTrue result ↔ HaveTerms parts.now }
{
    if !are_terms(parts) {
        return false;
    }
    if !have_ordinals(parts) {
        return false;
    }
    have_keys(parts)
}

/// Whether each document is of one scope, the last document is a root, the last scope has documents, and the roots can be
/// stored.
fn are_rooted(parts: &Parts) -> bool
    ensures { IsTrue result ↔ AreRooted parts.now }
{
    let _bytes = parts.bytes();
    let documents = parts.documents();
    let scopes = parts.scopes();
    scopes.give_one_scope(documents)
        && ends_with_root(scopes.as_slice(), documents)
        && has_greatest(scopes.as_slice())
        && are_stored(&parts.sources())
}

/// Whether ids and sources have as many bytes as they may have.
#[tactic(auto, using(segment_parts::specs::Passes::passes))]
fn are_stored(sources: &StoredSources) -> bool
    ensures { IsTrue result ↔ All IsStored sources.now }
{
    'roots: for root in 0..sources.count() {
        if !is_stored(sources, root) {
            return false;
        }
    }
    true
}

/// Whether the ids and the source of a root have as many bytes as they may have.
fn is_stored(sources: &StoredSources, root: u32) -> bool
    requires { root < length sources.now }
    ensures { IsTrue result ↔ IsStored (root_of sources.now root) }
{
    is_id(sources.id(root))
        && has_parent_id(sources.join(root))
        && sources.source_len(root) <= MAX_SOURCE_LEN
}

/// Whether a join value names its parent by an id, where it names one.
fn has_parent_id(join: JoinValue) -> bool
    ensures { IsTrue result ↔ HasParentId (lent_join join.entry) }
{
    match join {
        JoinValue::Unjoined => true,
        JoinValue::Named(_) => true,
        JoinValue::Child(_, parent) => is_id(parent),
    }
}

/// Whether no field has columns of two kinds, columns name documents that are there, and each text field has some.
fn have_fields(parts: &Parts) -> bool
    ensures { IsTrue result ↔ HaveFields parts.now }
{
    if !are_ordinals_apart(parts) {
        return false;
    }
    if !are_numbers_apart(parts) {
        return false;
    }
    if !are_ordinals_within(parts) {
        return false;
    }
    if !are_numbers_within(parts) {
        return false;
    }
    have_present(parts.present().as_slice())
}

/// Whether no field of ordinals has numbers or is a text field.
#[tactic(auto, using(segment_parts::specs::Passes::passes))]
fn are_ordinals_apart(parts: &Parts) -> bool
    ensures { IsTrue result ↔ All (λ column. IsNone (column_of column.0 parts.now.numbers) × IsNone (column_of column.0 parts.now.present)) parts.now.ordinals }
{
    'columns: for at in 0..parts.ordinal_columns() {
        let field = parts.ordinal_column(at).0;
        if parts.numbers(field).is_some() || parts.present().get(field).is_some() {
            return false;
        }
    }
    true
}

/// Whether no field of numbers is a text field.
#[tactic(auto, using(segment_parts::specs::Passes::passes))]
fn are_numbers_apart(parts: &Parts) -> bool
    ensures { IsTrue result ↔ All (λ column. IsNone (column_of column.0 parts.now.present)) parts.now.numbers }
{
    'columns: for at in 0..parts.number_columns() {
        let field = parts.number_column(at).0;
        if parts.present().get(field).is_some() {
            return false;
        }
    }
    true
}

/// Whether columns of ordinals name documents that are there.
#[tactic(auto, using(segment_parts::specs::Passes::passes))]
fn are_ordinals_within(parts: &Parts) -> bool
    ensures { IsTrue result ↔ All (λ column. AreWithin parts.now.documents column.1) parts.now.ordinals }
{
    'columns: for at in 0..parts.ordinal_columns() {
        let (_, column) = parts.ordinal_column(at);
        if !are_within(&column, parts.documents()) {
            return false;
        }
    }
    true
}

/// Whether columns of numbers name documents that are there.
#[tactic(auto, using(segment_parts::specs::Passes::passes))]
fn are_numbers_within(parts: &Parts) -> bool
    ensures { IsTrue result ↔ All (λ column. AreWithin parts.now.documents column.1) parts.now.numbers }
{
    'columns: for at in 0..parts.number_columns() {
        let (_, column) = parts.number_column(at);
        if !are_within(&column, parts.documents()) {
            return false;
        }
    }
    true
}

/// Whether the documents of a column are below their number: the last one is, since they ascend.
fn are_within<T: ColumnValue>(column: &Column<T>, documents: u32) -> bool
    ensures { IsTrue result ↔ AreWithin documents column.now }
{
    let rows = column.rows();
    rows == 0 || column.doc(rows - 1) < documents
}
