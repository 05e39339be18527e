//! Whether columns agree where they are given, before they are written: the documents, the roots and the columns of fields.

ghost use Rattle.std.specs.Prelude.{◌≡◌, ◌↔◌, ◌<◌, ℕ, List, IsTrue, IsNone};
ghost use Rattle.std.specs.List.{All};
ghost use Rattle.segment_parts.specs.Fields.{column_of};
ghost use Rattle.segment_parts.specs.Parts.{AreParts};
ghost use Rattle.segment_parts.specs.Agree.{HasParentId, IsStored, AreRooted, AreWithin, HaveFields, AreColumns};

use crate::given_terms::have_terms;
use crate::sentences::{MAX_SOURCE_LEN, ends_with_root, has_greatest, have_present, is_id};
use crate::writable::are_parts;
use crate::{ColumnList, Columns, Join, Root};
use doc_values::{ColumnValue, RowList};

/// Whether columns are those of one segment. Takes no memory.
pub fn agree(columns: &Columns) -> bool
    ensures { IsTrue result ↔ AreColumns columns.now }
{
    are_parts(columns) && are_rooted(columns) && have_fields(columns) && have_terms(columns)
}

/// Whether each document is of one scope, the last document is a root, the last scope has documents, and the roots can be
/// stored.
fn are_rooted(columns: &Columns) -> bool
    requires { AreParts columns.now }
    ensures { IsTrue result ↔ AreRooted columns.now }
{
    let scopes = columns.scopes.as_slice();
    columns.scopes.give_one_scope(columns.documents)
        && ends_with_root(scopes, columns.documents)
        && has_greatest(scopes)
        && are_stored(columns.roots.as_slice())
}

/// Whether ids and sources have as many bytes as they may have.
fn are_stored(roots: &[Root]) -> bool
    ensures { IsTrue result ↔ All IsStored roots.now }
{
    roots.iter().all(|root| is_stored(root))
}

/// Whether the ids and the source of a root have as many bytes as they may have.
fn is_stored(root: &Root) -> bool
    ensures { IsTrue result ↔ IsStored root.now }
{
    is_id(root.id.as_slice())
        && has_parent_id(&root.join)
        && root.source.as_slice().len() <= MAX_SOURCE_LEN as usize
}

/// Whether a join value names its parent by an id, where it names one.
fn has_parent_id(join: &Join) -> bool
    ensures { IsTrue result ↔ HasParentId join.now }
{
    match join {
        Join::Unjoined => true,
        Join::Named(_) => true,
        Join::Child(_, parent) => is_id(parent.as_slice()),
    }
}

/// Whether no field has columns of two kinds, columns name documents that are there, and each text field has some.
fn have_fields(columns: &Columns) -> bool
    ensures { IsTrue result ↔ HaveFields columns.now }
{
    if !are_ordinals_apart(columns) {
        return false;
    }
    if !are_numbers_apart(columns) {
        return false;
    }
    if !are_within(&columns.ordinals, columns.documents) {
        return false;
    }
    if !are_within(&columns.numbers, columns.documents) {
        return false;
    }
    have_present(columns.present.as_slice())
}

/// Whether no field of ordinals has numbers or is a text field.
fn are_ordinals_apart(columns: &Columns) -> bool
    ensures { IsTrue result ↔ All (λ column. IsNone (column_of column.0 columns.now.numbers) × IsNone (column_of column.0 columns.now.present)) columns.now.ordinals }
{
    columns
        .ordinals
        .as_slice()
        .iter()
        .all(|column| has_ordinals_alone(columns, column.field()))
}

/// Whether a field has no numbers and is no text field.
fn has_ordinals_alone(columns: &Columns, field: u32) -> bool
    ensures { IsTrue result ↔ (IsNone (column_of field columns.now.numbers) × IsNone (column_of field columns.now.present)) }
{
    columns.numbers.get(field).is_none() && is_no_text(columns, field)
}

/// Whether no field of numbers is a text field.
fn are_numbers_apart(columns: &Columns) -> bool
    ensures { IsTrue result ↔ All (λ column. IsNone (column_of column.0 columns.now.present)) columns.now.numbers }
{
    columns
        .numbers
        .as_slice()
        .iter()
        .all(|column| is_no_text(columns, column.field()))
}

/// Whether a field is no text field.
fn is_no_text(columns: &Columns, field: u32) -> bool
    ensures { IsTrue result ↔ IsNone (column_of field columns.now.present) }
{
    columns.present.get(field).is_none()
}

/// Whether columns name documents that are there.
fn are_within<T: ColumnValue>(columns: &ColumnList<T>, documents: u32) -> bool
    ensures { IsTrue result ↔ All (λ column. AreWithin documents column.1) columns.now }
{
    columns
        .as_slice()
        .iter()
        .all(|column| is_within(column, documents))
}

/// Whether a column names documents that are there.
fn is_within<T: ColumnValue>(column: &RowList<T>, documents: u32) -> bool
    ensures { IsTrue result ↔ AreWithin documents column.now.1 }
{
    column.as_slice().iter().all(|row| row.0 < documents)
}
