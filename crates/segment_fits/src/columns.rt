//! Whether a segment's columns are of fields that the mapping has and that their documents show.
ghost use Rattle.std.specs.Prelude.{◌≡◌, ◌↔◌, ℕ, ◌<◌, List, length, vec_len, IfOk, IsTrue};
ghost use Rattle.std.specs.List.{All};
ghost use Rattle.segment_fits.specs.declared.standing.Standing.{Standing};
ghost use Rattle.segment_fits.specs.Tested.{AreColumnsShown, AreMarksShown, AreRowsShown, IsGround, IsShown, IsShownTo, IsTextColumn, IsValueColumn};

use crate::NoMemory;
use crate::form::{Form, is_field};
use crate::standing::Standing;
use block_bits::BitSet;
use doc_values::{Column, ColumnValue};
use mapping::Mapping;
use segment::Segment;
use std::alloc::Global;

/// A field of a mapping, and whether each of the mapping's first scopes includes its values.
#[derive(Drop)]
pub(crate) struct Shown<'a> {
    pub(crate) mapping: &'a Mapping,
    pub(crate) field: u32,
    pub(crate) scopes: Vec<bool>,
}

/// The mapping, how many of its scopes a segment has, and where the segment's documents stand.
#[derive(Clone, Copy)]
pub(crate) struct Ground<'a> {
    pub(crate) mapping: &'a Mapping,
    pub(crate) scopes: u32,
    pub(crate) standings: &'a [Standing],
}

/// Whether each column is of a field of its form, which each of its documents shows.
pub(crate) fn are_columns_shown(
    alloc: Global,
    ground: &Ground,
    segment: &Segment,
) -> Result<bool, NoMemory>
    requires ground { IsGround ground.now }
    requires documents { length ground.now.standings.now ≡ segment.now.documents }
    ensures { IfOk result (λ all. IsTrue all ↔ AreColumnsShown ground.now.mapping.now segment.now ground.now.standings.now) }
{
    if !are_numbers_shown(alloc, ground, segment)? {
        return Ok(false);
    }
    if !are_keywords_shown(alloc, ground, segment)? {
        return Ok(false);
    }
    are_texts_shown(alloc, ground, segment)
}

fn are_numbers_shown(alloc: Global, ground: &Ground, segment: &Segment) -> Result<bool, NoMemory>
    requires ground { IsGround ground.now }
    requires documents { length ground.now.standings.now ≡ segment.now.documents }
    ensures { IfOk result (λ all. IsTrue all ↔ All (IsValueColumn ground.now.mapping.now ground.now.standings.now Form.Numbers) segment.now.numbers) }
{
    let _documents = segment.docs();
    'columns: for at in 0..segment.number_columns() {
        let (field, column) = segment.number_column(at);
        if !is_value_column(alloc, ground, Form::Numbers, field, &column)? {
            return Ok(false);
        }
    }
    Ok(true)
}

fn are_keywords_shown(alloc: Global, ground: &Ground, segment: &Segment) -> Result<bool, NoMemory>
    requires ground { IsGround ground.now }
    requires documents { length ground.now.standings.now ≡ segment.now.documents }
    ensures { IfOk result (λ all. IsTrue all ↔ All (IsValueColumn ground.now.mapping.now ground.now.standings.now Form.Keywords) segment.now.ordinals) }
{
    let _documents = segment.docs();
    'columns: for at in 0..segment.ordinal_columns() {
        let (field, column) = segment.ordinal_column(at);
        if !is_value_column(alloc, ground, Form::Keywords, field, &column)? {
            return Ok(false);
        }
    }
    Ok(true)
}

fn are_texts_shown(alloc: Global, ground: &Ground, segment: &Segment) -> Result<bool, NoMemory>
    requires ground { IsGround ground.now }
    requires documents { length ground.now.standings.now ≡ segment.now.documents }
    ensures { IfOk result (λ all. IsTrue all ↔ All (IsTextColumn ground.now.mapping.now ground.now.standings.now) segment.now.present) }
{
    let _documents = segment.docs();
    'columns: for (field, set) in segment.present_columns() {
        if !is_text_column(alloc, ground, *field, set)? {
            return Ok(false);
        }
    }
    Ok(true)
}

/// Whether a field has the form, and each document with a row shows it.
fn is_value_column<T: ColumnValue>(
    alloc: Global,
    ground: &Ground,
    form: Form,
    field: u32,
    column: &Column<'_, T>,
) -> Result<bool, NoMemory>
    requires ground { IsGround ground.now }
    requires within { All (λ (row : ℕ × List T). row.0 < length ground.now.standings.now) column.now }
    ensures { IfOk result (λ all. IsTrue all ↔ IsValueColumn ground.now.mapping.now ground.now.standings.now form (field, column.now)) }
{
    if !is_field(ground.mapping, form, field) {
        return Ok(false);
    }
    let shown = shown_in(alloc, ground, field)?;
    Ok(are_rows_shown(&shown, ground.standings, column))
}

/// Whether a field is a text field, and each document with its flag set shows it.
fn is_text_column(
    alloc: Global,
    ground: &Ground,
    field: u32,
    set: &BitSet,
) -> Result<bool, NoMemory>
    requires ground { IsGround ground.now }
    requires long { length set.now ≡ length ground.now.standings.now }
    ensures { IfOk result (λ all. IsTrue all ↔ IsTextColumn ground.now.mapping.now ground.now.standings.now (field, set.now)) }
{
    if !is_field(ground.mapping, Form::Words, field) {
        return Ok(false);
    }
    let shown = shown_in(alloc, ground, field)?;
    Ok(are_marks_shown(&shown, ground.standings, set))
}

/// Which of the first scopes include a field's values: asked once for each scope, whatever the number of rows.
fn shown_in<'a>(alloc: Global, ground: &Ground<'a>, field: u32) -> Result<Shown<'a>, NoMemory>
    requires ground { IsGround ground.now }
    requires field { field < length ground.now.mapping.now.fields }
    ensures shown { IfOk result IsShown }
    ensures mapping { IfOk result (λ shown. shown.mapping.now ≡ ground.now.mapping.now) }
    ensures field { IfOk result (λ shown. shown.field ≡ field) }
    ensures scopes { IfOk result (λ shown. vec_len shown.scopes ≡ ground.now.scopes) }
{
    let mut scopes = Vec::with_capacity(alloc, ground.scopes as usize)?;
    'scopes: for scope in 0..ground.scopes {
        scopes.push(ground.mapping.included(field, scope))?;
    }
    Ok(Shown {
        mapping: ground.mapping,
        field,
        scopes,
    })
}

/// Whether each document with a row shows the field.
fn are_rows_shown<T: ColumnValue>(
    shown: &Shown,
    standings: &[Standing],
    column: &Column<'_, T>,
) -> bool
    requires shown { IsShown shown.now }
    requires scopes { All (λ (it : Standing). it.scope < vec_len shown.now.scopes) standings.now }
    requires within { All (λ (row : ℕ × List T). row.0 < length standings.now) column.now }
    ensures { IsTrue result ↔ AreRowsShown shown.now.mapping.now standings.now shown.now.field column.now }
{
    'rows: for row in 0..column.rows() {
        if !is_shown(shown, standings[column.doc(row) as usize]) {
            return false;
        }
    }
    true
}

/// Whether each document with its flag set shows the field.
fn are_marks_shown(shown: &Shown, standings: &[Standing], set: &BitSet) -> bool
    requires shown { IsShown shown.now }
    requires scopes { All (λ (it : Standing). it.scope < vec_len shown.now.scopes) standings.now }
    requires long { length set.now ≡ length standings.now }
    ensures { IsTrue result ↔ AreMarksShown shown.now.mapping.now standings.now shown.now.field set.now }
{
    let mut from = 0;
    'documents: while let Some(doc) = set.next_set(from) {
        if !is_shown(shown, standings[doc as usize]) {
            return false;
        }
        from = doc + 1;
    }
    true
}

/// Whether a document that stands there shows the field.
fn is_shown(shown: &Shown, it: Standing) -> bool
    requires shown { IsShown shown.now }
    requires scope { it.scope < vec_len shown.now.scopes }
    ensures { IsTrue result ↔ IsShownTo shown.now.mapping.now shown.now.field it }
{
    shown.mapping.knows(it.generation, shown.field) && shown.scopes[it.scope as usize]
}
