//! The document of an object, field by field.
ghost use Rattle.std.specs.Prelude.{◌≡◌, ℕ, false, slice_index_or, ◌++◌, ◌<◌, ◌≤◌, ◌^◌, [], IsTrue, length, map, nat_lt, IfOk, OnOk};
ghost use Rattle.std.specs.List.{filter_map};
ghost use Rattle.std.specs.Ordering.{int_cmp};
ghost use Rattle.tree_json.specs.Text.{compact};
ghost use Rattle.tree_json.specs.View.{view};
ghost use Rattle.mapping_body.specs.declared.kind.Kind.{Kind};
ghost use Rattle.tree_objects.specs.Values.{convert, has_values};
ghost use Rattle.flattener.specs.Adds.{Added, Adds, begun};
ghost use Rattle.flattener.specs.Flat.{ascending, bytes_cmp, numbers_in, texts_in, tokens, words_of_field};
ghost use Rattle.flattener.specs.Fits.{most_source};
ghost use Rattle.flattener.specs.Placing.{room, texts_among};
ghost use Rattle.flattener.specs.Seen.{document_seen};
ghost use Rattle.flattener.specs.Walked.{flat_at, kept, shown_items, valued};

use crate::document::{Document, KeywordField, NumberField};
use crate::gather::MaybeSeveral;
use crate::marked::mark_below;
use crate::refusal::NoMemory;
use crate::shown::{find_shown, is_shown, shown_alone};
use crate::texts::{has_text, push_words_of_field, tokens};
use crate::values::{keywords, numbers};
use block_bits::BitSet;
use mapping::{Kind, Mapping, names_lead_to_fields};
use smallvec::SmallVec;
use std::alloc::Global;
use tree_json::Json;

/// A document of a scope with no values yet.
pub(crate) fn begun(alloc: Global, scope: u32) -> Document
    ensures { document_seen result ≡ begun scope }
{
    Document {
        scope,
        numbers: SmallVec::new(alloc),
        keywords: SmallVec::new(alloc),
        words: Vec::new(alloc),
        texts: SmallVec::new(alloc),
    }
}

/// A mapping with no more fields is gone over field by field for each object: to look for each name of a source takes longer.
const FEW_FIELDS: u32 = 64;

/// Fills the document of an object of a scope, which is begun, where it stands. `found` is for items.
pub(crate) fn fill<'a>(
    alloc: Global,
    mapping: &Mapping,
    generation: u32,
    scope: u32,
    content: &'a Json,
    found: &mut Vec<&'a Json>,
    into: &mut Document,
) -> Result<(), NoMemory>
    requires begun { document_seen into.old ≡ begun scope }
    requires scope { scope < length mapping.now.scopes }
    requires light { length (compact (view content.now)) ≤ most_source }
    ensures { OnOk result (document_seen into.new ≡ flat_at mapping.now generation scope (view content.now)) }
{
    if mapping.field_count() > FEW_FIELDS {
        fill_named(alloc, mapping, generation, scope, content, found, into)
    } else {
        fill_all(alloc, mapping, generation, scope, content, found, into)
    }
}

/// The same, field by field.
#[tactic(auto, using(crate::proofs::Documents::documents))]
fn fill_all<'a>(
    alloc: Global,
    mapping: &Mapping,
    generation: u32,
    scope: u32,
    content: &'a Json,
    found: &mut Vec<&'a Json>,
    into: &mut Document,
) -> Result<(), NoMemory>
    requires begun { document_seen into.old ≡ begun scope }
    requires scope { scope < length mapping.now.scopes }
    requires light { length (compact (view content.now)) ≤ most_source }
    ensures { OnOk result (document_seen into.new ≡ flat_at mapping.now generation scope (view content.now)) }
{
    let count = mapping.field_count();
    let mut field = 0;
    'fields: while field < count {
        add_if_shown(
            alloc, mapping, generation, scope, content, field, found, into,
        )?;
        field += 1;
    }
    Ok(())
}

/// The same over the fields that names of the source lead to: no other field shows anything.
fn fill_named<'a>(
    alloc: Global,
    mapping: &Mapping,
    generation: u32,
    scope: u32,
    content: &'a Json,
    found: &mut Vec<&'a Json>,
    into: &mut Document,
) -> Result<(), NoMemory>
    requires begun { document_seen into.old ≡ begun scope }
    requires scope { scope < length mapping.now.scopes }
    requires light { length (compact (view content.now)) ≤ most_source }
    ensures { OnOk result (document_seen into.new ≡ flat_at mapping.now generation scope (view content.now)) }
{
    names_lead_to_fields();
    let _scopes = mapping.scope_count();
    let _generations = mapping.generation();
    let mut named = BitSet::empty(alloc, mapping.field_count())?;
    mark_below(
        mapping,
        generation,
        mapping.scope_path(scope),
        content,
        &mut named,
    );
    fill_marked(
        alloc, mapping, generation, scope, content, &named, found, into,
    )
}

/// The same over the fields of a set, where no other shows anything.
fn fill_marked<'a>(
    alloc: Global,
    mapping: &Mapping,
    generation: u32,
    scope: u32,
    content: &'a Json,
    named: &BitSet,
    found: &mut Vec<&'a Json>,
    into: &mut Document,
) -> Result<(), NoMemory>
    requires begun { document_seen into.old ≡ begun scope }
    requires scope { scope < length mapping.now.scopes }
    requires light { length (compact (view content.now)) ≤ most_source }
    requires long { length named.now ≡ length mapping.now.fields }
    requires others { (f : ℕ) → f < length mapping.now.fields → slice_index_or named.now f false ≡ false → shown_items mapping.now generation f scope (view content.now) ≡ [] }
    ensures { OnOk result (document_seen into.new ≡ flat_at mapping.now generation scope (view content.now)) }
{
    let mut fields = named.walk();
    'fields: while let Some(field) = fields.next() {
        add_if_shown(
            alloc, mapping, generation, scope, content, field, found, into,
        )?;
    }
    Ok(())
}

/// Adds a field to a document, if the object's scope shows it: most fields of a mapping are another scope's.
fn add_if_shown<'a>(
    alloc: Global,
    mapping: &Mapping,
    generation: u32,
    scope: u32,
    content: &'a Json,
    field: u32,
    found: &mut Vec<&'a Json>,
    into: &mut Document,
) -> Result<(), NoMemory>
    requires field { field < length mapping.now.fields }
    requires scope { scope < length mapping.now.scopes }
    requires light { length (compact (view content.now)) ≤ most_source }
    ensures { OnOk result (Adds mapping.now generation scope (view content.now) field (document_seen into.old) (document_seen into.new)) }
{
    if !is_shown(mapping, field, scope) {
        return Ok(());
    }
    add_field(
        alloc, mapping, generation, scope, content, field, found, into,
    )
}

/// Adds what a field shows to a document, if its kind has values.
#[tactic(auto, using(crate::proofs::Wording::converting))]
fn add_field<'a>(
    alloc: Global,
    mapping: &Mapping,
    generation: u32,
    scope: u32,
    content: &'a Json,
    field: u32,
    found: &mut Vec<&'a Json>,
    into: &mut Document,
) -> Result<(), NoMemory>
    requires field { field < length mapping.now.fields }
    requires scope { scope < length mapping.now.scopes }
    requires light { length (compact (view content.now)) ≤ most_source }
    ensures { OnOk result (Adds mapping.now generation scope (view content.now) field (document_seen into.old) (document_seen into.new)) }
{
    match mapping.kind(field) {
        Kind::Object => Ok(()),
        Kind::Nested => Ok(()),
        Kind::Join => Ok(()),
        _ => add_shown(
            alloc, mapping, generation, scope, content, field, found, into,
        ),
    }
}

/// Adds what a field shows to a document. A list is made only where the source has one.
fn add_shown<'a>(
    alloc: Global,
    mapping: &Mapping,
    generation: u32,
    scope: u32,
    content: &'a Json,
    field: u32,
    found: &mut Vec<&'a Json>,
    into: &mut Document,
) -> Result<(), NoMemory>
    requires field { field < length mapping.now.fields }
    requires scope { scope < length mapping.now.scopes }
    requires light { length (compact (view content.now)) ≤ most_source }
    ensures { OnOk result (Adds mapping.now generation scope (view content.now) field (document_seen into.old) (document_seen into.new)) }
{
    match shown_alone(mapping, generation, field, scope, content) {
        Ok(None) => Ok(()),
        Ok(Some(item)) => {
            add_items(
                alloc,
                mapping,
                generation,
                scope,
                content,
                field,
                &[item],
                into,
            )
        }
        Err(MaybeSeveral) => {
            find_shown(alloc, mapping, generation, field, scope, content, found)?;
            add_items(
                alloc,
                mapping,
                generation,
                scope,
                content,
                field,
                found.as_slice(),
                into,
            )
        }
    }
}

/// Adds what a field's items are to a document.
#[inline(always)]
#[tactic(auto, using(crate::proofs::Wording::converting, crate::proofs::Lightness::light))]
fn add_items(
    alloc: Global,
    mapping: &Mapping,
    generation: u32,
    scope: u32,
    content: &Json,
    field: u32,
    items: &[&Json],
    into: &mut Document,
) -> Result<(), NoMemory>
    requires field { field < length mapping.now.fields }
    requires light { length (compact (view content.now)) ≤ most_source }
    requires items { map (λ j. view j.now) items.now ≡ shown_items mapping.now generation field scope (view content.now) }
    ensures { OnOk result (Adds mapping.now generation scope (view content.now) field (document_seen into.old) (document_seen into.new)) }
{
    match mapping.kind(field) {
        Kind::Text => add_text(alloc, field, items, into),
        Kind::Keyword => add_keywords(alloc, field, items, into),
        Kind::Long => add_numbers(alloc, Kind::Long, field, items, into),
        Kind::Boolean => add_numbers(alloc, Kind::Boolean, field, items, into),
        Kind::Date => add_numbers(alloc, Kind::Date, field, items, into),
        Kind::Object => Ok(()),
        Kind::Nested => Ok(()),
        Kind::Join => Ok(()),
    }
}

#[tactic(auto, using(crate::proofs::Documents::adding))]
fn add_numbers(
    alloc: Global,
    kind: Kind,
    field: u32,
    items: &[&Json],
    into: &mut Document,
) -> Result<(), NoMemory>
    requires { IsTrue (has_values kind) }
    ensures { OnOk result (Added (document_seen into.old) (document_seen into.new) (kept (field, ascending int_cmp (numbers_in (filter_map (convert kind) (map (λ j. view j.now) items.now))))) [] [] []) }
{
    let values = numbers(alloc, kind, items)?;
    if !values.is_empty() {
        into.numbers.push(NumberField { field, values })?;
    }
    Ok(())
}

#[tactic(auto, using(crate::proofs::Documents::adding))]
fn add_keywords(
    alloc: Global,
    field: u32,
    items: &[&Json],
    into: &mut Document,
) -> Result<(), NoMemory>
    ensures { OnOk result (Added (document_seen into.old) (document_seen into.new) [] (kept (field, ascending bytes_cmp (texts_in (filter_map (convert Kind.Keyword) (map (λ j. view j.now) items.now))))) [] []) }
{
    let values = keywords(alloc, items)?;
    if !values.is_empty() {
        into.keywords.push(KeywordField { field, values })?;
    }
    Ok(())
}

#[tactic(auto, using(crate::proofs::Documents::adding), unfolding(crate::specs::Flat::tokens))]
fn add_text(alloc: Global, field: u32, items: &[&Json], into: &mut Document) -> Result<(), NoMemory>
    requires { room (texts_among (map (λ j. view j.now) items.now)) < 2 ^ 32 }
    ensures { OnOk result (Added (document_seen into.old) (document_seen into.new) [] [] (words_of_field field (tokens (texts_among (map (λ j. view j.now) items.now)))) (valued field (texts_among (map (λ j. view j.now) items.now)))) }
{
    push_words_of_field(alloc, field, tokens(alloc, items)?, &mut into.words)?;
    if has_text(items) {
        into.texts.push(field)?;
    }
    Ok(())
}
