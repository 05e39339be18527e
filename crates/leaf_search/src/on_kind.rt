//! Leaves on a field that go by the field's kind.

ghost use Rattle.std.specs.Prelude.{◌≡◌, ◌<◌, ℕ, length, map, IfOk};
ghost use Rattle.mapping.specs.Mapping.{kind_at};
ghost use Rattle.query_ast.specs.Clause.{on_field, exists, has_words, has_phrase};
ghost use Rattle.query_ast.specs.Leaf.{words_in};
ghost use Rattle.query_ast.specs.Resolved.{IsText};
ghost use Rattle.segment.specs.Live.{IsLiveOver};
ghost use Rattle.leaf_search.specs.Found.{Finds};
ghost use Rattle.leaf_search.specs.Values.{known_field};
ghost use Rattle.leaf_search.specs.Words.{folded_words};

use crate::NoMemory;
use crate::phrase::phrase_set;
use crate::roots::RootTest;
use crate::sets::{parts_set, root_set, shown_set, value_set, word_set};
use analysis::{TokenList, tokens};
use block_bits::BitSet;
use mapping::{Kind, Mapping};
use segment::{LiveBits, Segment, values_are_of_documents};
use std::alloc::Global;
use term_table::keys_are_ordered;
use tree_objects::{FieldValue, objects_nest};

/// The field, if the mapping has it.
fn known(mapping: &Mapping, field: Option<u32>) -> Option<u32>
    ensures { result ≡ known_field mapping.now field }
{
    match field {
        Some(field) => if field < mapping.field_count() {
            Some(field)
        } else {
            None
        },
        None => None,
    }
}

/// `exists`: the field has a value.
pub(crate) fn existing(
    alloc: Global,
    mapping: &Mapping,
    segment: &Segment,
    live: &LiveBits,
    scope: u32,
    field: Option<u32>,
) -> Result<BitSet, NoMemory>
    requires { IsLiveOver segment.now live.now }
    ensures { IfOk result (Finds mapping.now segment.now live.now scope (on_field field exists)) }
{
    values_are_of_documents(segment);
    objects_nest();
    let Some(own) = known(mapping, field) else {
        return Ok(BitSet::empty(alloc, segment.docs())?);
    };
    match mapping.kind(own) {
        Kind::Join => Ok(root_set(alloc, segment, live, scope, &RootTest::IsJoined)?),
        Kind::Object => Ok(parts_set(alloc, mapping, segment, live, scope, own)?),
        _ => Ok(shown_set(alloc, mapping, segment, live, scope, own)?),
    }
}

/// `match`: some word of a text is among the words of the values, or all are; on another kind, a value is this one.
pub(crate) fn words(
    alloc: Global,
    mapping: &Mapping,
    segment: &Segment,
    live: &LiveBits,
    scope: u32,
    field: Option<u32>,
    value: &FieldValue,
    all: bool,
) -> Result<BitSet, NoMemory>
    requires { IsLiveOver segment.now live.now }
    ensures { IfOk result (Finds mapping.now segment.now live.now scope (on_field field (has_words value.now all))) }
{
    keys_are_ordered();
    values_are_of_documents(segment);
    let Some(own) = known(mapping, field) else {
        return Ok(BitSet::empty(alloc, segment.docs())?);
    };
    match mapping.kind(own) {
        Kind::Text => {
            let asked = words_of(alloc, value)?;
            Ok(word_set(alloc, segment, live, scope, own, asked.as_slice(), all)?)
        }
        _ => Ok(value_set(alloc, segment, live, scope, own, value)?),
    }
}

/// `match_phrase`: the words of a text stand side by side in one value; on another kind, a value is this one.
pub(crate) fn phrase(
    alloc: Global,
    mapping: &Mapping,
    segment: &Segment,
    live: &LiveBits,
    scope: u32,
    field: Option<u32>,
    value: &FieldValue,
) -> Result<BitSet, NoMemory>
    requires { IsLiveOver segment.now live.now }
    ensures { IfOk result (Finds mapping.now segment.now live.now scope (on_field field (has_phrase value.now))) }
{
    keys_are_ordered();
    values_are_of_documents(segment);
    let Some(own) = known(mapping, field) else {
        return Ok(BitSet::empty(alloc, segment.docs())?);
    };
    match mapping.kind(own) {
        Kind::Text => {
            let asked = words_of(alloc, value)?;
            Ok(phrase_set(alloc, segment, live, scope, own, asked.as_slice())?)
        }
        _ => Ok(value_set(alloc, segment, live, scope, own, value)?),
    }
}

/// The words of a value that is asked for; a number has none.
fn words_of(alloc: Global, value: &FieldValue) -> Result<TokenList, NoMemory>
    ensures { IfOk result (λ found. IsText value.now → folded_words found ≡ words_in value.now) }
{
    match value {
        FieldValue::Number(_) => Ok(TokenList::of(Vec::new(alloc))),
        FieldValue::Written(bytes) => match str::from_utf8(bytes.as_slice()) {
            Ok(text) => Ok(tokens(alloc, text)?),
            Err(_) => Ok(TokenList::of(Vec::new(alloc))),
        },
    }
}
