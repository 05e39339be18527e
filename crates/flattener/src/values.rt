//! The values of a field, in the form that a document has them.
ghost use Rattle.std.specs.Prelude.{◌≡◌, ◌++◌, map, option_map, IfOk, IsTrue, OnOk};
ghost use Rattle.std.specs.List.{filter_map};
ghost use Rattle.std.specs.Ordering.{int_cmp};
ghost use Rattle.tree_json.specs.View.{view};
ghost use Rattle.mapping_body.specs.declared.kind.Kind.{Kind};
ghost use Rattle.tree_objects.specs.Values.{convert, has_values};
ghost use Rattle.tree_objects.specs.declared.field_value.FieldValue.{FieldValue};
ghost use Rattle.flattener.specs.Flat.{ascending, bytes_cmp, numbers_in, texts_in};
ghost use Rattle.flattener.specs.Walked.{one_number, one_text};

use crate::document::Keyword;
use crate::refusal::NoMemory;
use itoa::Buffer;
use mapping::Kind;
use smallvec::SmallVec;
use std::alloc::Global;
use tree_json::Json;
use tree_objects::{FieldValue, ValueRefusal, value_of};

/// The numbers that items are for a field of a kind, ascending. Most fields have one item, whose number takes no memory.
#[tactic(auto, using(crate::proofs::Numbers::alone))]
pub(crate) fn numbers(
    alloc: Global,
    kind: Kind,
    items: &[&Json],
) -> Result<SmallVec<i64, 1>, NoMemory>
    requires { IsTrue (has_values kind) }
    ensures { IfOk result (λ v. v.items ≡ ascending int_cmp (numbers_in (filter_map (convert kind) (map (λ j. view j.now) items.now)))) }
{
    match items {
        [] => Ok(SmallVec::new(alloc)),
        [item] => one_number(alloc, kind, *item),
        _ => Ok(SmallVec::from_vec(sorted_numbers(alloc, kind, items)?)),
    }
}

/// The number that an item is, if it is one.
fn one_number(alloc: Global, kind: Kind, item: &Json) -> Result<SmallVec<i64, 1>, NoMemory>
    requires { IsTrue (has_values kind) }
    ensures { IfOk result (λ v. v.items ≡ one_number (convert kind (view item.now))) }
{
    match value_of(alloc, kind, item) {
        Ok(FieldValue::Number(number)) => Ok(SmallVec::from_buf(alloc, [number])),
        Ok(FieldValue::Written(_)) => Ok(SmallVec::new(alloc)),
        Err(ValueRefusal::NotOfKind) => Ok(SmallVec::new(alloc)),
        Err(ValueRefusal::NoMemory) => Err(NoMemory),
    }
}

/// The numbers that items are, one by one and then sorted.
#[tactic(auto, using(crate::proofs::Numbers::one_by_one))]
fn sorted_numbers(alloc: Global, kind: Kind, items: &[&Json]) -> Result<Vec<i64>, NoMemory>
    requires { IsTrue (has_values kind) }
    ensures { IfOk result (λ v. v.items ≡ ascending int_cmp (numbers_in (filter_map (convert kind) (map (λ j. view j.now) items.now)))) }
{
    let mut values = Vec::with_capacity(alloc, items.len())?;
    'items: for item in items {
        push_number(alloc, kind, *item, &mut values)?;
    }
    sort_numbers(&mut values);
    Ok(values)
}

fn push_number(
    alloc: Global,
    kind: Kind,
    item: &Json,
    values: &mut Vec<i64>,
) -> Result<(), NoMemory>
    requires { IsTrue (has_values kind) }
    ensures { OnOk result (values.new.items ≡ values.old.items ++ one_number (convert kind (view item.now))) }
{
    match value_of(alloc, kind, item) {
        Ok(FieldValue::Number(number)) => {
            values.push(number)?;
            Ok(())
        }
        Ok(FieldValue::Written(_)) => Ok(()),
        Err(ValueRefusal::NotOfKind) => Ok(()),
        Err(ValueRefusal::NoMemory) => Err(NoMemory),
    }
}

fn sort_numbers(values: &mut Vec<i64>)
    ensures { values.new.items ≡ ascending int_cmp values.old.items }
{
    values.sort_unstable();
}

/// The keywords that items are, in the order of their bytes.
#[tactic(auto, using(crate::proofs::Numbers::alone))]
pub(crate) fn keywords(alloc: Global, items: &[&Json]) -> Result<SmallVec<Keyword, 1>, NoMemory>
    ensures { IfOk result (λ v. map (λ b. b.items) v.items ≡ ascending bytes_cmp (texts_in (filter_map (convert Kind.Keyword) (map (λ j. view j.now) items.now)))) }
{
    match items {
        [] => Ok(SmallVec::new(alloc)),
        [item] => one_keyword(alloc, *item),
        _ => Ok(SmallVec::from_vec(sorted_keywords(alloc, items)?)),
    }
}

/// The keyword that an item is alone, if it is one.
fn one_keyword(alloc: Global, item: &Json) -> Result<SmallVec<Keyword, 1>, NoMemory>
    ensures { IfOk result (λ v. map (λ b. b.items) v.items ≡ one_text (convert Kind.Keyword (view item.now))) }
{
    match keyword_of(alloc, item)? {
        Some(keyword) => Ok(SmallVec::from_buf(alloc, [keyword])),
        None => Ok(SmallVec::new(alloc)),
    }
}

/// The keywords that items are, one by one and then sorted.
#[tactic(auto, using(crate::proofs::Numbers::one_by_one))]
fn sorted_keywords(alloc: Global, items: &[&Json]) -> Result<Vec<Keyword>, NoMemory>
    ensures { IfOk result (λ v. map (λ b. b.items) v.items ≡ ascending bytes_cmp (texts_in (filter_map (convert Kind.Keyword) (map (λ j. view j.now) items.now)))) }
{
    let mut values = Vec::with_capacity(alloc, items.len())?;
    'items: for item in items {
        push_keyword(alloc, *item, &mut values)?;
    }
    sort_keywords(&mut values);
    Ok(values)
}

fn push_keyword(alloc: Global, item: &Json, values: &mut Vec<Keyword>) -> Result<(), NoMemory>
    ensures { OnOk result (map (λ b. b.items) values.new.items ≡ map (λ b. b.items) values.old.items ++ one_text (convert Kind.Keyword (view item.now))) }
{
    match keyword_of(alloc, item)? {
        Some(keyword) => {
            values.push(keyword)?;
            Ok(())
        }
        None => Ok(()),
    }
}

/// The keyword that an item is, if it is one: a text, or what a number or a truth value is written as.
#[tactic(auto, unfolding(tree_objects::specs::Values::convert))]
fn keyword_of(alloc: Global, item: &Json) -> Result<Option<Keyword>, NoMemory>
    ensures { IfOk result (λ k. convert Kind.Keyword (view item.now) ≡ option_map (λ b. FieldValue.Written b.items) k) }
{
    match item {
        Json::Text(text) => Ok(Some(written(alloc, text.as_slice())?)),
        Json::Whole(number) => Ok(Some(written(alloc, Buffer::new().format(*number).as_bytes())?)),
        Json::Bool(true) => Ok(Some(written(alloc, b"true")?)),
        Json::Bool(false) => Ok(Some(written(alloc, b"false")?)),
        _ => Ok(None),
    }
}

/// A keyword of these bytes.
fn written(alloc: Global, bytes: &[u8]) -> Result<Keyword, NoMemory>
    ensures { IfOk result (λ k. k.items ≡ bytes.now) }
{
    Ok(SmallVec::from_slice(alloc, bytes)?)
}

fn sort_keywords(values: &mut Vec<Keyword>)
    ensures { map (λ b. b.items) values.new.items ≡ ascending bytes_cmp (map (λ b. b.items) values.old.items) }
{
    values.sort_unstable();
}
