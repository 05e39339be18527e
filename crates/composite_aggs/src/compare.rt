//! How keys compare, and a key of its own of values that are lent.
ghost use Rattle.std.specs.Prelude.{◌≡◌, map, IfOk, IfErr};
ghost use Rattle.query_ast.specs.Compare.{value_cmp};
ghost use Rattle.composite_aggs.specs.Composite.{key_order};

use crate::PageRefusal;
use query_ast::ValueList;
use std::alloc::Global;
use std::cmp::Ordering;
use tree_objects::{Bytes, FieldValue};

/// How two values compare: numbers by number, texts by their bytes, and numbers before texts.
fn compare_values(one: &FieldValue, other: &FieldValue) -> Ordering
    ensures { result ≡ value_cmp one.now other.now }
{
    match one {
        FieldValue::Number(one) => match other {
            FieldValue::Number(other) => one.cmp(other),
            FieldValue::Written(_) => Ordering::Less,
        },
        FieldValue::Written(one) => match other {
            FieldValue::Number(_) => Ordering::Greater,
            FieldValue::Written(other) => one.as_slice().cmp(other.as_slice()),
        },
    }
}

/// How two keys compare: the first values that differ decide, and of a key that begins with the other the length.
pub(crate) fn compare_keys(one: &[FieldValue], other: &[&FieldValue]) -> Ordering
    ensures { result ≡ key_order one.now (map (λ v. v.now) other.now) }
{
    match one {
        [] => match other {
            [] => Ordering::Equal,
            [_, ..] => Ordering::Less,
        },
        [first, more @ ..] => match other {
            [] => Ordering::Greater,
            [second, others @ ..] => {
                let order = compare_values(first, second);
                if order == Ordering::Equal {
                    compare_keys(more, others)
                } else {
                    order
                }
            }
        },
    }
}

/// A key of its own of these values.
pub(crate) fn owned_key(alloc: Global, key: &[&FieldValue]) -> Result<ValueList, PageRefusal>
    ensures own { IfOk result (λ own. own ≡ map (λ v. v.now) key.now) }
    ensures cause { IfErr result (λ e. e ≡ PageRefusal.NoMemory) }
{
    let mut values = Vec::new(alloc);
    for value in key {
        values.push(copied(alloc, value)?)?;
    }
    Ok(ValueList::of(values))
}

/// An equal value.
fn copied(alloc: Global, value: &FieldValue) -> Result<FieldValue, PageRefusal>
    ensures copy { IfOk result (λ copy. copy ≡ value.now) }
    ensures cause { IfErr result (λ e. e ≡ PageRefusal.NoMemory) }
{
    match value {
        FieldValue::Number(number) => Ok(FieldValue::Number(*number)),
        FieldValue::Written(text) => Ok(FieldValue::Written(Bytes::of(Vec::from_slice(
            alloc,
            text.as_slice(),
        )?))),
    }
}
