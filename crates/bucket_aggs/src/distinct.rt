//! The different values that documents have in the column of a field.

ghost use Rattle.std.specs.Prelude.{◌≡◌, ◌++◌, IfOk, OnOk};
ghost use Rattle.std.specs.List.{flat_map};
ghost use Rattle.std.specs.Ordering.{is_eq};
ghost use Rattle.doc_values.specs.Values.{values_of};
ghost use Rattle.segment_parts.specs.Text.{marked_places};
ghost use Rattle.bucket_aggs.specs.Counts.{is_again, once_by};

use crate::NoMemory;
use block_bits::BitSet;
use doc_values::{Column, ColumnValue, Values};
use std::alloc::Global;

/// The values of the documents of a set, each document's different ones, document by document.
pub(crate) fn distinct_values<T: ColumnValue>(
    alloc: Global,
    set: &BitSet,
    column: &Column<T>,
) -> Result<Vec<T>, NoMemory>
    ensures { IfOk result (λ made. made.items ≡ flat_map (λ doc. once_by T.cmp (values_of doc column.now)) (marked_places 0 set.now)) }
{
    let mut made = Vec::new(alloc);
    let mut walk = set.walk();
    let mut near = 0;
    'documents: while let Some(doc) = walk.next() {
        let values = column.values_near(doc, &mut near);
        put_once(values, &mut made)?;
    }
    Ok(made)
}

/// Adds the values of a document but for those that are equal to the one before.
fn put_once<T: ColumnValue>(values: Values<T>, made: &mut Vec<T>) -> Result<(), NoMemory>
    ensures { OnOk result (made.new.items ≡ made.old.items ++ once_by T.cmp values.entry) }
{
    let mut values = values;
    let mut before = None;
    'values: while let Some(value) = values.next() {
        if !is_again(before, value) {
            made.push(value)?;
            before = Some(value);
        }
    }
    Ok(())
}

/// Whether a value is equal to the one before it, if there is one.
pub(crate) fn is_again<T: Ord + Copy>(before: Option<T>, value: T) -> bool
    ensures { result ≡ is_again (λ a b. is_eq (T.cmp a b)) before value }
{
    match before {
        Some(before) => before.cmp(&value).is_eq(),
        None => false,
    }
}
