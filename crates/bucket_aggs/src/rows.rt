//! Keys with their counts: put together by key, and in the order that is asked for.

ghost use Rattle.std.specs.Prelude.{◌≡◌, ◌<◌, ◌+◌, true, false, length, reverse, slice_index_or, sum_by, IfOk, IfSome, IsTrue, OnOk};
ghost use Rattle.mapping_body.specs.declared.kind.Kind.{Kind};
ghost use Rattle.query_ast.specs.Compare.{in_order, value_cmp};
ghost use Rattle.query_ast.specs.Uses.{is_written};
ghost use Rattle.tree_objects.specs.declared.field_value.FieldValue.{FieldValue as Value};
ghost use Rattle.tree_objects.specs.declared.field_value.FieldValue.TheVariants.{Written};
ghost use Rattle.bucket_aggs.specs.Counts.{AreKeys, KeysAscend, added, count_if, count_in, row_first, rows_ordered, weight};
ghost use Rattle.bucket_aggs.specs.declared.rows.CountRow.{CountRow as Row};

use crate::NoMemory;
use query_ast::rows_stand_in_order;
use std::alloc::Global;
use std::cmp::Ordering;
use tree_objects::{Bytes, FieldValue};

/// A key, and of how many objects it is a value.
#[derive(Drop)]
pub(crate) struct CountRow {
    pub(crate) key: FieldValue,
    pub(crate) count: u64,
}

/// How two values compare: numbers by number, texts by their bytes, and numbers before texts.
pub(crate) fn compared(one: &FieldValue, other: &FieldValue) -> Ordering
    ensures { result ≡ value_cmp one.now other.now }
{
    match one {
        FieldValue::Number(one) => match other {
            FieldValue::Number(other) => one.cmp(other),
            FieldValue::Written(_) => Ordering::Less,
        },
        FieldValue::Written(one) => match other {
            FieldValue::Number(_) => Ordering::Greater,
            FieldValue::Written(other) => one.as_slice().cmp(other.as_slice()),
        },
    }
}

/// An equal value.
pub(crate) fn copied(alloc: Global, value: &FieldValue) -> Result<FieldValue, NoMemory>
    ensures { IfOk result (λ copy. copy ≡ value.now) }
{
    match value {
        FieldValue::Number(number) => Ok(FieldValue::Number(*number)),
        FieldValue::Written(text) => Ok(FieldValue::Written(Bytes::of(Vec::from_slice(
            alloc,
            text.as_slice(),
        )?))),
    }
}

/// Adds a count to the last row, if it is of this key, else as a new row.
pub(crate) fn add(rows: &mut Vec<CountRow>, key: FieldValue, count: u64) -> Result<(), NoMemory>
    ensures { OnOk result (rows.new.items ≡ added key count rows.old.items) }
{
    match rows.pop() {
        Some(last) => {
            if compared(&last.key, &key).is_eq() {
                let Some(sum) = last.count.checked_add(count) else {
                    return Err(NoMemory);
                };
                rows.push(CountRow {
                    key: last.key,
                    count: sum,
                })?;
                Ok(())
            } else {
                rows.push(last)?;
                rows.push(CountRow { key, count })?;
                Ok(())
            }
        }
        None => {
            rows.push(CountRow { key, count })?;
            Ok(())
        }
    }
}

/// How many rows are looked at for a text, from the place on where the one before it was found.
const NEAR_ROWS: usize = 4;

/// Adds a count to the row of a text, where that is near a place or the last, else as a new row. No text is copied for a row
/// that is there: the terms of one segment are mostly those of the segment before, in one order.
pub(crate) fn add_text(
    alloc: Global,
    rows: &mut Vec<CountRow>,
    near: &mut usize,
    text: &[u8],
    count: u64,
) -> Result<(), NoMemory>
    requires { 0 < count }
    ensures counts { (v : Value) → OnOk result (weight v rows.new.items ≡ weight v rows.old.items + count_if v (Written text.now) count) }
    ensures keys { (kind : Kind) → is_written kind ≡ true → AreKeys kind rows.old.items → OnOk result (AreKeys kind rows.new.items) }
{
    let end = near.saturating_add(NEAR_ROWS);
    match row_of(rows.as_slice(), *near, end, text) {
        Some(at) => {
            if at < end {
                *near = at;
            }
            add_at(rows, at, count)?;
            Ok(())
        }
        None => {
            let key = FieldValue::Written(Bytes::of(Vec::from_slice(alloc, text)?));
            rows.push(CountRow { key, count })?;
            Ok(())
        }
    }
}

/// The place of a row of a text, if it is one of those from `near` up to `end`, or the last.
fn row_of(rows: &[CountRow], near: usize, end: usize, text: &[u8]) -> Option<usize>
    ensures within { IfSome result (λ at. at < length rows.now) }
    ensures key { IfSome result (λ at. (d : Row) → (slice_index_or rows.now at d).key ≡ Written text.now) }
{
    'rows: for at in near..end.min(rows.len()) {
        if is_of(&rows[at].key, text) {
            return Some(at);
        }
    }
    let last = rows.len().checked_sub(1)?;
    if is_of(&rows[last].key, text) {
        Some(last)
    } else {
        None
    }
}

/// Whether a key is a text.
fn is_of(key: &FieldValue, text: &[u8]) -> bool
    ensures { IsTrue result → key.now ≡ Written text.now }
{
    match key {
        FieldValue::Number(_) => false,
        FieldValue::Written(own) => own.as_slice() == text,
    }
}

/// Adds a count to a row.
fn add_at(rows: &mut Vec<CountRow>, at: usize, count: u64) -> Result<(), NoMemory>
    requires { at < length rows.old.items }
    ensures counts { (v : Value) (d : Row) → OnOk result (weight v rows.new.items ≡ weight v rows.old.items + count_if v (slice_index_or rows.old.items at d).key count) }
    ensures keys { (kind : Kind) → AreKeys kind rows.old.items → OnOk result (AreKeys kind rows.new.items) }
{
    let row = &mut rows[at];
    let Some(sum) = row.count.checked_add(count) else {
        return Err(NoMemory);
    };
    row.count = sum;
    Ok(())
}

/// One row for each key, by ascending key, with the sum of its counts.
pub(crate) fn merged(alloc: Global, mut rows: Vec<CountRow>) -> Result<Vec<CountRow>, NoMemory>
    ensures ascend { IfOk result (λ made. KeysAscend made.items) }
    ensures counts { IfOk result (λ made. (v : Value) → weight v made.items ≡ weight v rows.items) }
    ensures keys { (kind : Kind) → AreKeys kind rows.items → IfOk result (λ made. AreKeys kind made.items) }
{
    rows.sort_by(|one, other| compared(&one.key, &other.key))?;
    let mut made = Vec::new(alloc);
    'rows: for row in rows {
        add(&mut made, row.key, row.count)?;
    }
    Ok(made)
}

/// Rows that stand by ascending key, in the order that is asked for.
pub(crate) fn ordered(
    mut rows: Vec<CountRow>,
    by_key: bool,
    descending: bool,
) -> Result<Vec<CountRow>, NoMemory>
    ensures order { IfOk result (λ ordered. ordered.items ≡ rows_ordered by_key descending rows.items) }
    ensures keys { (kind : Kind) → AreKeys kind rows.items → IfOk result (λ ordered. AreKeys kind ordered.items) }
{
    if by_key {
        if descending {
            turn(&mut rows);
        }
        return Ok(rows);
    }
    if descending {
        most_first(&mut rows)?;
        return Ok(rows);
    }
    fewest_first(&mut rows)?;
    Ok(rows)
}

/// Turns rows round.
fn turn(rows: &mut Vec<CountRow>)
    ensures order { rows.new.items ≡ reverse rows.old.items }
    ensures keys { (kind : Kind) → AreKeys kind rows.old.items → AreKeys kind rows.new.items }
{
    rows.reverse();
}

/// Puts those with the greatest counts first; of equal counts each stays where it stood.
fn most_first(rows: &mut Vec<CountRow>) -> Result<(), NoMemory>
    ensures order { OnOk result (rows.new.items ≡ in_order (row_first true) rows.old.items) }
    ensures keys { (kind : Kind) → AreKeys kind rows.old.items → OnOk result (AreKeys kind rows.new.items) }
{
    rows_stand_in_order::<CountRow>();
    rows.sort_by(|one, other| other.count.cmp(&one.count))?;
    Ok(())
}

/// Puts those with the least counts first; of equal counts each stays where it stood.
fn fewest_first(rows: &mut Vec<CountRow>) -> Result<(), NoMemory>
    ensures order { OnOk result (rows.new.items ≡ in_order (row_first false) rows.old.items) }
    ensures keys { (kind : Kind) → AreKeys kind rows.old.items → OnOk result (AreKeys kind rows.new.items) }
{
    rows_stand_in_order::<CountRow>();
    rows.sort_by(|one, other| one.count.cmp(&other.count))?;
    Ok(())
}

/// The sum of the counts of rows.
pub(crate) fn sum_of_counts(rows: &[CountRow]) -> Result<u64, NoMemory>
    ensures { IfOk result (λ count. count ≡ sum_by count_in rows.now) }
{
    let mut count: u64 = 0;
    'rows: for row in rows {
        let Some(more) = count.checked_add(row.count) else {
            return Err(NoMemory);
        };
        count = more;
    }
    Ok(count)
}
