//! What the values of a field come to over all objects.

ghost use Rattle.std.specs.Prelude.{◌≡◌, ◌<◌, ◌+◌, ◌^◌, ◌++◌, ℕ, ℤ, pos, List, [], ◌∷◌, true, false, if◌then◌else◌, map, length, slice_get, slice_index, slice_index_or, sum_by, IfNone, IfOk, IfSome, OnOk, Some, None};
ghost use Rattle.std.specs.List.{All, flat_map};
ghost use Rattle.std.specs.List.Sorted.{IsStrictlyIncreasing};
ghost use Rattle.std.specs.Int.{saturate_signed, w64};
ghost use Rattle.doc_values.specs.Values.{documents, values_of};
ghost use Rattle.query_eval.specs.Found.{AreLong};
ghost use Rattle.segment.specs.Flat.{flat_of};
ghost use Rattle.segment_parts.specs.Text.{marked_places};
ghost use Rattle.bucket_aggs.specs.Columns.{joined};
ghost use Rattle.bucket_aggs.specs.Counts.{flats_of_view};
ghost use Rattle.bucket_aggs.specs.Sums.{HasRoom, IsAdded, IsAnew, IsKept, IsSummary, IsWrapped, above, anew, below, first_of, keywords_in, no_numbers, numbers_in, values_in};
ghost use Rattle.bucket_aggs.specs.declared.metrics.Running.{Running};

use crate::NoMemory;
use crate::columns::{has_many, is_in, is_text, single_rows};
use crate::sets::Objects;
use block_bits::BitSet;
use doc_values::{Column, ColumnValue, NumberColumn, SingleRows, Values};
use mapping::Kind;
use segment::{Segment, values_are_of_documents};
use segment_view::Entry;
use std::alloc::Global;
use std::marker::Model;

/// How many numbers there are, their sum, the least and the greatest.
#[derive(Clone, Copy)]
pub(crate) struct Summary {
    pub(crate) count: u64,
    pub(crate) total: i128,
    pub(crate) least: Option<i64>,
    pub(crate) greatest: Option<i64>,
}

impl Summary {
    /// The sum, clamped to 64 bits.
    pub(crate) fn sum(&self) -> i64
        ensures { result ≡ saturate_signed w64 self.now.total }
    {
        self.total.clamp(i128::from(i64::MIN), i128::from(i64::MAX)) as i64
    }
}

/// Numbers while they are added: how many, their sum, the least and the greatest. Of no numbers the least is above the greatest.
#[derive(Clone, Copy)]
pub(crate) struct Running {
    count: u64,
    total: i128,
    least: i64,
    greatest: i64,
}

impl Running {
    /// No numbers.
    fn none() -> Running
        ensures { result ≡ no_numbers }
    {
        Running {
            count: 0,
            total: 0,
            least: i64::MAX,
            greatest: i64::MIN,
        }
    }

    /// The same but for the count and the sum, which begin anew.
    fn anew(&self) -> Running
        ensures { result ≡ anew self.now }
    {
        Running {
            count: 0,
            total: 0,
            least: self.least,
            greatest: self.greatest,
        }
    }

    /// With one number more.
    ///
    /// Inlined, as `add_values` is, so that the numbers of a loop stay in registers.
    #[inline(always)]
    fn add(&mut self, number: i64)
        requires { HasRoom 1 self.old }
        ensures added { (start : Running) (zs : List ℤ) → IsAdded start zs self.old → IsAdded start (zs ++ number ∷ []) self.new }
        ensures room { (more : ℕ) → HasRoom (more + 1) self.old → HasRoom more self.new }
    {
        *self = Running {
            count: self.count + 1,
            total: self.total + i128::from(number),
            least: lesser(self.least, number),
            greatest: greater(self.greatest, number),
        };
    }

    /// With those that were added anew. `NoMemory` where the sum has no 128 bits, or the count no 64.
    fn join(&mut self, own: Running) -> Result<(), NoMemory>
        ensures { (zs others : List ℤ) → IsAdded no_numbers zs self.old → IsAdded (anew self.old) others own
            → OnOk result (IsAdded no_numbers (zs ++ others) self.new) }
    {
        let Some(count) = self.count.checked_add(own.count) else {
            return Err(NoMemory);
        };
        let Some(total) = self.total.checked_add(own.total) else {
            return Err(NoMemory);
        };
        *self = Running {
            count,
            total,
            least: own.least,
            greatest: own.greatest,
        };
        Ok(())
    }

    /// Whether a sum that wrapped at 64 bits is exact: so many numbers, none of them further from 0 than the least or the greatest,
    /// have a sum of 64 bits.
    fn is_exact(&self) -> bool
        ensures { result ≡ true → (start : Running) (zs : List ℤ) → IsAnew start → IsWrapped start zs self.now → IsAdded start zs self.now }
    {
        let far = self.least.unsigned_abs().max(self.greatest.unsigned_abs());
        match self.count.checked_mul(far) {
            Some(most) => most <= i64::MAX as u64,
            None => false,
        }
    }

    /// What they come to.
    fn summary(&self) -> Summary
        ensures { (zs : List ℤ) → IsAdded no_numbers zs self.now → IsSummary zs result }
    {
        if is_below(self.greatest, self.least) {
            return Summary {
                count: self.count,
                total: self.total,
                least: None,
                greatest: None,
            };
        }
        Summary {
            count: self.count,
            total: self.total,
            least: Some(self.least),
            greatest: Some(self.greatest),
        }
    }
}

/// Whether a number is less than another.
fn is_below(number: i64, other: i64) -> bool
    ensures { result ≡ below number other }
{
    number < other
}

/// The least so far, with a number more.
fn lesser(least: i64, number: i64) -> i64
    ensures { result ≡ first_of below least number }
{
    if number < least { number } else { least }
}

/// The greatest so far, with a number more.
fn greater(greatest: i64, number: i64) -> i64
    ensures { result ≡ first_of above greatest number }
{
    if greatest < number { number } else { greatest }
}

/// What the numbers of a field come to.
#[derive(Clone, Copy)]
pub(crate) struct FieldSummary {
    field: u32,
    sums: Summary,
}

/// What the numbers of a field come to over all objects. It is kept: a field that is asked for once more costs no walk.
pub(crate) fn summed(
    alloc: Global,
    entries: &[Entry],
    field: u32,
    objects: &Objects<'_>,
    kept: &mut Option<FieldSummary>,
) -> Result<Summary, NoMemory>
    requires long { AreLong entries.now objects.now }
    requires kept { IsKept entries.now objects.now kept.old }
    ensures sums { IfOk result (IsSummary (flat_map (numbers_in field) (flats_of_view entries.now objects.now))) }
    ensures kept { OnOk result (IsKept entries.now objects.now kept.new) }
{
    if let Some(last) = *kept {
        if last.field == field {
            return Ok(last.sums);
        }
    }
    let sums = sum_all(alloc, entries, field, objects)?;
    *kept = Some(FieldSummary { field, sums });
    Ok(sums)
}

/// The same, with nothing kept.
fn sum_all(
    alloc: Global,
    entries: &[Entry],
    field: u32,
    objects: &Objects<'_>,
) -> Result<Summary, NoMemory>
    requires { AreLong entries.now objects.now }
    ensures { IfOk result (IsSummary (flat_map (numbers_in field) (flats_of_view entries.now objects.now))) }
{
    let all = own_numbers(alloc, entries, field, objects)?;
    let mut sums = Running::none();
    'segments: for at in 0..all.len() {
        let own = all[at].added(sums.anew());
        sums.join(own)?;
    }
    Ok(sums.summary())
}

/// The numbers of each segment that has some.
///
/// Where they stand is read of all segments before the first is added: the processor then waits for several of them at once.
fn own_numbers<'a>(
    alloc: Global,
    entries: &'a [Entry],
    field: u32,
    objects: &'a Objects<'_>,
) -> Result<Vec<OwnNumbers<'a>>, NoMemory>
    requires { AreLong entries.now objects.now }
    ensures { IfOk result (λ all. joined all.items ≡ flat_map (numbers_in field) (flats_of_view entries.now objects.now)) }
{
    let mut all = Vec::with_capacity(alloc, entries.len())?;
    'entries: for at in 0..entries.len() {
        if let Some(own) = OwnNumbers::of(entries[at].segment(), field, objects.set(at)) {
            all.push(own)?;
        }
    }
    Ok(all)
}

/// The numbers that the documents of a set have in a segment's column of a field.
///
/// The rows are there if each has one value and many of them are of documents of the set.
#[derive(Drop)]
struct OwnNumbers<'a> {
    set: &'a BitSet,
    column: NumberColumn<'a>,
    rows: Option<SingleRows<'a, i64>>,
}

impl<'a> Model for OwnNumbers<'a> {
    ghost use Rattle.std.specs.Prelude.{ℤ, List, IfSome};
    ghost use Rattle.std.specs.Coded.{coded_list, coded_ℤ};
    ghost use Rattle.bucket_aggs.specs.Columns.{AreOwnRows, numbers_at};

    ghost Value = { List ℤ };

    ghost coded = { coded_list coded_ℤ };

    ghost view = { λ it. numbers_at it.column it.set.now };

    ghost invariant = { λ it. IfSome it.rows (AreOwnRows it.column it.set.now) };
}

impl<'a> OwnNumbers<'a> {
    /// Those of a segment; None where it has no column of the field.
    fn of(segment: &'a Segment, field: u32, set: &'a BitSet) -> Option<OwnNumbers<'a>>
        requires { length set.now ≡ segment.now.documents }
        ensures some { IfSome result (λ own. own ≡ flat_map (numbers_in field) (map (flat_of segment.now) (marked_places 0 set.now))) }
        ensures none { IfNone result (flat_map (numbers_in field) (map (flat_of segment.now) (marked_places 0 set.now)) ≡ []) }
    {
        values_are_of_documents(segment);
        let _agree = segment.docs();
        let Some(column) = segment.numbers(field) else {
            return None;
        };
        let rows = if has_many(set, &column) {
            single_rows(&column)
        } else {
            None
        };
        Some(OwnNumbers { set, column, rows })
    }

    /// With these numbers; nothing has been added yet.
    fn added(&self, start: Running) -> Running
        requires { IsAnew start }
        ensures { IsAdded start self.now result }
    {
        match &self.rows {
            Some(rows) => with_single_rows(self.set, rows, start),
            None => with_column(self.set, &self.column, start),
        }
    }
}

/// With the numbers that the documents of a set have in a column; nothing has been added yet.
///
/// Where the set has many documents of the column its rows are walked over, else each document's row is looked for near the one before.
fn with_column(set: &BitSet, column: &NumberColumn, start: Running) -> Running
    requires { IsAnew start }
    ensures { IsAdded start (flat_map (λ doc. values_of doc column.now) (marked_places 0 set.now)) result }
{
    if has_many(set, column) {
        with_rows(set, column, start)
    } else {
        with_documents(set, column, start)
    }
}

/// The same over rows of one value each.
fn with_single_rows(set: &BitSet, rows: &SingleRows<i64>, start: Running) -> Running
    requires anew { IsAnew start }
    requires ascending { IsStrictlyIncreasing (documents rows.now) }
    requires within { All (λ doc. doc < length set.now) (documents rows.now) }
    ensures { IsAdded start (flat_map (λ doc. values_of doc rows.now) (marked_places 0 set.now)) result }
{
    let sums = with_wrapped_sum(set, rows, start);
    if sums.is_exact() {
        return sums;
    }
    with_long_sum(set, rows, start)
}

/// The same, but that the sum wraps at 64 bits.
///
/// What is not in the set is counted: a row that is in it then costs a few instructions less. It is a function of its own in the
/// program too, so that its numbers stay in registers, and a row that is not in the set goes its own way, so that those that are go
/// round in one short loop. Which of the two ways the compiler makes that of goes by the order of the variables: with `others` second it
/// is this one.
#[inline(never)]
fn with_wrapped_sum(set: &BitSet, rows: &SingleRows<i64>, start: Running) -> Running
    requires anew { IsAnew start }
    requires ascending { IsStrictlyIncreasing (documents rows.now) }
    requires within { All (λ doc. doc < length set.now) (documents rows.now) }
    ensures { IsWrapped start (flat_map (λ doc. values_of doc rows.now) (marked_places 0 set.now)) result }
{
    let mut total: i64 = 0;
    let mut others: u32 = 0;
    let mut least = start.least;
    let mut greatest = start.greatest;
    'rows: for at in 0..rows.len() {
        let own = rows.row(at);
        if !set.has(own.0) {
            others += 1;
            continue 'rows;
        }
        total = total.wrapping_add(own.1);
        least = lesser(least, own.1);
        greatest = greater(greatest, own.1);
    }
    Running {
        count: u64::from(rows.len() - others),
        total: i128::from(total),
        least,
        greatest,
    }
}

/// The same, with a sum of 128 bits.
fn with_long_sum(set: &BitSet, rows: &SingleRows<i64>, start: Running) -> Running
    requires anew { IsAnew start }
    requires ascending { IsStrictlyIncreasing (documents rows.now) }
    requires within { All (λ doc. doc < length set.now) (documents rows.now) }
    ensures { IsAdded start (flat_map (λ doc. values_of doc rows.now) (marked_places 0 set.now)) result }
{
    let mut sums = start;
    'rows: for at in 0..rows.len() {
        let own = rows.row(at);
        if set.has(own.0) {
            sums.add(own.1);
        }
    }
    sums
}

/// The same, row by row.
fn with_rows(set: &BitSet, column: &NumberColumn, start: Running) -> Running
    requires { IsAnew start }
    ensures { IsAdded start (flat_map (λ doc. values_of doc column.now) (marked_places 0 set.now)) result }
{
    let mut sums = start;
    'rows: for row in 0..column.rows() {
        if is_in(set, column.doc(row)) {
            add_values(column.row_values(row), &mut sums);
        }
    }
    sums
}

/// The same, document by document.
fn with_documents(set: &BitSet, column: &NumberColumn, start: Running) -> Running
    requires { IsAnew start }
    ensures { IsAdded start (flat_map (λ doc. values_of doc column.now) (marked_places 0 set.now)) result }
{
    let _len = set.len();
    let mut sums = start;
    let mut walk = set.walk();
    let mut near = 0;
    'documents: while let Some(doc) = walk.next() {
        let values = column.values_near(doc, &mut near);
        add_values(values, &mut sums);
    }
    sums
}

/// Adds the numbers of a document, fewer than 2^32.
///
/// Most documents have one value alone: it is looked at by itself.
#[inline(always)]
fn add_values(values: Values<i64>, sums: &mut Running)
    requires { HasRoom (2 ^ 32) sums.old }
    ensures added { (start : Running) (zs : List ℤ) → IsAdded start zs sums.old → IsAdded start (zs ++ values.entry) sums.new }
    ensures room { (more : ℕ) → HasRoom (more + 2 ^ 32) sums.old → HasRoom more sums.new }
{
    if values.len() == 1 {
        sums.add(values.value(0));
        return;
    }
    add_each(values, sums);
}

/// The same, value by value.
fn add_each(values: Values<i64>, sums: &mut Running)
    requires { HasRoom (2 ^ 32) sums.old }
    ensures added { (start : Running) (zs : List ℤ) → IsAdded start zs sums.old → IsAdded start (zs ++ values.entry) sums.new }
    ensures room { (more : ℕ) → HasRoom (more + 2 ^ 32) sums.old → HasRoom more sums.new }
{
    let _few = values.len();
    let mut values = values;
    'values: while let Some(number) = values.next() {
        sums.add(number);
    }
}

/// How many values of a field of this kind all objects show, repeats included. Numbers are counted while they are added.
pub(crate) fn value_count(
    alloc: Global,
    entries: &[Entry],
    kind: Kind,
    field: u32,
    objects: &Objects<'_>,
    kept: &mut Option<FieldSummary>,
) -> Result<u64, NoMemory>
    requires long { AreLong entries.now objects.now }
    requires kept { IsKept entries.now objects.now kept.old }
    ensures count { IfOk result (λ count. count ≡ sum_by (values_in kind field) (flats_of_view entries.now objects.now)) }
    ensures kept { OnOk result (IsKept entries.now objects.now kept.new) }
{
    if is_text(kind) {
        return Ok(keyword_count(entries, field, objects)?);
    }
    let sums = summed(alloc, entries, field, objects, kept)?;
    Ok(sums.count)
}

/// How many keywords of a field all objects have.
fn keyword_count(entries: &[Entry], field: u32, objects: &Objects<'_>) -> Result<u64, NoMemory>
    requires { AreLong entries.now objects.now }
    ensures { IfOk result (λ count. count ≡ sum_by (keywords_in field) (flats_of_view entries.now objects.now)) }
{
    let mut count: u64 = 0;
    'entries: for at in 0..entries.len() {
        let own = own_count(entries[at].segment(), field, objects.set(at))?;
        let Some(more) = count.checked_add(own) else {
            return Err(NoMemory);
        };
        count = more;
    }
    Ok(count)
}

/// Those of the documents of a set.
fn own_count(segment: &Segment, field: u32, set: &BitSet) -> Result<u64, NoMemory>
    requires { length set.now ≡ segment.now.documents }
    ensures { IfOk result (λ count. count ≡ sum_by (keywords_in field) (map (flat_of segment.now) (marked_places 0 set.now))) }
{
    values_are_of_documents(segment);
    let _agree = segment.docs();
    match segment.ordinals(field) {
        Some(column) => Ok(column_count(set, &column)?),
        None => Ok(0),
    }
}

/// How many values the documents of a set have in a column, each of whose documents has a place in the set.
///
/// Where the set has many documents of the column its rows are walked over, else each document's row is looked for near the one before.
fn column_count<T: ColumnValue>(set: &BitSet, column: &Column<T>) -> Result<u64, NoMemory>
    requires { All (λ doc. doc < length set.now) (documents column.now) }
    ensures { IfOk result (λ count. count ≡ sum_by (λ doc. length (values_of doc column.now)) (marked_places 0 set.now)) }
{
    if !has_many(set, column) {
        return documents_count(set, column);
    }
    match single_rows(column) {
        Some(rows) => Ok(single_rows_count(set, &rows)),
        None => rows_count(set, column),
    }
}

/// The same over rows of one value each: how many have a document of the set.
fn single_rows_count<T: ColumnValue>(set: &BitSet, rows: &SingleRows<T>) -> u64
    requires ascending { IsStrictlyIncreasing (documents rows.now) }
    requires within { All (λ doc. doc < length set.now) (documents rows.now) }
    ensures { result ≡ sum_by (λ doc. length (values_of doc rows.now)) (marked_places 0 set.now) }
{
    let mut count: u64 = 0;
    'rows: for at in 0..rows.len() {
        if set.has(rows.row(at).0) {
            count += 1;
        }
    }
    count
}

/// The same, row by row.
fn rows_count<T: ColumnValue>(set: &BitSet, column: &Column<T>) -> Result<u64, NoMemory>
    ensures { IfOk result (λ count. count ≡ sum_by (λ doc. length (values_of doc column.now)) (marked_places 0 set.now)) }
{
    let mut count: u64 = 0;
    'rows: for row in 0..column.rows() {
        let Some(more) = count.checked_add(u64::from(row_count(set, column, row))) else {
            return Err(NoMemory);
        };
        count = more;
    }
    Ok(count)
}

/// How many values a row has, if its document is in a set.
fn row_count<T: ColumnValue>(set: &BitSet, column: &Column<T>, row: u32) -> u32
    requires { row < length column.now }
    ensures { (values : List T) → slice_get column.now row ≡ Some (slice_index (documents column.now) row, values) → result ≡ (if slice_index_or set.now (slice_index (documents column.now) row) false then length values else 0) }
{
    if is_in(set, column.doc(row)) {
        column.row_values(row).len()
    } else {
        0
    }
}

/// The same, document by document.
fn documents_count<T: ColumnValue>(set: &BitSet, column: &Column<T>) -> Result<u64, NoMemory>
    ensures { IfOk result (λ count. count ≡ sum_by (λ doc. length (values_of doc column.now)) (marked_places 0 set.now)) }
{
    let mut count: u64 = 0;
    let mut walk = set.walk();
    let mut near = 0;
    'documents: while let Some(doc) = walk.next() {
        let values = column.values_near(doc, &mut near);
        let Some(more) = count.checked_add(u64::from(values.len())) else {
            return Err(NoMemory);
        };
        count = more;
    }
    Ok(count)
}
