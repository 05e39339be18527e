//! What a merge makes of a column's values.

ghost use Rattle.std.specs.Prelude.{◌≡◌, ℕ, List, ◌<◌, length, slice_get, Some};
ghost use Rattle.segment_parts.specs.Agree.{AreWithin};
ghost use Rattle.segment_parts.specs.declared.columns.Columns.{Columns};
ghost use Rattle.segment_merge.specs.Pieces.{as_it_is, renewed_ordinal, number_columns, ordinal_columns};

use doc_values::{Column, ColumnValue};
use segment::Segment;

/// A value that a merge writes again: a number as it is, an ordinal as the new one of its term.
pub(crate) trait MergedValue: ColumnValue {
    ghost columns: { Columns → List (ℕ × List (ℕ × List Self)) };

    ghost renewed: { List ℕ → Self → Self };

    /// How many fields of a segment have such values.
    fn column_count(segment: &Segment) -> usize
        ensures { result ≡ length (columns segment.now) };

    /// Of the fields that have such values, by ascending field: the one at this place, and its values.
    fn column_at<'a>(segment: &'a Segment, at: usize) -> (u32, Column<'a, Self>)
        requires { at < length (columns segment.now) }
        ensures column { slice_get (columns segment.now) at ≡ Some result }
        ensures within { AreWithin segment.now.documents result.1 };

    /// The value as it is written again, by the new ordinals of the segment's terms.
    fn again(self, ordinals: &[u64]) -> Self
        ensures { result ≡ renewed ordinals.now self };
}

impl MergedValue for i64 {
    ghost columns = { number_columns };

    ghost renewed = { as_it_is };

    fn column_count(segment: &Segment) -> usize {
        segment.number_columns()
    }

    fn column_at<'a>(segment: &'a Segment, at: usize) -> (u32, Column<'a, i64>) {
        let _documents = segment.docs();
        segment.number_column(at)
    }

    fn again(self, _ordinals: &[u64]) -> i64 {
        self
    }
}

impl MergedValue for u64 {
    ghost columns = { ordinal_columns };

    ghost renewed = { renewed_ordinal };

    fn column_count(segment: &Segment) -> usize {
        segment.ordinal_columns()
    }

    fn column_at<'a>(segment: &'a Segment, at: usize) -> (u32, Column<'a, u64>) {
        let _documents = segment.docs();
        segment.ordinal_column(at)
    }

    fn again(self, ordinals: &[u64]) -> u64 {
        match ordinals.get(self as usize) {
            Some(ordinal) => *ordinal,
            None => 0,
        }
    }
}
