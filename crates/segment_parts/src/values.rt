//! The columns of values in the bytes of a segment: where each stands.

ghost use Rattle.std.specs.Prelude.{◌≡◌, ◌≤◌, ◌++◌, length, drop, IfOk, IfSome, IsNone};
ghost use Rattle.part_text.specs.Text.{u32_text, counted_text};
ghost use Rattle.doc_values.specs.Text.{column_text};
ghost use Rattle.doc_values.specs.Stands.{IsColumn};
ghost use Rattle.segment_parts.specs.Fields.{AreByField};
ghost use Rattle.segment_parts.specs.Once.{IsNowhere};
ghost use Rattle.segment_parts.specs.Kept.{IsColumnAt, AreColumnsAt};

use crate::taken::number_at;
use crate::{ByField, NoMemory};
use doc_values::{Column, ColumnValue};
use part_text::{PlaceList, first_u32};
use std::alloc::Global;

/// The fields that have a column in the list that stands from a place of bytes on, each with the places of its entries, and
/// the place behind the list; None exactly where no list of columns stands there.
pub(crate) fn columns_at<T: ColumnValue>(
    alloc: Global,
    bytes: &[u8],
    at: usize,
) -> Result<Option<(ByField<PlaceList>, usize)>, NoMemory>
    requires { at ≤ length bytes.now }
    ensures taken { IfOk result (λ found. IfSome found (λ it. AreColumnsAt T.cmp T.Fits T.text T.read bytes.now at it.0 it.1)) }
    ensures nowhere { IfOk result (λ found. IsNone found → IsNowhere (counted_text u32_text (column_text T.text)) (AreByField (IsColumn T.cmp T.Fits)) (drop at bytes.now)) }
{
    let Some((count, first)) = number_at(bytes.split_at(at).1) else {
        return Ok(None);
    };
    let mut columns = Vec::new(alloc);
    let mut place = bytes.len() - first.len();
    'columns: for _ in 0..count {
        let Some((field, places, end)) = column_at::<T>(alloc, bytes, place)? else {
            return Ok(None);
        };
        columns.push((field, places))?;
        place = end;
    }
    if !ByField::are_ascending(columns.as_slice()) {
        return Ok(None);
    }
    Ok(Some((ByField::of(columns), place)))
}

/// The field of the column that stands from a place of bytes on, the places of its entries, and the place behind it.
fn column_at<T: ColumnValue>(
    alloc: Global,
    bytes: &[u8],
    at: usize,
) -> Result<Option<(u32, PlaceList, usize)>, NoMemory>
    requires { at ≤ length bytes.now }
    ensures taken { IfOk result (λ found. IfSome found (λ it. IsColumnAt T.cmp T.Fits T.text T.read bytes.now at (it.0, it.1) it.2)) }
    ensures nowhere { IfOk result (λ found. IsNone found → IsNowhere (column_text T.text) (IsColumn T.cmp T.Fits) (drop at bytes.now)) }
{
    match Column::<T>::places(alloc, bytes, at as u64)? {
        Some((places, end)) => {
            let field = first_u32(bytes.split_at(at).1);
            Ok(Some((field, places, end as usize)))
        }
        None => Ok(None),
    }
}
