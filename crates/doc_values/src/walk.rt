//! Walkers over a column: each reads one thing from the front of bytes, and gives the bytes behind it.

ghost use Rattle.std.specs.Prelude.{◌≡◌, length, IfSome, IsNone};
ghost use Rattle.part_text.specs.Reading.{Gives, GivesKey};
ghost use Rattle.doc_values.specs.Reading.{value_at, values_at, some_at, document_at, entry_at, HasHead, HasNoHead};

use crate::ColumnValue;
use part_text::u32_at;

/// A value that isn't below the one before it.
#[tactic(auto, unfolding(crate::specs::Reading::value_at))]
fn value_at<T: ColumnValue>(before: Option<T>, bytes: &[u8]) -> Option<(T, &[u8])>
    ensures { Gives (λ x. (x.0, x.1.now)) result (value_at T.cmp T.read before bytes.now) }
{
    let (value, rest) = T::value_at(bytes)?;
    if let Some(last) = before {
        if value.cmp(&last).is_lt() {
            return None;
        }
    }
    Some((value, rest))
}

/// A document behind the one before it.
#[tactic(auto, unfolding(crate::specs::Reading::document_at))]
fn document_at(before: Option<u32>, bytes: &[u8]) -> Option<(u32, &[u8])>
    ensures { Gives (λ x. (x.0, x.1.now)) result (document_at before bytes.now) }
{
    let (doc, rest) = u32_at(bytes)?;
    if let Some(last) = before {
        if doc <= last {
            return None;
        }
    }
    Some((doc, rest))
}

/// Values behind their number, which it gives.
fn values_at<T: ColumnValue>(bytes: &[u8]) -> Option<(u32, &[u8])>
    ensures { GivesKey (λ values. length values) (λ x. x.0) (λ x. x.1.now) result (values_at T.cmp T.read bytes.now) }
{
    let (count, mut rest) = u32_at(bytes)?;
    let mut before: Option<T> = None;
    'values: for _ in 0..count {
        let (value, after) = value_at(before, rest)?;
        before = Some(value);
        rest = after;
    }
    Some((count, rest))
}

/// Values, at least one, behind their number, which it gives.
#[tactic(auto, unfolding(crate::specs::Reading::some_at))]
fn some_at<T: ColumnValue>(bytes: &[u8]) -> Option<(u32, &[u8])>
    ensures { GivesKey (λ values. length values) (λ x. x.0) (λ x. x.1.now) result (some_at (values_at T.cmp T.read) bytes.now) }
{
    let (count, rest) = values_at::<T>(bytes)?;
    if 0 < count { Some((count, rest)) } else { None }
}

/// An entry behind the one before it: it gives the document.
#[tactic(auto, unfolding(crate::specs::Reading::entry_at))]
pub(crate) fn entry_at<T: ColumnValue>(before: Option<u32>, bytes: &[u8]) -> Option<(u32, &[u8])>
    ensures { GivesKey (λ entry. entry.0) (λ x. x.0) (λ x. x.1.now) result (entry_at T.cmp T.read before bytes.now) }
{
    let (doc, rest) = document_at(before, bytes)?;
    let (_, after) = some_at::<T>(rest)?;
    Some((doc, after))
}

/// The number of entries of a column, at least one, and the bytes behind it.
pub(crate) fn head_at(bytes: &[u8]) -> Option<(u32, &[u8])>
    ensures head { IfSome result (λ x. HasHead bytes.now x.0 x.1.now) }
    ensures none { IsNone result → HasNoHead bytes.now }
{
    let (_, rest) = u32_at(bytes)?;
    let (count, entries) = u32_at(rest)?;
    if 0 < count {
        Some((count, entries))
    } else {
        None
    }
}
