//! The values of fields.
use mapping::Bytes;

/// A value that a field shows: a number of a `Long`, a `Boolean` (1 or 0) or a `Date` (milliseconds), or the
/// text of a `Text` or a `Keyword`.
#[derive(Debug, Drop)]
pub enum FieldValue {
    Number(i64),
    Written(Bytes),
}
