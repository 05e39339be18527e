//! Values of a query as the bytes and the edges by which terms are looked up.

ghost use Rattle.std.specs.Prelude.{◌≡◌, ℕ, List, []};
ghost use Rattle.leaf_search.specs.Keys.{FitsKey, EndFits, key_of, end_key, is_from_end, is_to_end};
ghost use Rattle.leaf_search.specs.Kept.{bytes_of};
ghost use Rattle.term_table.specs.Ranges.{is_from, is_to};

use query_ast::RangeEnd;
use term_table::{Edge, number_key};
use tree_objects::FieldValue;

/// The bytes with which a value stands among the terms: those of a number are made, those of a text lent.
#[derive(Drop)]
pub(crate) enum Key<'a> {
    Number([u8; 8]),
    Written(&'a [u8]),
}

impl<'a> Key<'a> {
    pub(crate) fn of(value: &'a FieldValue) -> Key<'a>
        ensures key { bytes_of result ≡ key_of value.now }
        ensures fits { FitsKey value.now }
    {
        match value {
            FieldValue::Number(number) => Key::Number(number_key(*number)),
            FieldValue::Written(bytes) => Key::Written(bytes.as_slice()),
        }
    }

    /// The key of the value at an end of a range; of a free end it is empty.
    pub(crate) fn of_end(end: &'a RangeEnd) -> Key<'a>
        ensures key { bytes_of result ≡ end_key end.now }
        ensures fits { EndFits end.now }
    {
        match end {
            RangeEnd::Free => Key::Written(b"".as_slice()),
            RangeEnd::Closed(value) => Key::of(value),
            RangeEnd::Past(value) => Key::of(value),
        }
    }

    pub(crate) fn as_slice(&self) -> &[u8]
        ensures { result.now ≡ bytes_of self.now }
    {
        match self {
            Key::Number(key) => key.as_slice(),
            Key::Written(bytes) => bytes,
        }
    }
}

/// The edge of terms at an end of a range, whose key is given.
pub(crate) fn edge<'a>(end: &RangeEnd, key: &'a [u8]) -> Edge<'a>
    requires { key.now ≡ end_key end.now }
    ensures from { (bytes : List ℕ) → is_from result bytes ≡ is_from_end end.now bytes }
    ensures to { (bytes : List ℕ) → is_to result bytes ≡ is_to_end end.now bytes }
{
    match end {
        RangeEnd::Free => Edge::Unbounded,
        RangeEnd::Closed(_) => Edge::Closed(key),
        RangeEnd::Past(_) => Edge::Past(key),
    }
}
