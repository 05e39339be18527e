//! Leaves on the values of a field, whatever its kind.

ghost use Rattle.std.specs.Prelude.{◌≡◌, ◌<◌, ℕ, [], ◌∷◌, length, IfOk};
ghost use Rattle.mapping.specs.Mapping.{Mapping as Meaning};
ghost use Rattle.query_ast.specs.Clause.{on_field, is_among, is_between, exists, begins_with};
ghost use Rattle.segment.specs.Live.{IsLiveOver};
ghost use Rattle.leaf_search.specs.Found.{Finds};

use crate::NoMemory;
use crate::sets::{prefix_set, range_set, value_set, values_set};
use block_bits::BitSet;
use query_ast::RangeEnd;
use segment::{LiveBits, Segment, values_are_of_documents};
use std::alloc::Global;
use term_table::keys_are_ordered;
use tree_objects::FieldValue;

/// `term`: a value, or a word of a text, is this one.
pub(crate) fn term(
    alloc: Global,
    segment: &Segment,
    live: &LiveBits,
    scope: u32,
    field: Option<u32>,
    value: &FieldValue,
) -> Result<BitSet, NoMemory>
    requires { IsLiveOver segment.now live.now }
    ensures { (m : Meaning) → IfOk result (Finds m segment.now live.now scope (on_field field (is_among (value.now ∷ [])))) }
{
    keys_are_ordered();
    values_are_of_documents(segment);
    match field {
        Some(field) => Ok(value_set(alloc, segment, live, scope, field, value)?),
        None => Ok(BitSet::empty(alloc, segment.docs())?),
    }
}

/// `terms`: a value, or a word of a text, is one of these.
pub(crate) fn terms(
    alloc: Global,
    segment: &Segment,
    live: &LiveBits,
    scope: u32,
    field: Option<u32>,
    values: &[FieldValue],
) -> Result<BitSet, NoMemory>
    requires { IsLiveOver segment.now live.now }
    ensures { (m : Meaning) → IfOk result (Finds m segment.now live.now scope (on_field field (is_among values.now))) }
{
    keys_are_ordered();
    values_are_of_documents(segment);
    match field {
        Some(field) => Ok(values_set(alloc, segment, live, scope, field, values)?),
        None => Ok(BitSet::empty(alloc, segment.docs())?),
    }
}

/// `range`: a value lies between the two ends.
pub(crate) fn range(
    alloc: Global,
    segment: &Segment,
    live: &LiveBits,
    scope: u32,
    field: Option<u32>,
    low: &RangeEnd,
    high: &RangeEnd,
) -> Result<BitSet, NoMemory>
    requires { IsLiveOver segment.now live.now }
    ensures { (m : Meaning) → IfOk result (Finds m segment.now live.now scope (on_field field (is_between low.now high.now))) }
{
    keys_are_ordered();
    values_are_of_documents(segment);
    match field {
        Some(field) => Ok(range_set(alloc, segment, live, scope, field, low, high)?),
        None => Ok(BitSet::empty(alloc, segment.docs())?),
    }
}

/// `prefix`: a value, or a word of a text, begins with these bytes.
pub(crate) fn prefix(
    alloc: Global,
    segment: &Segment,
    live: &LiveBits,
    scope: u32,
    field: Option<u32>,
    start: &[u8],
) -> Result<BitSet, NoMemory>
    requires { IsLiveOver segment.now live.now }
    ensures { (m : Meaning) → IfOk result (Finds m segment.now live.now scope (on_field field (begins_with start.now))) }
{
    values_are_of_documents(segment);
    match field {
        Some(field) => Ok(prefix_set(alloc, segment, live, scope, field, start)?),
        None => Ok(BitSet::empty(alloc, segment.docs())?),
    }
}
