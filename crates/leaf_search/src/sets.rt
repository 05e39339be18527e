//! The live documents of a scope by what a segment shows.

ghost use Rattle.std.specs.Prelude.{◌≡◌, ◌<◌, length, IfOk};
ghost use Rattle.std.specs.List.{All, list_any};
ghost use Rattle.std.specs.Str.{bytes_eq};
ghost use Rattle.mapping.specs.Mapping.{kind_at};
ghost use Rattle.segment.specs.Live.{IsLiveOver};
ghost use Rattle.leaf_search.specs.Keys.{FitsKey, EndFits, key_of, begins, has_one_of, lies_within};
ghost use Rattle.leaf_search.specs.Roots.{root_passes};
ghost use Rattle.leaf_search.specs.Sets.{Made, MadeOfRoots};
ghost use Rattle.segment.specs.Shows.{has_term};
ghost use Rattle.leaf_search.specs.Values.{shows_part, shows_value};
ghost use Rattle.leaf_search.specs.Words.{folded_words, shows_words};

use crate::NoMemory;
use crate::exists::{mark_parts, mark_shown};
use crate::ids::id_marks;
use crate::roots::{RootTest, root_marks};
use crate::scoped::keep_live;
use crate::terms::{mark_between, mark_prefix, mark_value, mark_values};
use crate::words::{all_set, some_marks};
use analysis::Token;
use block_bits::BitSet;
use mapping::{Bytes, Mapping};
use query_ast::RangeEnd;
use segment::{LiveBits, Segment};
use std::alloc::Global;
use tree_objects::FieldValue;

/// Those with the term that a value stands for.
pub(crate) fn value_set(
    alloc: Global,
    segment: &Segment,
    live: &LiveBits,
    scope: u32,
    field: u32,
    value: &FieldValue,
) -> Result<BitSet, NoMemory>
    requires { IsLiveOver segment.now live.now }
    ensures made { IfOk result (Made segment.now live.now scope (has_term field (bytes_eq (key_of value.now)))) }
    ensures fits { IfOk result (λ set. FitsKey value.now) }
{
    let mut set = BitSet::empty(alloc, segment.docs())?;
    mark_value(segment, field, value, &mut set);
    keep_live(&mut set, segment, live, scope);
    Ok(set)
}

/// Those with a term that one of some values stands for.
pub(crate) fn values_set(
    alloc: Global,
    segment: &Segment,
    live: &LiveBits,
    scope: u32,
    field: u32,
    values: &[FieldValue],
) -> Result<BitSet, NoMemory>
    requires { IsLiveOver segment.now live.now }
    ensures made { IfOk result (Made segment.now live.now scope (has_one_of field values.now)) }
    ensures fit { IfOk result (λ set. All FitsKey values.now) }
{
    let mut set = BitSet::empty(alloc, segment.docs())?;
    mark_values(alloc, segment, field, values, &mut set)?;
    keep_live(&mut set, segment, live, scope);
    Ok(set)
}

/// Those with a term between the ends of a range.
pub(crate) fn range_set(
    alloc: Global,
    segment: &Segment,
    live: &LiveBits,
    scope: u32,
    field: u32,
    low: &RangeEnd,
    high: &RangeEnd,
) -> Result<BitSet, NoMemory>
    requires { IsLiveOver segment.now live.now }
    ensures made { IfOk result (Made segment.now live.now scope (has_term field (lies_within low.now high.now))) }
    ensures fit { IfOk result (λ set. EndFits low.now × EndFits high.now) }
{
    let mut set = BitSet::empty(alloc, segment.docs())?;
    mark_between(segment, field, low, high, &mut set);
    keep_live(&mut set, segment, live, scope);
    Ok(set)
}

/// Those with a term that begins with these bytes.
pub(crate) fn prefix_set(
    alloc: Global,
    segment: &Segment,
    live: &LiveBits,
    scope: u32,
    field: u32,
    start: &[u8],
) -> Result<BitSet, NoMemory>
    requires { IsLiveOver segment.now live.now }
    ensures { IfOk result (Made segment.now live.now scope (has_term field (begins start.now))) }
{
    let mut set = BitSet::empty(alloc, segment.docs())?;
    mark_prefix(segment, field, start, &mut set);
    keep_live(&mut set, segment, live, scope);
    Ok(set)
}

/// Those that show a value of a field.
pub(crate) fn shown_set(
    alloc: Global,
    mapping: &Mapping,
    segment: &Segment,
    live: &LiveBits,
    scope: u32,
    field: u32,
) -> Result<BitSet, NoMemory>
    requires field { field < length mapping.now.fields }
    requires live { IsLiveOver segment.now live.now }
    ensures { IfOk result (Made segment.now live.now scope (shows_value field (kind_at mapping.now field))) }
{
    let mut set = BitSet::empty(alloc, segment.docs())?;
    mark_shown(mapping, segment, field, &mut set);
    keep_live(&mut set, segment, live, scope);
    Ok(set)
}

/// Those that show a value of a field inside a plain object.
pub(crate) fn parts_set(
    alloc: Global,
    mapping: &Mapping,
    segment: &Segment,
    live: &LiveBits,
    scope: u32,
    field: u32,
) -> Result<BitSet, NoMemory>
    requires field { field < length mapping.now.fields }
    requires live { IsLiveOver segment.now live.now }
    ensures { IfOk result (Made segment.now live.now scope (shows_part mapping.now field)) }
{
    let mut set = BitSet::empty(alloc, segment.docs())?;
    mark_parts(mapping, segment, field, &mut set);
    keep_live(&mut set, segment, live, scope);
    Ok(set)
}

/// Those that show some of the words, or all of them.
pub(crate) fn word_set(
    alloc: Global,
    segment: &Segment,
    live: &LiveBits,
    scope: u32,
    field: u32,
    words: &[Token],
    all: bool,
) -> Result<BitSet, NoMemory>
    requires { IsLiveOver segment.now live.now }
    ensures { IfOk result (Made segment.now live.now scope (shows_words all field (folded_words words.now))) }
{
    if all {
        return Ok(all_set(alloc, segment, live, scope, field, words)?);
    }
    let mut set = some_marks(alloc, segment, field, words)?;
    keep_live(&mut set, segment, live, scope);
    Ok(set)
}

/// The roots among them that pass a test.
pub(crate) fn root_set(
    alloc: Global,
    segment: &Segment,
    live: &LiveBits,
    scope: u32,
    test: &RootTest,
) -> Result<BitSet, NoMemory>
    requires { IsLiveOver segment.now live.now }
    ensures { IfOk result (MadeOfRoots segment.now live.now scope (root_passes test.now)) }
{
    let mut set = root_marks(alloc, segment, test)?;
    keep_live(&mut set, segment, live, scope);
    Ok(set)
}

/// The roots among them that have one of some ids.
pub(crate) fn id_set(
    alloc: Global,
    segment: &Segment,
    live: &LiveBits,
    scope: u32,
    listed: &[Bytes],
) -> Result<BitSet, NoMemory>
    requires { IsLiveOver segment.now live.now }
    ensures { IfOk result (MadeOfRoots segment.now live.now scope (λ root. list_any (bytes_eq root.id) listed.now)) }
{
    let mut set = id_marks(alloc, segment, listed)?;
    keep_live(&mut set, segment, live, scope);
    Ok(set)
}
