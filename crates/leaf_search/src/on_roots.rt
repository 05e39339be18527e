//! Leaves on whole objects: all of them, none, and roots by their ids and their parents.

ghost use Rattle.std.specs.Prelude.{◌≡◌, ◌<◌, ℕ, length, IfOk};
ghost use Rattle.mapping.specs.Mapping.{Mapping as Meaning};
ghost use Rattle.query_ast.specs.Clause.{match_all, match_none, ids, parent_id};
ghost use Rattle.segment.specs.Live.{IsLiveOver};
ghost use Rattle.leaf_search.specs.Found.{Counts, Finds};
ghost use Rattle.leaf_search.specs.Lent.{set_of};

use crate::NoMemory;
use crate::document_set::DocumentSet;
use crate::roots::RootTest;
use crate::scoped::{lent_set, live_count, live_set};
use crate::sets::{id_set, root_set};
use block_bits::BitSet;
use mapping::Bytes;
use segment::{LiveBits, Segment, values_are_of_documents};
use std::alloc::Global;
use tree_objects::objects_nest;

/// `match_all`: each object.
pub(crate) fn all(
    alloc: Global,
    segment: &Segment,
    live: &LiveBits,
    scope: u32,
) -> Result<BitSet, NoMemory>
    requires { IsLiveOver segment.now live.now }
    ensures { (m : Meaning) → IfOk result (Finds m segment.now live.now scope match_all) }
{
    values_are_of_documents(segment);
    Ok(live_set(alloc, segment, live, scope)?)
}

/// The live documents of a scope, as `leaf` finds them by `match_all`. Where all documents of the scope are live the segment
/// lends its own set of them, and no memory is taken. `live` is of the segment.
pub fn all_documents<'a>(
    alloc: Global,
    segment: &'a Segment,
    live: &LiveBits,
    scope: u32,
) -> Result<DocumentSet<'a>, NoMemory>
    requires { IsLiveOver segment.now live.now }
    ensures { (m : Meaning) → IfOk result (λ set. Finds m segment.now live.now scope match_all (set_of set)) }
{
    values_are_of_documents(segment);
    match lent_set(segment, live, scope) {
        Some(set) => Ok(DocumentSet::Lent(set)),
        None => Ok(DocumentSet::Made(live_set(alloc, segment, live, scope)?)),
    }
}

/// How many live documents of a scope there are: as many as `leaf` finds by `match_all`.
///
/// It takes no memory and costs one pass over the documents' bits, 64 at a time. `live` is of the segment.
pub fn live_documents(segment: &Segment, live: &LiveBits, scope: u32) -> u32
    requires { IsLiveOver segment.now live.now }
    ensures { (m : Meaning) → Counts m segment.now live.now scope match_all result }
{
    values_are_of_documents(segment);
    live_count(segment, live, scope)
}

/// `match_none`: no object.
pub(crate) fn none(
    alloc: Global,
    segment: &Segment,
    live: &LiveBits,
    scope: u32,
) -> Result<BitSet, NoMemory>
    requires { IsLiveOver segment.now live.now }
    ensures { (m : Meaning) → IfOk result (Finds m segment.now live.now scope match_none) }
{
    values_are_of_documents(segment);
    Ok(BitSet::empty(alloc, segment.docs())?)
}

/// `ids`: the roots whose id is listed.
pub(crate) fn with_ids(
    alloc: Global,
    segment: &Segment,
    live: &LiveBits,
    scope: u32,
    listed: &[Bytes],
) -> Result<BitSet, NoMemory>
    requires { IsLiveOver segment.now live.now }
    ensures { (m : Meaning) → IfOk result (Finds m segment.now live.now scope (ids listed.now)) }
{
    objects_nest();
    values_are_of_documents(segment);
    Ok(id_set(alloc, segment, live, scope, listed)?)
}

/// `parent_id`: the roots of a child relation whose parent has this id.
pub(crate) fn children(
    alloc: Global,
    segment: &Segment,
    live: &LiveBits,
    scope: u32,
    child: Option<u32>,
    id: &[u8],
) -> Result<BitSet, NoMemory>
    requires { IsLiveOver segment.now live.now }
    ensures { (m : Meaning) → IfOk result (Finds m segment.now live.now scope (parent_id child id.now)) }
{
    objects_nest();
    values_are_of_documents(segment);
    match child {
        Some(relation) => Ok(root_set(
            alloc,
            segment,
            live,
            scope,
            &RootTest::IsChild(relation, id),
        )?),
        None => Ok(BitSet::empty(alloc, segment.docs())?),
    }
}
