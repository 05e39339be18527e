//! Sets cut to the live documents of a scope.

ghost use Rattle.std.specs.Prelude.{◌≡◌, length, replicate, count_by, true, IfOk, IfSome};
ghost use Rattle.block_bits.specs.Flags.{is_marked};
ghost use Rattle.segment.specs.Flat.{flats_of};
ghost use Rattle.segment.specs.Live.{IsLiveOver};
ghost use Rattle.leaf_search.specs.Sets.{cut};

use crate::NoMemory;
use block_bits::BitSet;
use segment::{LiveBits, Segment, scopes_are_of_documents};
use std::alloc::Global;

/// Keeps the live documents of a scope: word by word, one pass over the set.
pub(crate) fn keep_live(set: &mut BitSet, segment: &Segment, live: &LiveBits, scope: u32)
    requires long { length set.old ≡ segment.now.documents }
    requires live { IsLiveOver segment.now live.now }
    ensures { set.new ≡ cut scope set.old live.now.docs (flats_of segment.now) }
{
    scopes_are_of_documents(segment);
    let _documents = segment.docs();
    let scopes = segment.scopes().as_slice();
    if (scope as usize) < scopes.len() {
        set.and_both(live.documents(), &scopes[scope as usize]);
    } else {
        let len = set.len();
        set.clear_range(0, len);
    }
}

/// The live documents of a scope, in one pass over their bits. None where the segment has no such scope.
pub(crate) fn live_set(
    alloc: Global,
    segment: &Segment,
    live: &LiveBits,
    scope: u32,
) -> Result<BitSet, NoMemory>
    requires { IsLiveOver segment.now live.now }
    ensures { IfOk result (λ set. set ≡ cut scope (replicate segment.now.documents true) live.now.docs (flats_of segment.now)) }
{
    scopes_are_of_documents(segment);
    let documents = segment.docs();
    let scopes = segment.scopes().as_slice();
    if (scope as usize) < scopes.len() {
        Ok(BitSet::both(alloc, live.documents(), &scopes[scope as usize])?)
    } else {
        Ok(BitSet::empty(alloc, documents)?)
    }
}

/// The live documents of a scope, lent by the segment, where all documents of the scope are live. None where one is dead, or
/// where the segment has no such scope.
pub(crate) fn lent_set<'a>(segment: &'a Segment, live: &LiveBits, scope: u32) -> Option<&'a BitSet>
    requires { IsLiveOver segment.now live.now }
    ensures { IfSome result (λ set. set.now ≡ cut scope (replicate segment.now.documents true) live.now.docs (flats_of segment.now)) }
{
    scopes_are_of_documents(segment);
    let _documents = segment.docs();
    let scopes = segment.scopes().as_slice();
    if scope as usize >= scopes.len() {
        return None;
    }
    let own = &scopes[scope as usize];
    if live.documents().count_both(own) < own.count() {
        return None;
    }
    Some(own)
}

/// How many live documents of a scope there are, without a set of them.
pub(crate) fn live_count(segment: &Segment, live: &LiveBits, scope: u32) -> u32
    requires { IsLiveOver segment.now live.now }
    ensures { result ≡ count_by is_marked (cut scope (replicate segment.now.documents true) live.now.docs (flats_of segment.now)) }
{
    scopes_are_of_documents(segment);
    let _documents = segment.docs();
    let scopes = segment.scopes().as_slice();
    if (scope as usize) < scopes.len() {
        live.documents().count_both(&scopes[scope as usize])
    } else {
        0
    }
}
