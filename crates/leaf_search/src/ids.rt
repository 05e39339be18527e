//! The documents of the roots that have one of some ids. Each id costs one search among the roots in the order of their ids.

ghost use Rattle.std.specs.Prelude.{◌≡◌, ◌<◌, length, IfOk};
ghost use Rattle.std.specs.List.{All, list_any};
ghost use Rattle.std.specs.Str.{bytes_eq};
ghost use Rattle.segment.specs.Flat.{flats_of, roots_of};
ghost use Rattle.leaf_search.specs.Ids.{GainsDocuments};
ghost use Rattle.leaf_search.specs.Sets.{root_marks};

use crate::NoMemory;
use block_bits::BitSet;
use mapping::Bytes;
use segment::{Segment, scopes_are_of_documents};
use std::alloc::Global;

/// The documents of the roots whose id is listed.
pub(crate) fn id_marks(
    alloc: Global,
    segment: &Segment,
    listed: &[Bytes],
) -> Result<BitSet, NoMemory>
    ensures { IfOk result (λ set. set ≡ root_marks (λ root. list_any (bytes_eq root.id) listed.now) (roots_of segment.now) (flats_of segment.now)) }
{
    scopes_are_of_documents(segment);
    let mut set = BitSet::empty(alloc, segment.docs())?;
    'listed: for id in listed {
        mark_roots(segment, segment.roots_of_id(id.as_slice()), &mut set);
    }
    Ok(set)
}

/// Puts the documents of roots into a set.
fn mark_roots(segment: &Segment, roots: &[u32], set: &mut BitSet)
    requires roots { All (λ root. root < length segment.now.roots) roots.now }
    requires long { length set.old ≡ segment.now.documents }
    ensures { GainsDocuments segment.now.scopes roots.now set.old set.new }
{
    'roots: for root in roots {
        set.set(segment.root_doc(*root));
    }
}
