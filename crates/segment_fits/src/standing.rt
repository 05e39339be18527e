//! Where the documents of a segment stand: the scope of each, and the mapping generation of its root.
ghost use Rattle.std.specs.Prelude.{◌≡◌, ℕ, ◌<◌, ◌≤◌, length, map, IfOk, IfSome, IsNone};
ghost use Rattle.std.specs.List.{range_with_len};
ghost use Rattle.block_bits.specs.Seen.{scopes_seen};
ghost use Rattle.segment_fits.specs.Tested.{first_parents, standings_of, AreNested};

use crate::NoMemory;
use block_bits::{ScopeBits, ScopeList};
use mapping::Mapping;
use segment::{Segment, scopes_are_of_documents};
use std::alloc::Global;

/// The scope of a document, and the mapping generation that its tree was indexed under.
#[derive(Clone, Copy, Debug, PartialEq, Eq)]
pub(crate) struct Standing {
    pub(crate) scope: u32,
    pub(crate) generation: u32,
}

/// Where each document stands; None exactly where the segment has more scopes than the mapping, or its documents are no
/// blocks by the mapping's scopes.
pub(crate) fn standings(
    alloc: Global,
    mapping: &Mapping,
    segment: &Segment,
) -> Result<Option<Vec<Standing>>, NoMemory>
    ensures nested { IfOk result (λ found. IfSome found (λ list. AreNested mapping.now segment.now)) }
    ensures standings { IfOk result (λ found. IfSome found (λ list. list.items ≡ standings_of segment.now)) }
    ensures none { IfOk result (λ found. IsNone found → ¬ AreNested mapping.now segment.now) }
{
    let _documents = segment.docs();
    let sets = segment.scopes();
    let count = sets.as_slice().len();
    if count > mapping.scope_count() as usize {
        return Ok(None);
    }
    let parents = parents_among(alloc, mapping, count as u32)?;
    match ScopeBits::over(&parents, sets) {
        Ok(bits) => Ok(Some(standings_among(alloc, &bits, segment)?)),
        Err(_) => Ok(None),
    }
}

/// The scope around each of the first scopes of a mapping.
fn parents_among(alloc: Global, mapping: &Mapping, count: u32) -> Result<ScopeList, NoMemory>
    requires { count ≤ length mapping.now.scopes }
    ensures { IfOk result (λ list. list ≡ first_parents mapping.now count) }
{
    let mut parents = Vec::with_capacity(alloc, count as usize)?;
    'scopes: for scope in 0..count {
        parents.push(mapping.around(scope))?;
    }
    Ok(ScopeList::of(parents))
}

/// Where each document stands, by the bits of its segment's scopes.
fn standings_among(
    alloc: Global,
    bits: &ScopeBits,
    segment: &Segment,
) -> Result<Vec<Standing>, NoMemory>
    requires { bits.now.scopes ≡ scopes_seen segment.now.scopes }
    ensures { IfOk result (λ list. list.items ≡ standings_of segment.now) }
{
    scopes_are_of_documents(segment);
    let count = segment.docs();
    let mut standings = Vec::with_capacity(alloc, count as usize)?;
    let mut root = 0;
    'documents: for doc in 0..count {
        let scope = bits.scope_of(doc) as u32;
        standings.push(Standing {
            scope,
            generation: segment.root_generation(root),
        })?;
        if scope == 0 {
            root += 1;
        }
    }
    Ok(standings)
}
