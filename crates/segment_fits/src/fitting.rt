//! Whether a mapping can have made a segment.
ghost use Rattle.std.specs.Prelude.{◌≡◌, ◌≤◌, ◌↔◌, length, IfOk, IsTrue};
ghost use Rattle.flattener.specs.Fits.{SegmentFits};
ghost use Rattle.segment_fits.specs.Sources.{AreReadBack};
ghost use Rattle.segment_fits.specs.Tested.{standings_of, AreColumnsShown, AreScopesKnown, IsTested};

use crate::NoMemory;
use crate::columns::{Ground, are_columns_shown};
use crate::known::{are_roots_known, are_scopes_known};
use crate::source::are_read_back;
use crate::standing::{Standing, standings};
use mapping::Mapping;
use segment::{Segment, scopes_are_of_documents};
use std::alloc::Global;

/// Whether a mapping can have made a segment, and each source of it, of dead roots too, is read back as it was written: the
/// documents are blocks, each at a scope of the generation of its root, with values of fields that are shown there, and each
/// root has a number, a generation and a relation that the mapping gives. The bytes are read once, and the time is linear in
/// them.
pub fn fits(alloc: Global, mapping: &Mapping, segment: &Segment) -> Result<bool, NoMemory>
    ensures { IfOk result (λ fits. IsTrue fits ↔ SegmentFits mapping.now segment.now × AreReadBack segment.now) }
{
    let _scopes = mapping.scope_count();
    let _documents = segment.docs();
    scopes_are_of_documents(segment);
    if !is_tested(alloc, mapping, segment)? {
        return Ok(false);
    }
    let read = are_read_back(alloc, &segment.sources())?;
    Ok(read)
}

/// Whether all but the sources is as the mapping has it.
fn is_tested(alloc: Global, mapping: &Mapping, segment: &Segment) -> Result<bool, NoMemory>
    ensures { IfOk result (λ is. IsTrue is ↔ IsTested mapping.now segment.now) }
{
    if !are_roots_known(mapping, segment) {
        return Ok(false);
    }
    let Some(standings) = standings(alloc, mapping, segment)? else {
        return Ok(false);
    };
    are_documents_shown(alloc, mapping, segment, standings.as_slice())
}

/// Whether each document stands at a scope of its generation, and shows the fields that it has values of.
fn are_documents_shown(
    alloc: Global,
    mapping: &Mapping,
    segment: &Segment,
    standings: &[Standing],
) -> Result<bool, NoMemory>
    requires standings { standings.now ≡ standings_of segment.now }
    requires few { length segment.now.scopes ≤ length mapping.now.scopes }
    ensures { IfOk result (λ are. IsTrue are ↔ AreScopesKnown mapping.now standings.now × AreColumnsShown mapping.now segment.now standings.now) }
{
    let _documents = segment.docs();
    scopes_are_of_documents(segment);
    if !are_scopes_known(mapping, standings) {
        return Ok(false);
    }
    let ground = Ground {
        mapping,
        scopes: segment.scopes().as_slice().len() as u32,
        standings,
    };
    are_columns_shown(alloc, &ground, segment)
}
