//! Whether a view holds.
ghost use Rattle.std.specs.Prelude.{◌↔◌, IfOk, IsTrue};
ghost use Rattle.std.specs.List.{All};
ghost use Rattle.flattener.specs.Fits.{SegmentFits};
ghost use Rattle.store_check.specs.Held.{IsHeld};

use crate::NoMemory;
use crate::anew::is_of_trees;
use mapping::Mapping;
use segment_builder::blocks_are_whole;
use segment_view::{Entry, View};
use std::alloc::Global;

/// Whether each entry of a view that fits a mapping is held: its blocks, dead ones too, are those of trees that can have been
/// indexed. Each source is read once, and each segment is made anew beside the one that is there, so that so much memory is wanted
/// besides. Nothing is written.
pub fn holds(alloc: Global, mapping: &Mapping, view: &View) -> Result<bool, NoMemory>
    requires { All (λ entry. SegmentFits mapping.now entry.columns) view.now }
    ensures { IfOk result (λ holds. IsTrue holds ↔ All (IsHeld mapping.now) view.now) }
{
    'entries: for entry in view.entries() {
        if !is_held(alloc, mapping, entry)? {
            return Ok(false);
        }
    }
    Ok(true)
}

// Whether an entry is held.
fn is_held(alloc: Global, mapping: &Mapping, entry: &Entry) -> Result<bool, NoMemory>
    requires { SegmentFits mapping.now entry.now.columns }
    ensures { IfOk result (λ is. IsTrue is ↔ IsHeld mapping.now entry.now) }
{
    let _live = entry.live();
    let segment = entry.segment();
    blocks_are_whole(segment);
    let is = is_of_trees(alloc, mapping, segment)?;
    Ok(is)
}
