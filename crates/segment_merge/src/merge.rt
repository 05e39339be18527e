//! The live blocks of entries as one segment.

ghost use Rattle.std.specs.Prelude.{◌≡◌, ◌↔◌, ◌<◌, ◌≤◌, ◌^◌, List, [], length, IfOk, IfSome, IsNone, IsTrue};
ghost use Rattle.std.specs.List.{All, flat_map};
ghost use Rattle.flattener.specs.Fits.{SegmentFits, most_live};
ghost use Rattle.mapping.specs.Mapping.{Mapping};
ghost use Rattle.segment.specs.Live.{EntryState};
ghost use Rattle.segment_builder.specs.Blocks.{blocks_of, live_blocks, objects_of};
ghost use Rattle.segment_builder.specs.Given.{IsNumbered};
ghost use Rattle.segment_parts.specs.Text.{segment_text};
ghost use Rattle.segment_parts.specs.declared.columns.Columns.{Columns};
ghost use Rattle.segment_merge.specs.Merged.{IsMerged, live_roots_in};
ghost use Rattle.segment_merge.specs.Numbering.{live_in, parts_from};
ghost use Rattle.segment_merge.specs.Scoped.{roots_in};

use crate::NoMemory;
use crate::encoded::segment_of;
use crate::head::put_head;
use crate::law::live_blocks_are_counted;
use crate::numbering::{Part, parts_of};
use crate::put_roots::put_roots;
use crate::terms::put_terms;
use crate::text_columns::put_texts;
use crate::value_columns::{put_numbers, put_ordinals};
use segment::Segment;
use segment_view::Entry;
use std::alloc::Global;

/// The segment of the live blocks of entries, in their order; None where no block is live. The entries' segments are of one
/// mapping, so that no field has columns of two kinds. Its bytes are written straight from those of the entries' segments:
/// what memory it takes grows with these, and its time with a sort of their terms too.
pub fn merged(alloc: Global, entries: &[Entry]) -> Result<Option<Segment>, NoMemory>
    requires few { objects_of (flat_map live_blocks entries.now) ≤ most_live }
    requires made { (m : Mapping) × IsNumbered m × All (λ entry. SegmentFits m entry.columns) entries.now }
    ensures none { IfOk result (λ found. IsNone found ↔ (flat_map live_blocks entries.now ≡ [])) }
    ensures blocks { IfOk result (λ found. IfSome found (λ segment. blocks_of segment ≡ flat_map live_blocks entries.now)) }
    ensures fits { (m : Mapping) → All (λ entry. SegmentFits m entry.columns) entries.now → IfOk result (λ found. IfSome found (λ segment. SegmentFits m segment)) }
{
    live_blocks_are_counted(entries);
    let parts = parts_of(alloc, entries)?;
    if !have_live_roots(parts.as_slice()) {
        return Ok(None);
    }
    let bytes = merged_bytes(alloc, parts.as_slice())?;
    let segment = segment_of(alloc, entries, bytes)?;
    Ok(Some(segment))
}

/// Whether some root of the parts is live.
fn have_live_roots(parts: &[Part]) -> bool
    ensures { IsTrue result ↔ (0 < length (roots_in parts.now)) }
{
    'parts: for part in parts {
        if has_live_root(part) {
            return true;
        }
    }
    false
}

/// Whether some root of a part is live.
fn has_live_root(part: &Part) -> bool
    ensures { IsTrue result ↔ (0 < length (live_roots_in part.now.entry)) }
{
    let _segment = part.segment();
    part.live_roots().count() > 0
}

/// The bytes of the segment of the parts' live documents.
fn merged_bytes(alloc: Global, parts: &[Part]) -> Result<Vec<u8>, NoMemory>
    requires { live_in parts.now < 2 ^ 32 }
    ensures { (entries : List EntryState) → parts.now ≡ parts_from 0 entries
        → IfOk result (λ bytes. (columns : Columns) × IsMerged entries columns × (bytes.items ≡ segment_text columns)) }
{
    let mut bytes = Vec::new(alloc);
    put_head(alloc, parts, &mut bytes)?;
    put_roots(alloc, parts, &mut bytes)?;
    let news = put_terms(alloc, parts, &mut bytes)?;
    put_ordinals(alloc, parts, &news, &mut bytes)?;
    put_numbers(alloc, parts, &news, &mut bytes)?;
    put_texts(alloc, parts, &mut bytes)?;
    // a segment lives long: it keeps no room that it grew by
    bytes.shrink_to_fit();
    Ok(bytes)
}
