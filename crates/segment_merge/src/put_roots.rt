//! The roots of a merged segment, written.

ghost use Rattle.std.specs.Prelude.{◌≡◌, ◌++◌, OnOk};
ghost use Rattle.stored_sources.specs.Text.{roots_text};
ghost use Rattle.segment_merge.specs.Merged.{live_roots_in};
ghost use Rattle.segment_merge.specs.Scoped.{roots_in};

use crate::NoMemory;
use crate::marks::places_of;
use crate::numbering::Part;
use std::alloc::Global;

/// Appends the live roots of parts, as they are stored.
pub(crate) fn put_roots(alloc: Global, parts: &[Part], into: &mut Vec<u8>) -> Result<(), NoMemory>
    ensures { OnOk result (into.new.items ≡ into.old.items ++ roots_text (roots_in parts.now)) }
{
    'parts: for part in parts {
        put_live(alloc, part, into)?;
    }
    Ok(())
}

/// Appends the live roots of a part.
fn put_live(alloc: Global, part: &Part, into: &mut Vec<u8>) -> Result<(), NoMemory>
    ensures { OnOk result (into.new.items ≡ into.old.items ++ roots_text (live_roots_in part.now.entry)) }
{
    let live = places_of(alloc, part.live_roots())?;
    part.segment().sources().append_live(live.as_slice(), into)?;
    Ok(())
}
