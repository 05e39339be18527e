//! Segments, read from their places in the file.

ghost use Rattle.std.specs.Prelude.{◌≡◌, ℕ, List, Some, IfOk, OnOk, IsErrOf};
ghost use Rattle.disk.specs.Stops.{LenOf};
ghost use Rattle.segment.specs.Old.{IsOldEncoding};
ghost use Rattle.segment_parts.specs.declared.columns.Columns.{Columns};
ghost use Rattle.store_opening.specs.Looking.{Looked, HasOpenCause};
ghost use Rattle.store_opening.specs.Segments.{HasSegment, HasText, IsOldText, IsSegmentText};

use crate::device::read_piece;
use crate::refusal::OpenRefusal;
use disk::Disk;
use extent_pool::Extent;
use segment::{Bytes, Segment};
use segment_codec::{CodecRefusal, decode, decode_old, old_scope_count};
use std::alloc::Global;

/// The segment whose bytes stand at an extent of the file, whose length is known. They are read once, into the vector that the
/// segment keeps; those of the form from before mappings grew (`old`) are read anew from there. Such a segment has as many scopes
/// as its mapping has, `scope_count`. Damaged exactly where no segment's bytes stand there.
pub fn read_segment<D: Disk>(
    alloc: Global,
    disk: &mut D,
    file_len: u64,
    extent: Extent,
    old: bool,
    scope_count: u32,
) -> Result<Segment, OpenRefusal>
    requires { LenOf (D.content disk.old) file_len }
    ensures segment { IfOk result (λ segment. (file : List ℕ) → D.content disk.old ≡ Some file → HasSegment old scope_count extent segment file) }
    ensures text { IfOk result (HasText old scope_count extent.len) }
    ensures damaged { IsErrOf result OpenRefusal.Damaged → (file : List ℕ) (columns : Columns) → D.content disk.old ≡ Some file → HasSegment old scope_count extent columns file → ⊥ }
    ensures not_a_store { IsErrOf result OpenRefusal.NotAStore → ⊥ }
    ensures content { OnOk result (D.content disk.new ≡ D.content disk.old) }
    ensures looked { Looked (D.content disk.old) (D.content disk.new) (D.image disk.old) (D.image disk.new) (D.moment disk.old) (D.moment disk.new) (D.image_since disk.old) (D.image_since disk.new) }
    ensures cause { HasOpenCause (D.faults disk.old) (D.faults disk.new) result }
{
    let Some(bytes) = read_piece(alloc, disk, file_len, extent.at, extent.len)? else {
        return Err(OpenRefusal::Damaged);
    };
    Ok(segment_of(alloc, bytes, old, scope_count)?)
}

/// The segment that bytes are the text of, in either form.
fn segment_of(
    alloc: Global,
    bytes: Vec<u8>,
    old: bool,
    scope_count: u32,
) -> Result<Segment, OpenRefusal>
    ensures segment { IfOk result (λ segment. IsSegmentText old scope_count segment bytes.items) }
    ensures damaged { IsErrOf result OpenRefusal.Damaged → (columns : Columns) → IsSegmentText old scope_count columns bytes.items → ⊥ }
    ensures fault { IsErrOf result OpenRefusal.DiskFault → ⊥ }
    ensures not_a_store { IsErrOf result OpenRefusal.NotAStore → ⊥ }
{
    if old {
        Ok(old_segment_of(alloc, bytes, scope_count)?)
    } else {
        Ok(decode(alloc, Bytes::of(bytes))?)
    }
}

/// The segment that bytes of the form from before mappings grew are the text of, with so many scopes.
#[tactic(auto, using(crate::proofs::Forms::forms))]
fn old_segment_of(alloc: Global, bytes: Vec<u8>, scope_count: u32) -> Result<Segment, OpenRefusal>
    ensures segment { IfOk result (λ segment. IsOldText scope_count segment bytes.items) }
    ensures damaged { IsErrOf result OpenRefusal.Damaged → (columns : Columns) → IsOldText scope_count columns bytes.items → ⊥ }
    ensures fault { IsErrOf result OpenRefusal.DiskFault → ⊥ }
    ensures not_a_store { IsErrOf result OpenRefusal.NotAStore → ⊥ }
{
    match old_scope_count(bytes.as_slice()) {
        Some(count) => if count == scope_count {
            Ok(decoded_old(alloc, bytes)?)
        } else {
            Err(OpenRefusal::Damaged)
        },
        None => Err(OpenRefusal::Damaged),
    }
}

/// The segment that bytes of the form from before mappings grew are the text of, with as many scopes as they have.
fn decoded_old(alloc: Global, bytes: Vec<u8>) -> Result<Segment, OpenRefusal>
    ensures segment { IfOk result (λ segment. IsOldEncoding segment bytes.items) }
    ensures damaged { IsErrOf result OpenRefusal.Damaged → (columns : Columns) → IsOldEncoding columns bytes.items → ⊥ }
    ensures fault { IsErrOf result OpenRefusal.DiskFault → ⊥ }
    ensures not_a_store { IsErrOf result OpenRefusal.NotAStore → ⊥ }
{
    match decode_old(alloc, Bytes::of(bytes)) {
        Ok(segment) => Ok(segment),
        Err(CodecRefusal::NotASegment) => Err(OpenRefusal::Damaged),
        Err(CodecRefusal::NoMemory) => Err(OpenRefusal::NoMemory),
    }
}
