//! Segments to and from the bytes that a store keeps.
//!
//! A segment is its bytes, so the codec copies them out and takes them in (Lucene's codecs, package
//! `org.apache.lucene.codecs`). The crate stands on `segment`. What others use is that `decode` gives a segment exactly where
//! the bytes are an encoding, that `encode` gives that encoding, each segment having one, and that `decode_old` reads the
//! form of segments before mappings grew, whose bytes tell besides how many scopes their mapping had.
#![tactic(auto)]

ghost use Rattle.std.specs.Prelude.{◌≡◌, ◌↔◌, ◌+◌, ◌<◌, length, Some, IfOk, IsErrOf, IsNone};
ghost use Rattle.segment.specs.Encoding.{IsEncoding};
ghost use Rattle.segment.specs.Old.{IsOldEncoding};
ghost use Rattle.segment_parts.specs.declared.columns.Columns.{Columns};

use part_text::first_u32;
use segment::{Bytes, Segment, SegmentRefusal, renewed};
use std::alloc::Global;

/// Memory ran out.
#[derive(Clone, Copy, Debug, PartialEq, Eq)]
pub struct NoMemory;

impl From<std::alloc::AllocError> for NoMemory {
    fn from(_: std::alloc::AllocError) -> NoMemory {
        NoMemory
    }
}

/// Why bytes give no segment.
#[derive(Clone, Copy, Debug, PartialEq, Eq)]
pub enum CodecRefusal {
    /// The bytes are no encoding of a segment.
    NotASegment,
    /// Memory ran out.
    NoMemory,
}

impl From<segment::NoMemory> for CodecRefusal {
    ghost use Rattle.std.specs.Prelude.{◌≡◌};
    ghost use Rattle.segment_codec.specs.declared.CodecRefusal.TheVariants.{NoMemory};

    ghost from_gives = { λ _ e. e ≡ NoMemory };

    fn from(_: segment::NoMemory) -> CodecRefusal {
        CodecRefusal::NoMemory
    }
}

/// The encoding of a segment, as a copy.
pub fn encode(alloc: Global, segment: &Segment) -> Result<Bytes, NoMemory>
    ensures { IfOk result (λ bytes. IsEncoding segment.now bytes) }
{
    Ok(Bytes::of(Vec::from_slice(alloc, segment.bytes())?))
}

/// The segment that these bytes are an encoding of. It keeps the bytes.
pub fn decode(alloc: Global, bytes: Bytes) -> Result<Segment, CodecRefusal>
    ensures segment { IfOk result (λ segment. IsEncoding segment bytes) }
    ensures none { IsErrOf result CodecRefusal.NotASegment → (columns : Columns) → IsEncoding columns bytes → ⊥ }
{
    match Segment::of_bytes(alloc, bytes) {
        Ok(segment) => Ok(segment),
        Err(SegmentRefusal::NotASegment) => Err(CodecRefusal::NotASegment),
        Err(SegmentRefusal::NoMemory) => Err(CodecRefusal::NoMemory),
    }
}

/// The segment that these bytes are an encoding of in the form before mappings grew. Each of its roots was indexed under
/// the first mapping, and it has as many scopes as have documents.
pub fn decode_old(alloc: Global, bytes: Bytes) -> Result<Segment, CodecRefusal>
    ensures segment { IfOk result (λ segment. IsOldEncoding segment bytes) }
    ensures none { IsErrOf result CodecRefusal.NotASegment → (columns : Columns) → IsOldEncoding columns bytes → ⊥ }
{
    let Some(new) = renewed(alloc, bytes)? else {
        return Err(CodecRefusal::NotASegment);
    };
    decode(alloc, new)
}

/// How many scopes bytes in the form before mappings grew have, those without documents included: as many as their mapping
/// had. None exactly where they end before that number. Takes no memory.
pub fn old_scope_count(bytes: &[u8]) -> Option<u32>
    ensures scopes { (columns : Columns) (old : IsOldEncoding columns bytes.now) → result ≡ Some (length columns.scopes + old.more) }
    ensures none { IsNone result ↔ length bytes.now < 12 }
{
    if bytes.len() < 12 {
        return None;
    }
    // behind the four first bytes and the number of documents
    Some(first_u32(bytes.split_at(8).1))
}
