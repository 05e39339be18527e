//! A segment is determined by its blocks, as a law for the crates above: call the function where you need its clause.
ghost use Rattle.std.specs.Prelude.{◌≡◌};
ghost use Rattle.flattener.specs.Fits.{SegmentFits};
ghost use Rattle.mapping.specs.Mapping.{Mapping};
ghost use Rattle.segment_builder.specs.Blocks.{blocks_of};

use segment::{Segment, scopes_are_of_documents};
use segment_builder::{fitting_segments_are_blocks, segments_say_what_documents_carry};

/// Two segments that fit a mapping and have the same blocks are one: the terms, the columns and the sets of documents are
/// determined by what each document shows and by what is kept of each root. Does nothing.
pub fn segments_are_known_by_their_blocks(one: &Segment, other: &Segment)
    ensures { (m : Mapping) → SegmentFits m one.now → SegmentFits m other.now → blocks_of one.now ≡ blocks_of other.now → one.now ≡ other.now }
{
    let _count = one.docs();
    let _other_count = other.docs();
    scopes_are_of_documents(one);
    scopes_are_of_documents(other);
    fitting_segments_are_blocks();
    segments_say_what_documents_carry(one);
    segments_say_what_documents_carry(other);
}
