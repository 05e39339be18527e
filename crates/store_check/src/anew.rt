//! A segment made anew of its sources.
ghost use Rattle.std.specs.Prelude.{◌≡◌, ◌↔◌, ◌≤◌, ◌<◌, length, map, IfOk, IsTrue, MatchOption};
ghost use Rattle.std.specs.List.{All};
ghost use Rattle.flattener.specs.Fits.{SegmentFits, most_live};
ghost use Rattle.flattener.specs.Seen.{block_seen};
ghost use Rattle.segment.specs.Flat.{flat_root, roots_of};
ghost use Rattle.segment_builder.specs.Blocks.{objects_of};
ghost use Rattle.segment_parts.specs.Agree.{IsStored};
ghost use Rattle.store_check.specs.Made.{AreBlocksOf, AreOfNoTrees, AreOfTrees};

use crate::NoMemory;
use crate::law::segments_are_known_by_their_blocks;
use crate::tree::Sources;
use block_bits::words_are_of_one_set;
use flattener::Block;
use mapping::Mapping;
use segment::Segment;
use segment_builder::{blocks_are_whole, built};
use source_steps::Steps;
use std::alloc::Global;
use std::marker::Brand;
use std::sync::ledger::{Blank, Ledger};
use stored_sources::StoredSources;

// A segment is made of so many documents at most.
const MOST_DOCUMENTS: usize = 67_108_864;

/// Whether the blocks of a segment are those of trees that can have been indexed: it is made anew of its sources, and the bytes are
/// compared. NoMemory is answered too where it has more documents than a segment is made of.
pub(crate) fn is_of_trees(
    alloc: Global,
    mapping: &Mapping,
    segment: &Segment,
) -> Result<bool, NoMemory>
    requires { SegmentFits mapping.now segment.now }
    ensures { IfOk result (λ is. IsTrue is ↔ AreOfTrees mapping.now segment.now) }
{
    let _documents = segment.docs();
    blocks_are_whole(segment);
    let Some(blocks) = blocks_of_sources::<Brand>(
        alloc,
        mapping,
        &segment.sources(),
        Blank::new(1),
    )?
    else {
        return Ok(false);
    };
    let is = is_built(alloc, mapping, segment, blocks.as_slice())?;
    Ok(is)
}

// Whether a segment is the one that is built of the blocks of its sources.
fn is_built(
    alloc: Global,
    mapping: &Mapping,
    segment: &Segment,
    blocks: &[Block],
) -> Result<bool, NoMemory>
    requires fits { SegmentFits mapping.now segment.now }
    requires blocks { AreBlocksOf mapping.now (roots_of segment.now) (map block_seen blocks.now) }
    ensures { IfOk result (λ is. IsTrue is ↔ AreOfTrees mapping.now segment.now) }
{
    words_are_of_one_set();
    let _documents = segment.docs();
    blocks_are_whole(segment);
    if !are_few(blocks) {
        return Err(NoMemory);
    }
    let made = built(alloc, mapping, blocks)?;
    segments_are_known_by_their_blocks(segment, &made);
    Ok(are_same(made.bytes(), segment.bytes()))
}

fn are_same(one: &[u8], other: &[u8]) -> bool
    ensures { IsTrue result ↔ (one.now ≡ other.now) }
{
    one == other
}

// Whether blocks have as few objects together as a segment can be built of.
fn are_few(blocks: &[Block]) -> bool
    ensures { IsTrue result → objects_of (map block_seen blocks.now) ≤ most_live }
{
    let mut total = 0;
    'counted: for block in blocks {
        let count = block.documents.len();
        if count > MOST_DOCUMENTS - total {
            return false;
        }
        total += count;
    }
    true
}

// The blocks of the trees that the roots may be of, dead ones too; none where a root is of no tree.
fn blocks_of_sources<L: Ledger>(
    alloc: Global,
    mapping: &Mapping,
    sources: &StoredSources,
    blank: Blank,
) -> Result<Option<Vec<Block>>, NoMemory>
    requires name { L.name ≡ blank.name }
    requires parts { L.parts ≡ blank.parts }
    requires some { 0 < blank.parts }
    requires stored { All IsStored sources.now }
    ensures { IfOk result (λ found. MatchOption found (AreOfNoTrees mapping.now (map flat_root sources.now))
        (λ blocks. AreBlocksOf mapping.now (map flat_root sources.now) (map block_seen blocks.items))) }
{
    let mut steps = Steps::<L>::start(blank);
    let mut buffers = Sources::new(alloc);
    let mut blocks = Vec::new(alloc);
    'roots: for root in 0..sources.count() {
        let Some(block) = buffers.block_of_root(alloc, mapping, sources, root, &mut steps)? else {
            return Ok(None);
        };
        blocks.push(block)?;
    }
    Ok(Some(blocks))
}
