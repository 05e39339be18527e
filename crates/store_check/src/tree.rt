//! The block of the tree that a root may be of.
ghost use Rattle.std.specs.Prelude.{◌≡◌, ◌≢◌, ◌↔◌, ◌≤◌, ◌<◌, ◌^◌, true, length, IfOk, IsTrue, MatchOption, OnOk};
ghost use Rattle.std.specs.List.{All};
ghost use Rattle.flattener.specs.Seen.{block_seen};
ghost use Rattle.segment.specs.Flat.{flat_root};
ghost use Rattle.segment_parts.specs.Agree.{IsStored};
ghost use Rattle.stored_sources.specs.Roots.{root_of, source_of};
ghost use Rattle.tree_json.specs.Reading.{reading, value as is_value};
ghost use Rattle.tree_json.specs.Value.{is_object};
ghost use Rattle.tree_json.specs.View.{view};
ghost use Rattle.store_check.specs.Made.{IsBlockOf, IsOfNoTree};

use crate::NoMemory;
use flattener::{Block, FlattenRefusal, block};
use mapping::Mapping;
use source_steps::Steps;
use std::alloc::Global;
use std::sync::ledger::Ledger;
use stored_sources::StoredSources;
use tree_json::{Json, JsonReader, JsonRefusal, what_is_read_has_few_levels};

// The greatest sequence number of a tree.
const GREATEST_NUMBER: u64 = 4_611_686_018_427_387_904;

/// Reads sources, one after another, over buffers that it keeps.
#[derive(Drop)]
pub(crate) struct Sources {
    reader: JsonReader,
    source: Vec<u8>,
}

impl Sources {
    /// Buffers that have no memory yet.
    pub(crate) fn new(alloc: Global) -> Sources {
        Sources {
            reader: JsonReader::new(alloc),
            source: Vec::new(alloc),
        }
    }

    /// The block of the one tree that a root may be of; none where there is no such tree. It counts as one read of a source.
    pub(crate) fn block_of_root<L: Ledger>(
        &mut self,
        alloc: Global,
        mapping: &Mapping,
        sources: &StoredSources,
        root: u32,
        steps: &mut Steps<L>,
    ) -> Result<Option<Block>, NoMemory>
        requires within { root < length sources.now }
        requires stored { All IsStored sources.now }
        ensures { IfOk result (λ found. MatchOption found (IsOfNoTree mapping.now (flat_root (root_of sources.now root)))
            (λ block. IsBlockOf mapping.now (flat_root (root_of sources.now root)) (block_seen block))) }
    {
        self.source.clear();
        sources.fetch(root, &mut self.source, steps)?;
        match self.reader.read(alloc, self.source.as_slice()) {
            Ok(source) => block_of_source(alloc, mapping, sources, root, &source),
            Err(JsonRefusal::NoMemory) => Err(NoMemory),
            Err(JsonRefusal::BadJson) => Ok(None),
            Err(JsonRefusal::FractionNumber) => Ok(None),
        }
    }
}

// The block of a root by the value that its source was read as.
fn block_of_source(
    alloc: Global,
    mapping: &Mapping,
    sources: &StoredSources,
    root: u32,
    source: &Json,
) -> Result<Option<Block>, NoMemory>
    requires within { root < length sources.now }
    requires stored { All IsStored sources.now }
    requires reads { reading (source_of sources.now root) ≡ is_value (view source.now) }
    ensures { IfOk result (λ found. MatchOption found (IsOfNoTree mapping.now (flat_root (root_of sources.now root)))
        (λ block. IsBlockOf mapping.now (flat_root (root_of sources.now root)) (block_seen block))) }
{
    what_is_read_has_few_levels();
    let generation = sources.generation(root);
    let number = sources.number(root);
    if !can_be(mapping, generation, number, source) {
        return Ok(None);
    }
    match block(alloc, mapping, generation, source, sources.id(root), number) {
        Ok(block) => Ok(Some(block)),
        Err(why) => {
            is_of_source(why)?;
            Ok(None)
        }
    }
}

// That the source is why it has no block, and not the memory.
fn is_of_source(why: FlattenRefusal) -> Result<(), NoMemory>
    ensures { OnOk result (why ≢ FlattenRefusal.NoMemory) }
{
    match why {
        FlattenRefusal::NoMemory => Err(NoMemory),
        FlattenRefusal::SourceTooLong => Ok(()),
        FlattenRefusal::WrongType(_) => Ok(()),
        FlattenRefusal::TermTooLong(_) => Ok(()),
        FlattenRefusal::BadJoin => Ok(()),
        FlattenRefusal::TooManyObjects => Ok(()),
    }
}

// Whether a tree can have this generation, this number and this source.
fn can_be(mapping: &Mapping, generation: u32, number: u64, source: &Json) -> bool
    ensures { IsTrue result ↔ (is_object (view source.now) ≡ true) × (1 ≤ generation) × (generation ≤ length mapping.now.bodies) × (number ≤ 2 ^ 62) }
{
    if !matches!(source, Json::Object(_)) {
        return false;
    }
    1 <= generation && generation <= mapping.generation() && number <= GREATEST_NUMBER
}
