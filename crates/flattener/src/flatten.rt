//! The block of a tree.
ghost use Rattle.std.specs.Prelude.{◌≡◌, ◌⊎◌, ◌≤◌, ◌<◌, ◌^◌, ℕ, List, [], length, map, Some, None, IfErr, IfOk, IsErrOf, IsOk, OnOk};
ghost use Rattle.tree_json.specs.Levels.{levels, most_levels};
ghost use Rattle.tree_json.specs.Reading.{reading, value as is_value};
ghost use Rattle.tree_json.specs.Text.{compact};
ghost use Rattle.tree_json.specs.View.{view};
ghost use Rattle.tree_objects.specs.Fault.{first_fault};
ghost use Rattle.flattener.specs.Block.{block_of, block_refusal, most_documents, root_of_tree, tree_given};
ghost use Rattle.flattener.specs.Fits.{BlockFits, IsGiven, IsTreeUnder, most_source};
ghost use Rattle.flattener.specs.Seen.{block_seen, document_seen, root_seen};
ghost use Rattle.flattener.specs.Walked.{flat_pair, walked};

use crate::document::{Block, Document};
use crate::join::join_of;
use crate::refusal::{FlattenRefusal, NoMemory, WalkRefusal};
use crate::source_text::source_text;
use crate::walk::walk;
use mapping::Mapping;
use segment::{Bytes, Id, Root};
use std::alloc::Global;
use tree_json::Json;
use tree_objects::{Fault, first_fault};

/// The most documents for which room is made at first.
const MOST_ROOM: usize = 16;

/// The block of a tree by its source, its id, its sequence number and the generation of the mapping that it is indexed
/// under. The refusals are looked for in the order of `FlattenRefusal`: the text of the source is written first, and
/// a fault is the first that a walk over the source meets, names in byte order, lists in order, depth first. The source
/// that the root keeps reads back as the value that it was, where that nests as little as what is read.
#[tactic(auto, using(crate::proofs::Wholes::wholes))]
pub fn block(
    alloc: Global,
    mapping: &Mapping,
    generation: u32,
    source: &Json,
    id: &[u8],
    number: u64,
) -> Result<Block, FlattenRefusal>
    requires { IsTreeUnder mapping.now (tree_given id.now number (view source.now) generation) }
    ensures given { IsOk result → IsGiven mapping.now (tree_given id.now number (view source.now) generation) }
    ensures block { IfOk result (λ b. block_seen b ≡ block_of mapping.now (tree_given id.now number (view source.now) generation)) }
    ensures fits { number ≤ 2 ^ 62 → IfOk result (λ b. BlockFits mapping.now (block_seen b)) }
    ensures reads_back { IfOk result (λ b. levels (view source.now) ≤ most_levels → reading b.root.source ≡ is_value (view source.now)) }
    ensures accepted { IsOk result → block_refusal mapping.now (tree_given id.now number (view source.now) generation) ≡ None }
    ensures too_long { most_source < length (compact (view source.now)) → IfErr result (λ e. (e ≡ FlattenRefusal.NoMemory) ⊎ (e ≡ FlattenRefusal.SourceTooLong)) }
    ensures refused { IfErr result (λ e. (e ≡ FlattenRefusal.NoMemory) ⊎ (((e ≡ FlattenRefusal.SourceTooLong) × (most_source < length (compact (view source.now)))) ⊎ (block_refusal mapping.now (tree_given id.now number (view source.now) generation) ≡ Some e))) }
{
    let mut objects = 0;
    let text = source_text(alloc, source, &mut objects)?;
    faultless(alloc, mapping, generation, source)?;
    let documents = documents(alloc, mapping, generation, source, objects.min(MOST_ROOM))?;
    let root = root_of(alloc, mapping, generation, source, id, number, text)?;
    Ok(Block { documents, root })
}

/// That a source has no fault, or its first.
#[tactic(auto, using(crate::proofs::Wholes::faults))]
fn faultless(
    alloc: Global,
    mapping: &Mapping,
    generation: u32,
    source: &Json,
) -> Result<(), FlattenRefusal>
    ensures ok { OnOk result (first_fault mapping.now generation (view source.now) ≡ None) }
    ensures fault { (id : List ℕ) (number : ℕ) → IfErr result (λ e. (e ≡ FlattenRefusal.NoMemory) ⊎ (block_refusal mapping.now (tree_given id number (view source.now) generation) ≡ Some e)) }
{
    match first_fault(alloc, mapping, generation, source) {
        Ok(None) => Ok(()),
        Ok(Some(Fault::WrongType(field))) => Err(FlattenRefusal::WrongType(field)),
        Ok(Some(Fault::TermTooLong(field))) => Err(FlattenRefusal::TermTooLong(field)),
        Ok(Some(Fault::BadJoin)) => Err(FlattenRefusal::BadJoin),
        Err(_) => Err(FlattenRefusal::NoMemory),
    }
}

/// The documents of a source's objects, with room for so many at first.
#[tactic(auto, using(crate::proofs::Ways::starts))]
fn documents(
    alloc: Global,
    mapping: &Mapping,
    generation: u32,
    source: &Json,
    room: usize,
) -> Result<Vec<Document>, FlattenRefusal>
    requires { length (compact (view source.now)) ≤ most_source }
    ensures documents { IfOk result (λ v. map document_seen v.items ≡ map (flat_pair mapping.now generation) (walked mapping.now generation (length mapping.now.scopes) 0 (view source.now))) }
    ensures few { IsOk result → length (walked mapping.now generation (length mapping.now.scopes) 0 (view source.now)) ≤ most_documents }
    ensures many { IfErr result (λ e. (e ≡ FlattenRefusal.NoMemory) ⊎ ((e ≡ FlattenRefusal.TooManyObjects) × (most_documents < length (walked mapping.now generation (length mapping.now.scopes) 0 (view source.now))))) }
{
    let levels = mapping.scope_count();
    let mut found = Vec::new(alloc);
    let mut documents = with_room(alloc, room)?;
    match walk(
        alloc,
        mapping,
        generation,
        levels,
        0,
        source,
        &mut found,
        &mut documents,
    ) {
        Ok(()) => Ok(documents),
        Err(WalkRefusal::TooManyObjects) => Err(FlattenRefusal::TooManyObjects),
        Err(WalkRefusal::NoMemory) => Err(FlattenRefusal::NoMemory),
    }
}

/// No document, with room for so many.
fn with_room(alloc: Global, count: usize) -> Result<Vec<Document>, NoMemory>
    ensures { IfOk result (λ v. v.items ≡ []) }
{
    Ok(Vec::with_capacity(alloc, count)?)
}

/// What is kept of a root, with the text of its source.
#[tactic(auto, using(crate::proofs::Wholes::roots))]
fn root_of(
    alloc: Global,
    mapping: &Mapping,
    generation: u32,
    source: &Json,
    id: &[u8],
    number: u64,
    text: Vec<u8>,
) -> Result<Root, NoMemory>
    requires { text.items ≡ compact (view source.now) }
    ensures root { IfOk result (λ r. root_seen r ≡ root_of_tree mapping.now (tree_given id.now number (view source.now) generation)) }
    ensures text { IfOk result (λ r. r.source ≡ text.items) }
{
    Ok(Root {
        id: Id::of(alloc, id)?,
        number,
        generation,
        join: join_of(alloc, mapping, generation, source)?,
        source: Bytes::of(text),
    })
}
