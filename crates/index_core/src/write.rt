//! Changes of blocks and of the numbers under their ids.

ghost use Rattle.std.specs.Prelude.{◌≡◌, ℕ, ◌+◌, ◌<◌, ◌≤◌, ◌^◌, ◌++◌, ◌∷◌, [], List, if◌then◌else◌, filter, Option, Some, None, OnOk, OnErr};
ghost use Rattle.std.specs.Option.{option_map};
ghost use Rattle.std.specs.Str.{bytes_eq};
ghost use Rattle.std.specs.List.{All};
ghost use Rattle.flattener.specs.Block.{BlockState};
ghost use Rattle.flattener.specs.Fits.{BlockFits, most_live};
ghost use Rattle.flattener.specs.Seen.{block_seen};
ghost use Rattle.layout.specs.Layout.{killed, staying, with_new, with_room};
ghost use Rattle.mapping.specs.IsMapping.{IsMapping};
ghost use Rattle.mapping.specs.Mapping.{Mapping as Mappings};
ghost use Rattle.segment_builder.specs.Blocks.{objects_of};
ghost use Rattle.index_core.specs.Found.{AreFit, HasLive, HasOld, HasRoom, columns_of, layout_of, live_blocks, number_under};
ghost use Rattle.index_core.specs.Kept.{AreBlocks, block_number, has_block_id};
ghost use Rattle.index_core.specs.Write.{done_of, id_of, new_number, new_of, takes_nothing as has_nothing};

use crate::kept_blocks::KeptBlocks;
use crate::live_numbers::LiveNumbers;
use crate::{NoMemory, WriteDone, WriteOp};
use flattener::Block;
use mapping::Mapping;
use std::alloc::Global;

/// How many blocks the buffer holds.
const BUFFER_SIZE: usize = 256;

/// Whether a write takes out what isn't there.
pub(crate) fn takes_nothing(op: &WriteOp, old: Option<u64>) -> bool
    ensures { (live : Option BlockState) → option_map block_number live ≡ old → result ≡ has_nothing op.now live }
{
    match op {
        WriteOp::Put(_) => false,
        WriteOp::Take(_) => old.is_none(),
    }
}

/// What a write answers that takes a number.
pub(crate) fn done(op: &WriteOp, next: u64, old: Option<u64>) -> WriteDone
    ensures { (live : Option BlockState) → option_map block_number live ≡ old → result ≡ done_of op.now next live }
{
    match op {
        WriteOp::Put(_) => match old {
            Some(_) => WriteDone::Updated(next),
            None => WriteDone::Created(next),
        },
        WriteOp::Take(_) => match old {
            Some(_) => WriteDone::Deleted(next),
            None => WriteDone::NotFound,
        },
    }
}

/// The bytes of the id that is written.
pub(crate) fn written_id(op: &WriteOp) -> &[u8]
    ensures { result.now ≡ id_of op.now }
{
    match op {
        WriteOp::Put(block) => block.root.id.as_slice(),
        WriteOp::Take(id) => id.as_slice(),
    }
}

/// How many live objects there are after a write.
pub(crate) fn objects_after(
    blocks: &KeptBlocks,
    live_objects: u64,
    op: &WriteOp,
    old: Option<u64>,
) -> u64
    requires old { HasOld blocks.now.entries blocks.now.buffer (id_of op.now) old }
    requires live { live_objects ≡ objects_of (live_blocks blocks.now.entries blocks.now.buffer) }
    requires few { live_objects ≤ most_live }
    ensures { result ≡ objects_of (filter (staying (has_block_id (id_of op.now))) (live_blocks blocks.now.entries blocks.now.buffer) ++ new_of op.now) }
{
    let staying = objects_without(blocks, live_objects, old);
    match op {
        WriteOp::Put(block) => staying + block.documents.len() as u64,
        WriteOp::Take(_) => staying,
    }
}

/// How many live objects there are without the live block with an id, which has this number if there is one.
fn objects_without(blocks: &KeptBlocks, live_objects: u64, old: Option<u64>) -> u64
    requires old { (id : List ℕ) × HasOld blocks.now.entries blocks.now.buffer id old }
    requires live { live_objects ≡ objects_of (live_blocks blocks.now.entries blocks.now.buffer) }
    ensures staying { (id : List ℕ) → HasOld blocks.now.entries blocks.now.buffer id old → result ≡ objects_of (filter (staying (has_block_id id)) (live_blocks blocks.now.entries blocks.now.buffer)) }
    ensures fewer { result ≤ live_objects }
{
    match old {
        Some(number) => live_objects - blocks.objects_with(number),
        None => live_objects,
    }
}

/// Makes a segment of a full buffer.
pub(crate) fn make_room(blocks: &mut KeptBlocks, mapping: &Mapping) -> Result<(), NoMemory>
    requires fits { All (BlockFits mapping.now) blocks.old.buffer }
    requires segments { AreFit mapping.now blocks.old.entries }
    requires few { objects_of (live_blocks blocks.old.entries blocks.old.buffer) ≤ most_live }
    requires blocks { (next : ℕ) × AreBlocks (layout_of blocks.old) next }
    ensures room { OnOk result (layout_of blocks.new ≡ with_room (layout_of blocks.old)) }
    ensures blocks { (next : ℕ) → AreBlocks (layout_of blocks.old) next → OnOk result (HasRoom (layout_of blocks.new) next) }
    ensures same { OnErr result (blocks.new ≡ blocks.old) }
    ensures segments { (m : Mappings) → IsMapping m → All (BlockFits m) blocks.old.buffer → AreFit m blocks.old.entries → AreFit m blocks.new.entries }
{
    if blocks.buffered_count() >= BUFFER_SIZE {
        blocks.seal(mapping)?;
    }
    Ok(())
}

/// Takes out the live block with the id that is written, if there is one, and puts the new one behind the others.
pub(crate) fn change(
    alloc: Global,
    blocks: &mut KeptBlocks,
    numbers: &mut LiveNumbers,
    op: WriteOp,
    old: Option<u64>,
) -> Result<(), NoMemory>
    requires old { HasOld blocks.old.entries blocks.old.buffer (id_of op) old }
    requires number { number_under numbers.old (id_of op) ≡ old }
    ensures layout { OnOk result (layout_of blocks.new ≡ with_new (new_of op) (killed (has_block_id (id_of op)) (layout_of blocks.old))) }
    ensures numbers { OnOk result ((other : List ℕ) → number_under numbers.new other ≡ (if bytes_eq (id_of op) other then new_number op else number_under numbers.old other)) }
    ensures same { OnErr result (layout_of blocks.new ≡ layout_of blocks.old) }
    ensures same_numbers { OnErr result ((other : List ℕ) → number_under numbers.new other ≡ number_under numbers.old other) }
    ensures columns { columns_of blocks.new.entries ≡ columns_of blocks.old.entries }
{
    match op {
        WriteOp::Put(block) => match old {
            Some(number) => put_over(blocks, numbers, number, block),
            None => put_new(alloc, blocks, numbers, block),
        },
        WriteOp::Take(id) => match old {
            Some(number) => take_live(blocks, numbers, number, id.as_slice()),
            None => Ok(()),
        },
    }
}

/// Puts a block whose id is new behind the others.
fn put_new(
    alloc: Global,
    blocks: &mut KeptBlocks,
    numbers: &mut LiveNumbers,
    block: Block,
) -> Result<(), NoMemory>
    ensures layout { OnOk result (layout_of blocks.new ≡ with_new (block_seen block ∷ []) (layout_of blocks.old)) }
    ensures numbers { OnOk result ((other : List ℕ) → number_under numbers.new other ≡ (if bytes_eq block.root.id other then Some block.root.number else number_under numbers.old other)) }
    ensures same { OnErr result (layout_of blocks.new ≡ layout_of blocks.old) }
    ensures same_numbers { OnErr result ((other : List ℕ) → number_under numbers.new other ≡ number_under numbers.old other) }
    ensures entries { blocks.new.entries ≡ blocks.old.entries }
{
    let id = block.root.id.as_slice().to_vec(alloc)?;
    blocks.reserve()?;
    numbers.put(id, block.root.number)?;
    blocks.push(block);
    Ok(())
}

/// Puts a block behind the others in place of the live one with its id, which has this number.
fn put_over(
    blocks: &mut KeptBlocks,
    numbers: &mut LiveNumbers,
    old: u64,
    block: Block,
) -> Result<(), NoMemory>
    requires live { HasLive blocks.old.entries blocks.old.buffer block.root.id old }
    requires found { number_under numbers.old block.root.id ≡ Some old }
    ensures layout { OnOk result (layout_of blocks.new ≡ with_new (block_seen block ∷ []) (killed (has_block_id block.root.id) (layout_of blocks.old))) }
    ensures numbers { OnOk result ((other : List ℕ) → number_under numbers.new other ≡ (if bytes_eq block.root.id other then Some block.root.number else number_under numbers.old other)) }
    ensures same { OnErr result (layout_of blocks.new ≡ layout_of blocks.old) }
    ensures same_numbers { OnErr result ((other : List ℕ) → number_under numbers.new other ≡ number_under numbers.old other) }
    ensures columns { columns_of blocks.new.entries ≡ columns_of blocks.old.entries }
{
    blocks.reserve()?;
    blocks.take_out(old)?;
    numbers.replace(block.root.id.as_slice(), block.root.number);
    blocks.push(block);
    Ok(())
}

/// Takes out the live block with this id, which has this number.
fn take_live(
    blocks: &mut KeptBlocks,
    numbers: &mut LiveNumbers,
    old: u64,
    id: &[u8],
) -> Result<(), NoMemory>
    requires { HasLive blocks.old.entries blocks.old.buffer id.now old }
    ensures layout { OnOk result (layout_of blocks.new ≡ with_new [] (killed (has_block_id id.now) (layout_of blocks.old))) }
    ensures numbers { OnOk result ((other : List ℕ) → number_under numbers.new other ≡ (if bytes_eq id.now other then None else number_under numbers.old other)) }
    ensures same { OnErr result (layout_of blocks.new ≡ layout_of blocks.old) }
    ensures same_numbers { OnErr result ((other : List ℕ) → number_under numbers.new other ≡ number_under numbers.old other) }
    ensures columns { columns_of blocks.new.entries ≡ columns_of blocks.old.entries }
{
    blocks.take_out(old)?;
    numbers.take(id);
    Ok(())
}
