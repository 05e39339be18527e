//! What a store's file holds.

ghost use Rattle.std.specs.Prelude.{◌≡◌, ◌<◌, ◌≤◌, ◌^◌, ℕ, List, Option, Some, IfOk, OnOk, IsErrOf};
ghost use Rattle.disk.specs.Stops.{LenOf};
ghost use Rattle.commit_store.specs.Saying.{StoreCommit, Found};
ghost use Rattle.store_text.specs.Header.{magic};
ghost use Rattle.store_text.specs.Pieces.{Stands};
ghost use Rattle.store_opening.specs.Beginning.{IsOther};
ghost use Rattle.store_opening.specs.Looking.{Looked, HasOpenCause};
ghost use Rattle.store_opening.specs.Shown.{IsCommitWhole, IsReadWhole, LeadsTo, Shows, ShowsCommit};

use crate::commit::{CommitRead, read_commit};
use crate::header::{counting_side, read_header};
use crate::refusal::OpenRefusal;
use disk::Disk;
use segment_builder::fitting_segments_are_blocks;
use std::alloc::Global;
use store_text::{Header, Side};

/// The last generation that a commit may have.
const LAST_GENERATION: u64 = 1 << 62;

/// A commit that was read: its slot, its generation, the place and the length of its record, what that says, and whether the
/// gate of the other slot is closed.
#[derive(Drop)]
pub(crate) struct CommitFound {
    pub(crate) side: Side,
    pub(crate) generation: u64,
    pub(crate) at: u64,
    pub(crate) len: u64,
    pub(crate) closed: bool,
    pub(crate) commit: CommitRead,
}

/// What a store's file holds.
#[derive(Drop)]
pub(crate) enum StoreRead {
    /// The file is empty.
    Empty,
    /// It has a header with both gates closed, and no commit.
    Blank,
    Commit(CommitFound),
}

/// What the file of a store of at most `limit` bytes holds. NotAStore: it has bytes, but doesn't begin with the magic. Damaged:
/// it begins with the magic, and holds neither a good commit nor none.
pub(crate) fn read_store<D: Disk>(
    alloc: Global,
    disk: &mut D,
    limit: u64,
) -> Result<StoreRead, OpenRefusal>
    requires { limit ≤ 2 ^ 38 }
    ensures whole { IfOk result (IsReadWhole limit) }
    ensures shows { IfOk result (λ it. (file : List ℕ) → D.content disk.old ≡ Some file → Shows limit file it) }
    ensures not_a_store { IsErrOf result OpenRefusal.NotAStore → (file : List ℕ) → D.content disk.old ≡ Some file → IsOther file }
    ensures damaged { IsErrOf result OpenRefusal.Damaged → (file : List ℕ) → D.content disk.old ≡ Some file → Stands file magic × ((found : Option StoreCommit) → Found limit file found → ⊥) }
    ensures content { OnOk result (D.content disk.new ≡ D.content disk.old) }
    ensures looked { Looked (D.content disk.old) (D.content disk.new) (D.image disk.old) (D.image disk.new) (D.moment disk.old) (D.moment disk.new) (D.image_since disk.old) (D.image_since disk.new) }
    ensures cause { HasOpenCause (D.faults disk.old) (D.faults disk.new) result }
{
    let file_len = file_len(disk)?;
    let Some(header) = read_header(disk, file_len)? else {
        return Ok(StoreRead::Empty);
    };
    let Some(side) = counting_side(&header) else {
        return Ok(StoreRead::Blank);
    };
    let found = read_led(alloc, disk, file_len, limit, &header, side)?;
    Ok(StoreRead::Commit(found))
}

/// The length of the file, in bytes.
fn file_len<D: Disk>(disk: &mut D) -> Result<u64, OpenRefusal>
    ensures len { IfOk result (LenOf (D.content disk.new)) }
    ensures damaged { IsErrOf result OpenRefusal.Damaged → ⊥ }
    ensures not_a_store { IsErrOf result OpenRefusal.NotAStore → ⊥ }
    ensures content { OnOk result (D.content disk.new ≡ D.content disk.old) }
    ensures looked { Looked (D.content disk.old) (D.content disk.new) (D.image disk.old) (D.image disk.new) (D.moment disk.old) (D.moment disk.new) (D.image_since disk.old) (D.image_since disk.new) }
    ensures cause { HasOpenCause (D.faults disk.old) (D.faults disk.new) result }
{
    let len = disk.len()?;
    Ok(len)
}

/// The commit that the slot of this side, which counts, leads to. Damaged exactly where the file, whose length is known, holds
/// neither a good commit nor none.
fn read_led<D: Disk>(
    alloc: Global,
    disk: &mut D,
    file_len: u64,
    limit: u64,
    header: &Header,
    side: Side,
) -> Result<CommitFound, OpenRefusal>
    requires len { LenOf (D.content disk.old) file_len }
    requires limit { limit ≤ 2 ^ 38 }
    requires leads { (file : List ℕ) → D.content disk.old ≡ Some file → LeadsTo header.now side file }
    ensures whole { IfOk result (IsCommitWhole limit) }
    ensures shows { IfOk result (λ it. (file : List ℕ) → D.content disk.old ≡ Some file → ShowsCommit limit it file) }
    ensures not_a_store { IsErrOf result OpenRefusal.NotAStore → ⊥ }
    ensures damaged { IsErrOf result OpenRefusal.Damaged → (file : List ℕ) → D.content disk.old ≡ Some file → (found : Option StoreCommit) → Found limit file found → ⊥ }
    ensures content { OnOk result (D.content disk.new ≡ D.content disk.old) }
    ensures looked { Looked (D.content disk.old) (D.content disk.new) (D.image disk.old) (D.image disk.new) (D.moment disk.old) (D.moment disk.new) (D.image_since disk.old) (D.image_since disk.new) }
    ensures cause { HasOpenCause (D.faults disk.old) (D.faults disk.new) result }
{
    fitting_segments_are_blocks();
    let slot = header.slot(side);
    let idle = header.slot(side.other());
    numbers_fit(slot.generation, slot.at, slot.len);
    if slot.generation == 0 {
        return Err(OpenRefusal::Damaged);
    }
    if slot.generation > LAST_GENERATION {
        return Err(OpenRefusal::Damaged);
    }
    let commit = read_commit(alloc, disk, file_len, limit, slot.at, slot.len)?;
    Ok(CommitFound {
        side,
        generation: slot.generation,
        at: slot.at,
        len: slot.len,
        closed: !idle.is_open,
        commit,
    })
}

/// Says that the numbers of a slot are a u64 each. Does nothing.
fn numbers_fit(generation: u64, at: u64, len: u64)
    ensures generation { generation < 2 ^ 64 }
    ensures place { at < 2 ^ 64 }
    ensures length { len < 2 ^ 64 }
{}
