//! The calls on a disk that make a commit, each as a step: what it keeps, and what a stop in it leaves.
//!
//! Their clauses are said of each last commit `active` under which the store keeps its images: where the disk tells its content
//! behind the call, `KeepsCommit` before it gives a `Step` over it, both where it failed and where it didn't. Each but
//! `write_extents` ends with a sync; what that wrote is synced with the slot.

ghost use Rattle.std.specs.Prelude.{◌≡◌, ◌≤◌, ℕ, List, Option, Some, true, false, length, map, OnOk, OnErr};
ghost use Rattle.io_edges.specs.Faults.{HasCause};
ghost use Rattle.disk.specs.Stops.{IsTold};
ghost use Rattle.store_text.specs.Pieces.{AllStand};
ghost use Rattle.store_text.specs.Header.{header_size, slot};
ghost use Rattle.commit_images.specs.Commits.{Commit, Finds, slot_of};
ghost use Rattle.commit_images.specs.Keeping.{idle, is_first, AreFree, FoundAs, IsNext, KeepsCommit, LastEndsBy, extents_of};
ghost use Rattle.commit_images.specs.Steps.{IsReady, ShowsEither, ShowsLast, Step};
ghost use Rattle.commit_images.specs.Writes.{piece_of, TakesEach};

use crate::block::Block;
use crate::saying::Saying;
use crate::writes::write_each;
use disk::Disk;
use io_edges::Failed;
use store_text::{OPEN_BYTE, Side, slot_bytes};

/// The byte of a gate that a commit closes.
const CLOSED_BYTE: u8 = 0;

/// Closes the gate of the idle slot, which isn't known to be closed: it writes 00 there and syncs. Each image on the way shows
/// what one of before shows. Failed only where one of the two calls failed; the gate then still isn't known to be closed.
pub fn close_gate<S: Saying, D: Disk>(disk: &mut D, side: Side) -> Result<(), Failed>
    ensures done { OnOk result (IsTold (D.content disk.new) → (limit : ℕ) (active : Option (Commit S.Said)) → side ≡ idle active
        → KeepsCommit (S.IsGood limit) active false (D.image disk.old)
        → Step (S.IsGood limit) active active true (FoundAs (S.IsGood limit) (D.image disk.old)) (D.image disk.new)
        (D.moment disk.old) (D.moment disk.new) (D.image_since disk.old) (D.image_since disk.new)) }
    ensures failed { OnErr result (IsTold (D.content disk.new) → (limit : ℕ) (active : Option (Commit S.Said)) → side ≡ idle active
        → KeepsCommit (S.IsGood limit) active false (D.image disk.old)
        → Step (S.IsGood limit) active active false (FoundAs (S.IsGood limit) (D.image disk.old)) (D.image disk.new)
        (D.moment disk.old) (D.moment disk.new) (D.image_since disk.old) (D.image_since disk.new)) }
    ensures told { IsTold (D.content disk.new) → IsTold (D.content disk.old) }
    ensures cause { HasCause (D.faults disk.old) (D.faults disk.new) result }
{
    let offset = side.gate_at();
    disk.write_at(offset, &[CLOSED_BYTE])?;
    disk.sync()?;
    Ok(())
}

/// Writes new extents, in order, while the idle gate is closed: behind the header, and apart from all that the last commit
/// names. Each image on the way shows the last commit. They are not synced. Failed only where a write failed; the later extents
/// were not written then.
pub fn write_extents<S: Saying, D: Disk>(disk: &mut D, extents: &[Block]) -> Result<(), Failed>
    ensures content { OnOk result (TakesEach (map piece_of extents.now) (D.content disk.old) (D.content disk.new)) }
    ensures step { IsTold (D.content disk.new) → (limit : ℕ) (active : Option (Commit S.Said)) → AreFree active (map piece_of extents.now)
        → KeepsCommit (S.IsGood limit) active true (D.image disk.old)
        → Step (S.IsGood limit) active active true (ShowsLast (S.IsGood limit) active) (D.image disk.new)
        (D.moment disk.old) (D.moment disk.new) (D.image_since disk.old) (D.image_since disk.new) }
    ensures told { IsTold (D.content disk.new) → IsTold (D.content disk.old) }
    ensures cause { HasCause (D.faults disk.old) (D.faults disk.new) result }
{
    write_each(disk, extents)?;
    Ok(())
}

/// Writes the idle slot, with a generation and the place and the length of a record in bytes, while its gate is closed, and
/// syncs. Each image on the way shows the last commit. Behind it the slot stands in each image, and what stood to be read before
/// it, so that a commit whose extents were written is ready. Failed only where one of the two calls failed.
pub fn write_slot<S: Saying, D: Disk>(
    disk: &mut D,
    side: Side,
    generation: u64,
    at: u64,
    len: u64,
) -> Result<(), Failed>
    ensures ready { OnOk result (IsTold (D.content disk.new) → (limit : ℕ) (active : Option (Commit S.Said)) (new : Commit S.Said) → side ≡ idle active
        → IsNext active new → slot side generation at len ≡ slot_of new → KeepsCommit (S.IsGood limit) active true (D.image disk.old)
        → ((file : List ℕ) → D.content disk.old ≡ Some file → AllStand (extents_of new) file) → IsReady new (D.image disk.new)) }
    ensures step { IsTold (D.content disk.new) → (limit : ℕ) (active : Option (Commit S.Said)) → side ≡ idle active
        → KeepsCommit (S.IsGood limit) active true (D.image disk.old)
        → Step (S.IsGood limit) active active true (ShowsLast (S.IsGood limit) active) (D.image disk.new)
        (D.moment disk.old) (D.moment disk.new) (D.image_since disk.old) (D.image_since disk.new) }
    ensures told { IsTold (D.content disk.new) → IsTold (D.content disk.old) }
    ensures cause { HasCause (D.faults disk.old) (D.faults disk.new) result }
{
    let offset = side.slot_at();
    let slot = slot_bytes(generation, at, len);
    disk.write_at(offset, &slot)?;
    disk.sync()?;
    Ok(())
}

/// Opens the gate of a commit that is ready, in the idle slot, and syncs: done, it is the last commit, and each image shows it.
/// On the way an image shows the last commit or this one. Failed only where one of the two calls failed; the gate then isn't
/// known to be closed.
pub fn open_gate<S: Saying, D: Disk>(disk: &mut D, side: Side) -> Result<(), Failed>
    ensures done { OnOk result (IsTold (D.content disk.new) → (limit : ℕ) (active : Option (Commit S.Said)) (new : Commit S.Said) → side ≡ idle active
        → IsNext active new → S.IsGood limit new → IsReady new (D.image disk.old) → KeepsCommit (S.IsGood limit) active true (D.image disk.old)
        → Step (S.IsGood limit) active (Some new) (is_first active) (ShowsEither (S.IsGood limit) active new) (D.image disk.new)
        (D.moment disk.old) (D.moment disk.new) (D.image_since disk.old) (D.image_since disk.new)) }
    ensures shown { OnOk result (IsTold (D.content disk.new) → (limit : ℕ) (active : Option (Commit S.Said)) (new : Commit S.Said) → side ≡ idle active
        → IsNext active new → S.IsGood limit new → IsReady new (D.image disk.old) → KeepsCommit (S.IsGood limit) active true (D.image disk.old)
        → (image : List ℕ) → D.image disk.new image → Finds (S.IsGood limit) image new) }
    ensures failed { OnErr result (IsTold (D.content disk.new) → (limit : ℕ) (active : Option (Commit S.Said)) (new : Commit S.Said) → side ≡ idle active
        → IsNext active new → S.IsGood limit new → IsReady new (D.image disk.old) → KeepsCommit (S.IsGood limit) active true (D.image disk.old)
        → Step (S.IsGood limit) active active false (ShowsEither (S.IsGood limit) active new) (D.image disk.new)
        (D.moment disk.old) (D.moment disk.new) (D.image_since disk.old) (D.image_since disk.new)) }
    ensures told { IsTold (D.content disk.new) → IsTold (D.content disk.old) }
    ensures cause { HasCause (D.faults disk.old) (D.faults disk.new) result }
{
    let offset = side.gate_at();
    disk.write_at(offset, &[OPEN_BYTE])?;
    disk.sync()?;
    Ok(())
}

/// Cuts the file behind the last commit, in bytes, while the idle gate is closed, and syncs. Each image on the way shows the
/// last commit. Behind it no image is longer. Failed only where one of the two calls failed.
pub fn cut_behind<S: Saying, D: Disk>(disk: &mut D, len: u64) -> Result<(), Failed>
    ensures cut { OnOk result (IsTold (D.content disk.new) → (image : List ℕ) → D.image disk.new image → length image ≤ len) }
    ensures step { IsTold (D.content disk.new) → (limit : ℕ) (active : Option (Commit S.Said)) → header_size ≤ len → LastEndsBy len active
        → KeepsCommit (S.IsGood limit) active true (D.image disk.old)
        → Step (S.IsGood limit) active active true (ShowsLast (S.IsGood limit) active) (D.image disk.new)
        (D.moment disk.old) (D.moment disk.new) (D.image_since disk.old) (D.image_since disk.new) }
    ensures told { IsTold (D.content disk.new) → IsTold (D.content disk.old) }
    ensures cause { HasCause (D.faults disk.old) (D.faults disk.new) result }
{
    disk.cut(len)?;
    disk.sync()?;
    Ok(())
}
