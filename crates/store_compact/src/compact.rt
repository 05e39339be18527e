//! A commit that moves segments.

ghost use Rattle.std.specs.Prelude.{◌≡◌, ◌⊎◌, ℕ, List, Option, Some, None, IfOk, OnOk, OnErr, IsErrOf};
ghost use Rattle.io_edges.specs.Faults.{Rose};
ghost use Rattle.disk.specs.Stops.{IsTold};
ghost use Rattle.extent_pool.specs.Placing.{Room};
ghost use Rattle.commit_store.specs.Saying.{StoreCommit, last_generation};
ghost use Rattle.commit_store.specs.Known.{KeepsStore};
ghost use Rattle.commit_store.specs.Preparing.{IsCommittable, IsLeft, room_of};
ghost use Rattle.commit_store.specs.Stepping.{FoundAsOrView, IsDone, IsStep};
ghost use Rattle.store_compact.specs.Compacting.{IsCompacted, IsUntried};

use crate::moves::offer_last;
use commit_store::{CommitRefusal, Store};
use disk::Disk;
use extent_pool::order_makes_no_difference;
use mapping::Mapping;
use segment_view::View;

/// Commits the view, as `Store::commit` does, and moves segments towards the front of the file meanwhile: of the last commit's
/// segments that the view has, `most` are gone through by descending place, and each that has a hole before it, where it finds
/// room, is written there. Gives how many moved; 0 for `most` commits alone.
pub fn compacted<D: Disk>(
    store: &mut Store,
    disk: &mut D,
    mapping: &Mapping,
    next: u64,
    view: &View,
    most: u64,
) -> Result<u64, CommitRefusal>
    requires { IsCommittable store.old mapping.now next view.now }
    ensures stored { IfOk result (λ count. IsCompacted store.old mapping.now view.now most count store.new) }
    ensures done { OnOk result (IsTold (D.content disk.new) → (found : Option StoreCommit) → KeepsStore store.old found (D.image disk.old)
        → IsDone store.old.limit store.new found mapping.now next view.now (FoundAsOrView store.old.limit (D.image disk.old) mapping.now next view.now) (D.image disk.new)
        (D.moment disk.old) (D.moment disk.new) (D.image_since disk.old) (D.image_since disk.new)) }

    // Where it fails all images keep the last commit.
    ensures failed { OnErr result (IsTold (D.content disk.new) → (found : Option StoreCommit) → KeepsStore store.old found (D.image disk.old)
        → IsStep store.new found found (FoundAsOrView store.old.limit (D.image disk.old) mapping.now next view.now) (D.image disk.new)
        (D.moment disk.old) (D.moment disk.new) (D.image_since disk.old) (D.image_since disk.new)) }
    ensures left { OnErr result (IsLeft store.old store.new) }

    // There is no generation left, and then no call is made; or there is no room. Nothing is tried then, nor where memory runs
    // out; a disk fails before anything is tried, or there was room.
    ensures full { IsErrOf result CommitRefusal.StoreFull → IsUntried store.old store.new × ((store.old.tried ≡ last_generation) ⊎ (room_of store.old mapping.now view.now ≡ None)) }
    ensures last_generation { store.old.tried ≡ last_generation → IsErrOf result CommitRefusal.StoreFull × (disk.new ≡ disk.old) × (store.new ≡ store.old) }
    ensures no_memory { IsErrOf result CommitRefusal.NoMemory → IsUntried store.old store.new }
    ensures fault_left { IsErrOf result CommitRefusal.DiskFault → IsUntried store.old store.new ⊎ ((room : Room) × (room_of store.old mapping.now view.now ≡ Some room)) }

    ensures told { IsTold (D.content disk.new) → IsTold (D.content disk.old) }
    ensures fault { IsErrOf result CommitRefusal.DiskFault → Rose (D.faults disk.old) (D.faults disk.new) }
    ensures no_fault { (D.faults disk.new ≡ D.faults disk.old) ⊎ IsErrOf result CommitRefusal.DiskFault }
{
    order_makes_no_difference();
    let _limit = store.limit();
    let mut prepared = store.prepared(disk, mapping, next, view)?;
    let count = offer_last(store, &mut prepared, most)?;
    store.finished(disk, prepared)?;
    Ok(count)
}
