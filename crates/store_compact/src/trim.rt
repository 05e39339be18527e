//! The cut of a store's file behind its last commit.

ghost use Rattle.std.specs.Prelude.{◌≡◌, ◌≤◌, ℕ, List, Option, length, IfOk};
ghost use Rattle.io_edges.specs.Faults.{HasCause};
ghost use Rattle.disk.specs.Stops.{IsTold};
ghost use Rattle.commit_store.specs.Saying.{StoreCommit, FoundAs};
ghost use Rattle.commit_store.specs.Known.{KeepsStore};
ghost use Rattle.commit_store.specs.Preparing.{end_named};
ghost use Rattle.commit_store.specs.Stepping.{IsStep};
ghost use Rattle.store_compact.specs.Compacting.{IsUntried};

use commit_images::cut_behind;
use commit_store::{IdleRefusal, Store, StoreSaying};
use disk::Disk;

/// Cuts the file behind what the last commit names, and gives its length then, in bytes.
pub fn trimmed<D: Disk>(store: &mut Store, disk: &mut D) -> Result<u64, IdleRefusal>
    ensures end { IfOk result (λ len. len ≡ end_named store.old.named) }
    ensures cut { IfOk result (λ len. IsTold (D.content disk.new) → (image : List ℕ) → D.image disk.new image → length image ≤ len) }
    ensures left { IsUntried store.old store.new }

    // Whatever it answers, all images keep the last commit, and a stop on the way leaves what one before would have left.
    ensures step { IsTold (D.content disk.new) → (found : Option StoreCommit) → KeepsStore store.old found (D.image disk.old)
        → IsStep store.new found found (FoundAs store.old.limit (D.image disk.old)) (D.image disk.new)
        (D.moment disk.old) (D.moment disk.new) (D.image_since disk.old) (D.image_since disk.new) }
    ensures told { IsTold (D.content disk.new) → IsTold (D.content disk.old) }
    ensures cause { HasCause (D.faults disk.old) (D.faults disk.new) result }
{
    store.idle_closed(disk)?;
    let len = store.named_end();
    match cut_behind::<StoreSaying, D>(disk, len) {
        Ok(()) => Ok(len),
        Err(_) => Err(IdleRefusal::DiskFault),
    }
}
