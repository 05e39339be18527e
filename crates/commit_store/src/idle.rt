//! The first step of a commit, and of a trim: the gate of the idle slot is closed.

ghost use Rattle.std.specs.Prelude.{◌≡◌, true, Option, IsOk, OnOk, OnErr};
ghost use Rattle.io_edges.specs.Faults.{HasCause};
ghost use Rattle.disk.specs.Stops.{IsTold};
ghost use Rattle.commit_store.specs.Saying.{StoreCommit, FoundAs};
ghost use Rattle.commit_store.specs.Known.{KeepsStore};
ghost use Rattle.commit_store.specs.Preparing.{with_closed};
ghost use Rattle.commit_store.specs.Stepping.{IsStep};

use crate::refusal::IdleRefusal;
use crate::saying::StoreSaying;
use crate::store::{Store, idle_slot};
use commit_images::close_gate;
use disk::Disk;

impl Store {
    /// Closes the gate of the idle slot, so that a torn write behind it can't be taken for a commit: none but a sync that
    /// succeeds makes it known to be closed. Where it is known to be closed no call is made. Takes no memory.
    pub fn idle_closed<D: Disk>(&mut self, disk: &mut D) -> Result<(), IdleRefusal>
        ensures closed { OnOk result (self.new ≡ with_closed self.old) }
        ensures unchanged { OnErr result (self.new ≡ self.old) }
        ensures none { self.old.closed ≡ true → IsOk result × (disk.new ≡ disk.old) }

        // Whatever it answers, all images keep the last commit, and a stop on the way leaves what one before would have left.
        ensures step { IsTold (D.content disk.new) → (found : Option StoreCommit) → KeepsStore self.old found (D.image disk.old)
            → IsStep self.new found found (FoundAs self.old.limit (D.image disk.old)) (D.image disk.new)
            (D.moment disk.old) (D.moment disk.new) (D.image_since disk.old) (D.image_since disk.new) }
        ensures told { IsTold (D.content disk.new) → IsTold (D.content disk.old) }
        ensures cause { HasCause (D.faults disk.old) (D.faults disk.new) result }
    {
        if self.closed {
            return Ok(());
        }
        let side = idle_slot(self.side);
        match close_gate::<StoreSaying, D>(disk, side) {
            Ok(()) => {
                self.closed = true;
                Ok(())
            }
            Err(_) => Err(IdleRefusal::DiskFault),
        }
    }
}
