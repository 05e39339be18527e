//! Trims.

ghost use Rattle.std.specs.Prelude.{◌≡◌, ◌≤◌, ◌⊎◌, ℕ, List, Option, length, IfOk, OnOk, IsErrOf};
ghost use Rattle.io_edges.specs.Faults.{Rose};
ghost use Rattle.disk.specs.Stops.{IsTold};
ghost use Rattle.index_core.specs.Kept.{IndexFits, layout_kept};
ghost use Rattle.reply_text.specs.Text.{line_of};
ghost use Rattle.reply_text.specs.declared.refusal.Refusal.{Refusal as Why};
ghost use Rattle.reply_text.specs.declared.refusal.Refusal.TheVariants.{DiskFailure};
ghost use Rattle.reply_text.specs.declared.reply.Reply.TheVariants as replies;
ghost use Rattle.commit_store.specs.Known.{KeepsStore};
ghost use Rattle.commit_store.specs.Preparing.{end_named};
ghost use Rattle.commit_store.specs.Saying.{StoreCommit, FoundAs};
ghost use Rattle.store_commands.specs.Commands.{AreKnown, IsTrimmed, KeepsOn};
ghost use Rattle.store_commands.specs.declared.TheConstants.{LONGEST_LINE};
ghost use Rattle.store_commands.specs.declared.not_done.NotDone.TheVariants.{Refused};

use crate::not_done::NotDone;
use commit_store::Store;
use disk::Disk;
use index_core::IndexCore;
use mapping::Mapping;
use reply_text::{Refusal, Reply};
use store_compact::trimmed;

/// Seals an index, and cuts the store's file behind what the last commit names. The reply says its bytes then. The last commit
/// stays, whatever is answered.
#[tactic(auto, using(crate::proofs::Short::short))]
pub fn trim<D: Disk>(
    mapping: &Mapping,
    index: &mut IndexCore,
    store: &mut Store,
    disk: &mut D,
) -> Result<Reply, NotDone>
    requires fits { IndexFits mapping.now index.old }
    requires known { AreKnown (layout_kept index.old) store.old.known }
    ensures ended { IsTrimmed result index.old index.new store.old store.new }
    ensures short { IfOk result (λ reply. length (line_of reply) ≤ LONGEST_LINE) }
    ensures short_refusal { (why : Why) → IsErrOf result (Refused why) → length (line_of (replies.Refused why)) ≤ LONGEST_LINE }
    ensures next { index.new.next ≡ index.old.next }
    ensures objects { index.new.objects ≡ index.old.objects }
    ensures fits { IndexFits mapping.now index.new }
    ensures known { AreKnown (layout_kept index.new) store.new.known }
    ensures limit { store.new.limit ≡ store.old.limit }
    ensures stores { IsTold (D.content disk.new) → (found : Option StoreCommit) → KeepsStore store.old found (D.image disk.old)
        → KeepsOn store.new (FoundAs store.old.limit (D.image disk.old)) (D.image disk.new)
        (D.moment disk.old) (D.moment disk.new) (D.image_since disk.old) (D.image_since disk.new) }
    ensures cut { OnOk result (IsTold (D.content disk.new) → (image : List ℕ) → D.image disk.new image → length image ≤ end_named store.old.named) }
    ensures told { IsTold (D.content disk.new) → IsTold (D.content disk.old) }
    ensures fault { IsErrOf result (Refused DiskFailure) → Rose (D.faults disk.old) (D.faults disk.new) }
    ensures no_fault { (D.faults disk.new ≡ D.faults disk.old) ⊎ IsErrOf result (Refused DiskFailure) }
{
    index.seal(mapping)?;
    match trimmed(store, disk) {
        Ok(bytes) => Ok(Reply::Trimmed { bytes }),
        Err(_) => Err(NotDone::Refused(Refusal::DiskFailure)),
    }
}
