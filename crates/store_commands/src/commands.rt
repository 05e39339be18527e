//! Commits and compactions.

ghost use Rattle.std.specs.Prelude.{◌≡◌, ◌≤◌, ◌⊎◌, ℕ, List, Option, All, length, IfOk, OnOk, IsErrOf};
ghost use Rattle.io_edges.specs.Faults.{Rose};
ghost use Rattle.disk.specs.Stops.{IsTold};
ghost use Rattle.index_core.specs.Kept.{IndexFits, layout_kept};
ghost use Rattle.layout_ids.specs.Items.{AllItems};
ghost use Rattle.reply_text.specs.Text.{line_of};
ghost use Rattle.reply_text.specs.declared.refusal.Refusal.{Refusal as Why};
ghost use Rattle.reply_text.specs.declared.refusal.Refusal.TheVariants.{DiskFailure};
ghost use Rattle.reply_text.specs.declared.reply.Reply.TheVariants as replies;
ghost use Rattle.commit_store.specs.Known.{KeepsStore};
ghost use Rattle.commit_store.specs.Saying.{StoreCommit, HasSource, IsReadBack};
ghost use Rattle.commit_store.specs.Stepping.{HoldsView};
ghost use Rattle.store_commands.specs.Commands.{AreKnown, FoundAsOrSealed, IsCommitted, IsMoved, KeepsOn};
ghost use Rattle.store_commands.specs.declared.TheConstants.{LONGEST_LINE};
ghost use Rattle.store_commands.specs.declared.not_done.NotDone.TheVariants.{Refused};

use crate::not_done::NotDone;
use crate::written::written;
use commit_store::Store;
use disk::Disk;
use index_core::IndexCore;
use mapping::Mapping;
use reply_text::Reply;

/// Commits what an index keeps: its buffer is sealed, and its view written to the store. Behind the reply each image of the disk
/// holds this view, under this mapping and this next number; where it is refused, or memory lacks, the last commit stays.
#[tactic(auto, using(crate::proofs::Short::short))]
pub fn commit<D: Disk>(
    mapping: &Mapping,
    index: &mut IndexCore,
    store: &mut Store,
    disk: &mut D,
) -> Result<Reply, NotDone>
    requires fits { IndexFits mapping.now index.old }
    // each block's source, also of a dead one, is read as the value whose text it is
    requires sources { AllItems HasSource (layout_kept index.old) }
    requires known { AreKnown (layout_kept index.old) store.old.known }
    requires read { All IsReadBack mapping.now.bodies }
    ensures ended { IsCommitted mapping.now result index.old index.new store.old store.new }
    ensures short { IfOk result (λ reply. length (line_of reply) ≤ LONGEST_LINE) }
    ensures short_refusal { (why : Why) → IsErrOf result (Refused why) → length (line_of (replies.Refused why)) ≤ LONGEST_LINE }
    ensures next { index.new.next ≡ index.old.next }
    ensures objects { index.new.objects ≡ index.old.objects }
    ensures fits { IndexFits mapping.now index.new }
    ensures known { AreKnown (layout_kept index.new) store.new.known }
    ensures limit { store.new.limit ≡ store.old.limit }

    // A stop on the way leaves what one before would have left, or the view, once the index is sealed; behind the reply each
    // leaves the view.
    ensures stores { IsTold (D.content disk.new) → (found : Option StoreCommit) → KeepsStore store.old found (D.image disk.old)
        → KeepsOn store.new (FoundAsOrSealed store.old.limit (D.image disk.old) mapping.now index.new) (D.image disk.new)
        (D.moment disk.old) (D.moment disk.new) (D.image_since disk.old) (D.image_since disk.new) }
    ensures holds { OnOk result (IsTold (D.content disk.new) → (found : Option StoreCommit) → KeepsStore store.old found (D.image disk.old)
        → (image : List ℕ) → D.image disk.new image → HoldsView store.old.limit mapping.now index.new.next index.new.entries image) }
    ensures told { IsTold (D.content disk.new) → IsTold (D.content disk.old) }
    ensures fault { IsErrOf result (Refused DiskFailure) → Rose (D.faults disk.old) (D.faults disk.new) }
    ensures no_fault { (D.faults disk.new ≡ D.faults disk.old) ⊎ IsErrOf result (Refused DiskFailure) }
{
    match written(mapping, index, store, disk, 0) {
        Ok(_) => Ok(Reply::Committed { next: index.next() }),
        Err(why) => Err(why),
    }
}

/// Commits what an index keeps, and moves segments towards the front of the file meanwhile: of the last commit's segments that
/// the view has, `most` are gone through by descending place. The reply says how many moved.
#[tactic(auto, using(crate::proofs::Short::short))]
pub fn compact<D: Disk>(
    mapping: &Mapping,
    index: &mut IndexCore,
    store: &mut Store,
    disk: &mut D,
    most: u64,
) -> Result<Reply, NotDone>
    requires fits { IndexFits mapping.now index.old }
    requires sources { AllItems HasSource (layout_kept index.old) }
    requires known { AreKnown (layout_kept index.old) store.old.known }
    requires read { All IsReadBack mapping.now.bodies }
    ensures ended { IsMoved mapping.now most result index.old index.new store.old store.new }
    ensures short { IfOk result (λ reply. length (line_of reply) ≤ LONGEST_LINE) }
    ensures short_refusal { (why : Why) → IsErrOf result (Refused why) → length (line_of (replies.Refused why)) ≤ LONGEST_LINE }
    ensures next { index.new.next ≡ index.old.next }
    ensures objects { index.new.objects ≡ index.old.objects }
    ensures fits { IndexFits mapping.now index.new }
    ensures known { AreKnown (layout_kept index.new) store.new.known }
    ensures limit { store.new.limit ≡ store.old.limit }
    ensures stores { IsTold (D.content disk.new) → (found : Option StoreCommit) → KeepsStore store.old found (D.image disk.old)
        → KeepsOn store.new (FoundAsOrSealed store.old.limit (D.image disk.old) mapping.now index.new) (D.image disk.new)
        (D.moment disk.old) (D.moment disk.new) (D.image_since disk.old) (D.image_since disk.new) }
    ensures holds { OnOk result (IsTold (D.content disk.new) → (found : Option StoreCommit) → KeepsStore store.old found (D.image disk.old)
        → (image : List ℕ) → D.image disk.new image → HoldsView store.old.limit mapping.now index.new.next index.new.entries image) }
    ensures told { IsTold (D.content disk.new) → IsTold (D.content disk.old) }
    ensures fault { IsErrOf result (Refused DiskFailure) → Rose (D.faults disk.old) (D.faults disk.new) }
    ensures no_fault { (D.faults disk.new ≡ D.faults disk.old) ⊎ IsErrOf result (Refused DiskFailure) }
{
    match written(mapping, index, store, disk, most) {
        Ok(moved) => Ok(Reply::Compacted {
            moved,
            next: index.next(),
        }),
        Err(why) => Err(why),
    }
}
