//! The view of an index, written to a store.

ghost use Rattle.std.specs.Prelude.{◌≡◌, ◌⊎◌, ℕ, List, Option, All, OnOk, IsErrOf};
ghost use Rattle.io_edges.specs.Faults.{Rose};
ghost use Rattle.disk.specs.Stops.{IsTold};
ghost use Rattle.index_core.specs.Kept.{IndexFits, IndexState, layout_kept};
ghost use Rattle.layout.specs.Layout.{sealed};
ghost use Rattle.layout_ids.specs.Items.{AllItems};
ghost use Rattle.reply_text.specs.declared.refusal.Refusal.TheVariants.{DiskFailure};
ghost use Rattle.commit_store.specs.Known.{KeepsStore};
ghost use Rattle.commit_store.specs.Saying.{StoreCommit, HasSource, IsReadBack};
ghost use Rattle.commit_store.specs.Stepping.{HoldsView};
ghost use Rattle.store_commands.specs.Commands.{AreKnown, FoundAsOrSealed, HasEnded, KeepsOn, not_done_by};
ghost use Rattle.store_commands.specs.Ready.{IsReady};
ghost use Rattle.store_commands.specs.declared.not_done.NotDone.TheVariants.{Refused};

use crate::not_done::NotDone;
use crate::ready::view_is_committable;
use commit_store::{CommitRefusal, Store};
use disk::Disk;
use index_core::IndexCore;
use mapping::Mapping;
use reply_text::Refusal;
use store_compact::compacted;

/// Seals an index and commits its view; so many segments are gone through, and how many of them moved is given.
pub(crate) fn written<D: Disk>(
    mapping: &Mapping,
    index: &mut IndexCore,
    store: &mut Store,
    disk: &mut D,
    most: u64,
) -> Result<u64, NotDone>
    requires fits { IndexFits mapping.now index.old }
    requires sources { AllItems HasSource (layout_kept index.old) }
    requires known { AreKnown (layout_kept index.old) store.old.known }
    requires read { All IsReadBack mapping.now.bodies }
    ensures ended { HasEnded mapping.now most result index.old index.new store.old store.new }
    ensures next { index.new.next ≡ index.old.next }
    ensures objects { index.new.objects ≡ index.old.objects }
    ensures fits { IndexFits mapping.now index.new }
    ensures known { AreKnown (layout_kept index.new) store.new.known }
    ensures limit { store.new.limit ≡ store.old.limit }
    ensures stores { IsTold (D.content disk.new) → (found : Option StoreCommit) → KeepsStore store.old found (D.image disk.old)
        → KeepsOn store.new (FoundAsOrSealed store.old.limit (D.image disk.old) mapping.now index.new) (D.image disk.new)
        (D.moment disk.old) (D.moment disk.new) (D.image_since disk.old) (D.image_since disk.new) }
    ensures holds { OnOk result (IsTold (D.content disk.new) → (found : Option StoreCommit) → KeepsStore store.old found (D.image disk.old)
        → (image : List ℕ) → D.image disk.new image → HoldsView store.old.limit mapping.now index.new.next index.new.entries image) }
    ensures told { IsTold (D.content disk.new) → IsTold (D.content disk.old) }
    ensures fault { IsErrOf result (Refused DiskFailure) → Rose (D.faults disk.old) (D.faults disk.new) }
    ensures no_fault { (D.faults disk.new ≡ D.faults disk.old) ⊎ IsErrOf result (Refused DiskFailure) }
{
    index.seal(mapping)?;
    committed(mapping, index, store, disk, most)
}

/// Commits the view of an index with an empty buffer.
fn committed<D: Disk>(
    mapping: &Mapping,
    index: &IndexCore,
    store: &mut Store,
    disk: &mut D,
    most: u64,
) -> Result<u64, NotDone>
    requires { IsReady mapping.now index.now store.old }
    ensures ended { (before : IndexState) → layout_kept index.now ≡ sealed (layout_kept before) → HasEnded mapping.now most result before index.now store.old store.new }
    ensures known { AreKnown (layout_kept index.now) store.new.known }
    ensures limit { store.new.limit ≡ store.old.limit }
    ensures stores { IsTold (D.content disk.new) → (found : Option StoreCommit) → KeepsStore store.old found (D.image disk.old)
        → KeepsOn store.new (FoundAsOrSealed store.old.limit (D.image disk.old) mapping.now index.now) (D.image disk.new)
        (D.moment disk.old) (D.moment disk.new) (D.image_since disk.old) (D.image_since disk.new) }
    ensures holds { OnOk result (IsTold (D.content disk.new) → (found : Option StoreCommit) → KeepsStore store.old found (D.image disk.old)
        → (image : List ℕ) → D.image disk.new image → HoldsView store.old.limit mapping.now index.now.next index.now.entries image) }
    ensures told { IsTold (D.content disk.new) → IsTold (D.content disk.old) }
    ensures fault { IsErrOf result (Refused DiskFailure) → Rose (D.faults disk.old) (D.faults disk.new) }
    ensures no_fault { (D.faults disk.new ≡ D.faults disk.old) ⊎ IsErrOf result (Refused DiskFailure) }
{
    view_is_committable(mapping, index, store);
    match compacted(store, disk, mapping, index.next(), index.view(), most) {
        Ok(moved) => Ok(moved),
        Err(why) => Err(not_done(why)),
    }
}

/// Why a view isn't committed.
fn not_done(why: CommitRefusal) -> NotDone
    ensures { result ≡ not_done_by why }
{
    match why {
        CommitRefusal::DiskFault => NotDone::Refused(Refusal::DiskFailure),
        CommitRefusal::StoreFull => NotDone::Refused(Refusal::StoreFull),
        CommitRefusal::NoMemory => NotDone::NoMemory,
    }
}
