//! The end of a commit: what is new is written and synced, and the gate of the idle slot is opened.

ghost use Rattle.std.specs.Prelude.{◌≡◌, ◌+◌, ◌<◌, ◌⊎◌, ◌∷◌, ◌++◌, [], true, ℕ, List, Option, Some, map, filter, IfOk, OnOk, OnErr, IsErrOf};
ghost use Rattle.std.specs.Option.{is_none};
ghost use Rattle.io_edges.specs.Faults.{HasCause, Rose};
ghost use Rattle.disk.specs.Stops.{IsTold};
ghost use Rattle.commit_images.specs.Keeping as keeping;
ghost use Rattle.commit_images.specs.Steps.{IsReady, ShowsEither, ShowsLast, Step};
ghost use Rattle.store_text.specs.Header.{slot};
ghost use Rattle.commit_images.specs.Commits.{slot_of};
ghost use Rattle.commit_images.specs.Writes.{piece_of as block_piece};
ghost use Rattle.commit_store.specs.Saying.{StoreCommit, IsGood, FoundAs};
ghost use Rattle.commit_store.specs.Known.{KeepsStore};
ghost use Rattle.commit_store.specs.Preparing.{IsCommittable, IsPreparedBy, IsPreparedFor, IsCommitOf, SaysView, IsLeft, PlannedSegment, committed, known_of, moves, piece_of, room_of, stays, with_closed};
ghost use Rattle.commit_store.specs.Planned.{all_planned, planned_seen};
ghost use Rattle.commit_store.specs.Stepping.{IsDone, IsStep, FoundAsOrView, Holds, HoldsEither};
ghost use Rattle.commit_store.specs.Ready.{IsWriting, IsWrittenBy};

use crate::known::KnownSegment;
use crate::prepared::{Planned, Prepared};
use crate::record::record_bytes;
use crate::refusal::{CommitRefusal, FinishRefusal, NoMemory};
use crate::saying::StoreSaying;
use crate::store::{Store, idle_slot};
use commit_images::{Block, open_gate, write_extents, write_slot};
use disk::Disk;
use extent_pool::{Extent, ExtentList};
use io_edges::Failed;
use mapping::Mapping;
use segment_builder::fitting_segments_are_blocks;
use segment_view::View;
use std::alloc::Global;
use store_text::{Side, record_has_one_text};

/// The greatest generation that a commit may have.
const LAST_GENERATION: u64 = 1 << 62;

impl Store {
    /// Makes a commit of the view ready to be written: closes the idle gate, and finds room for what is new. Nothing of the
    /// commit is written, and nothing that it needs is left to be asked for behind a call of the disk.
    pub fn prepared<D: Disk>(
        &mut self,
        disk: &mut D,
        mapping: &Mapping,
        next: u64,
        view: &View,
    ) -> Result<Prepared, CommitRefusal>
        requires { IsCommittable self.old mapping.now next view.now }
        ensures prepared { IfOk result (λ prepared. IsPreparedFor self.old mapping.now next view.now prepared) }
        ensures by { IfOk result (λ prepared. IsPreparedBy self.new prepared) }
        ensures says { IfOk result (λ prepared. (c : StoreCommit) → IsCommitOf self.new prepared c → SaysView mapping.now next view.now c) }
        ensures closed { OnOk result (self.new ≡ with_closed self.old) }
        ensures left { (self.new ≡ self.old) ⊎ (self.new ≡ with_closed self.old) }

        // There is no generation left, and then no call is made; or there is no room.
        ensures full { IsErrOf result CommitRefusal.StoreFull → (self.old.tried ≡ LAST_GENERATION) ⊎ (room_of self.old mapping.now view.now ≡ None) }
        ensures last_generation { self.old.tried ≡ LAST_GENERATION → IsErrOf result CommitRefusal.StoreFull × (disk.new ≡ disk.old) × (self.new ≡ self.old) }

        ensures step { IsTold (D.content disk.new) → (found : Option StoreCommit) → KeepsStore self.old found (D.image disk.old)
            → IsStep self.new found found (FoundAs self.old.limit (D.image disk.old)) (D.image disk.new)
            (D.moment disk.old) (D.moment disk.new) (D.image_since disk.old) (D.image_since disk.new) }
        ensures told { IsTold (D.content disk.new) → IsTold (D.content disk.old) }
        ensures fault { IsErrOf result CommitRefusal.DiskFault → Rose (D.faults disk.old) (D.faults disk.new) }
        ensures no_fault { (D.faults disk.new ≡ D.faults disk.old) ⊎ IsErrOf result CommitRefusal.DiskFault }
    {
        fitting_segments_are_blocks();
        record_has_one_text();
        if self.tried == LAST_GENERATION {
            return Err(CommitRefusal::StoreFull);
        }
        self.idle_closed(disk)?;
        self.plan(mapping, next, view)
    }

    /// Writes a commit that this store prepared, and makes it the last one: its new segments and its record, then its slot, and
    /// behind a sync of these its gate. Each image then holds it. After a refusal the last commit is the one of before.
    pub fn finished<D: Disk>(
        &mut self,
        disk: &mut D,
        prepared: Prepared,
    ) -> Result<(), FinishRefusal>
        requires { IsPreparedBy self.old prepared }
        ensures committed { OnOk result (self.new ≡ committed self.old prepared) }
        ensures left { OnErr result (IsLeft self.old self.new) }

        // Behind it the commit is the last one, and each image holds it; a stop on the way leaves the one or the other.
        ensures done { OnOk result (IsTold (D.content disk.new) → (found : Option StoreCommit) (c : StoreCommit) → IsCommitOf self.old prepared c
            → KeepsStore self.old found (D.image disk.old)
            → IsStep self.new found (Some c) (HoldsEither self.old.limit found c) (D.image disk.new)
            (D.moment disk.old) (D.moment disk.new) (D.image_since disk.old) (D.image_since disk.new)) }
        ensures holds { OnOk result (IsTold (D.content disk.new) → (found : Option StoreCommit) (c : StoreCommit) → IsCommitOf self.old prepared c
            → KeepsStore self.old found (D.image disk.old) → (image : List ℕ) → D.image disk.new image → Holds self.old.limit c image) }

        // Where it fails all images keep the last commit.
        ensures failed { OnErr result (IsTold (D.content disk.new) → (found : Option StoreCommit) (c : StoreCommit) → IsCommitOf self.old prepared c
            → KeepsStore self.old found (D.image disk.old)
            → IsStep self.new found found (HoldsEither self.old.limit found c) (D.image disk.new)
            (D.moment disk.old) (D.moment disk.new) (D.image_since disk.old) (D.image_since disk.new)) }
        ensures told { IsTold (D.content disk.new) → IsTold (D.content disk.old) }
        ensures no_memory { IsErrOf result FinishRefusal.NoMemory → (disk.new ≡ disk.old) × (self.new ≡ self.old) }
        ensures fault { IsErrOf result FinishRefusal.DiskFault → Rose (D.faults disk.old) (D.faults disk.new) }
        ensures no_fault { OnOk result (D.faults disk.new ≡ D.faults disk.old) }
    {
        let Prepared {
            bodies,
            dynamic,
            next,
            segments,
            record_extent,
            pool: _pool,
        } = prepared;
        let text = record_bytes(self.alloc, bodies, dynamic, next, segments.as_slice())?;
        let named = named_by(self.alloc, record_extent, segments.as_slice())?;
        let known = known_by(self.alloc, segments.as_slice())?;
        let blocks = new_blocks(
            self.alloc,
            segments.as_slice(),
            record_extent,
            text.as_slice(),
        )?;
        self.written(disk, blocks.as_slice(), record_extent)?;
        self.side = Some(idle_slot(self.side));
        self.known = known;
        self.named = named;
        Ok(())
    }

    /// Lets a commit that this store prepared go. Its new extents are free again, since no other value knew of them.
    pub fn dropped(&mut self, prepared: Prepared)
        requires { IsPreparedBy self.old prepared }
        ensures { self.new ≡ self.old }
    {
        drop(prepared);
    }

    /// Commits the view: `prepared`, and then `finished`.
    pub fn commit<D: Disk>(
        &mut self,
        disk: &mut D,
        mapping: &Mapping,
        next: u64,
        view: &View,
    ) -> Result<(), CommitRefusal>
        requires { IsCommittable self.old mapping.now next view.now }
        ensures done { OnOk result (IsTold (D.content disk.new) → (found : Option StoreCommit) → KeepsStore self.old found (D.image disk.old)
            → IsDone self.old.limit self.new found mapping.now next view.now (FoundAsOrView self.old.limit (D.image disk.old) mapping.now next view.now) (D.image disk.new)
            (D.moment disk.old) (D.moment disk.new) (D.image_since disk.old) (D.image_since disk.new)) }

        // Where it fails all images keep the last commit.
        ensures failed { OnErr result (IsTold (D.content disk.new) → (found : Option StoreCommit) → KeepsStore self.old found (D.image disk.old)
            → IsStep self.new found found (FoundAsOrView self.old.limit (D.image disk.old) mapping.now next view.now) (D.image disk.new)
            (D.moment disk.old) (D.moment disk.new) (D.image_since disk.old) (D.image_since disk.new)) }
        ensures left { OnErr result (IsLeft self.old self.new) }
        ensures full { IsErrOf result CommitRefusal.StoreFull → (self.old.tried ≡ LAST_GENERATION) ⊎ (room_of self.old mapping.now view.now ≡ None) }
        ensures last_generation { self.old.tried ≡ LAST_GENERATION → IsErrOf result CommitRefusal.StoreFull × (disk.new ≡ disk.old) }
        ensures told { IsTold (D.content disk.new) → IsTold (D.content disk.old) }
        ensures fault { IsErrOf result CommitRefusal.DiskFault → Rose (D.faults disk.old) (D.faults disk.new) }
    {
        let prepared = self.prepared(disk, mapping, next, view)?;
        self.finished(disk, prepared)?;
        Ok(())
    }

    /// The calls of `finished` on the disk: what is new, then the slot, and behind a sync of both the gate. The generation counts
    /// as tried before its slot is written, and the gate as open before it is.
    fn written<D: Disk>(
        &mut self,
        disk: &mut D,
        blocks: &[Block],
        place: Extent,
    ) -> Result<(), Failed>
        requires closed { self.old.closed ≡ true }
        requires below { self.old.tried < LAST_GENERATION }
        ensures written { OnOk result (self.new ≡ record self.old { tried = self.old.tried + 1; closed = is_none self.old.side }) }
        ensures left { OnErr result (IsLeft self.old self.new) }
        ensures done { OnOk result (IsTold (D.content disk.new) → (found : Option StoreCommit) (c : StoreCommit)
            → IsWriting self.old (map block_piece blocks.now) place found c (D.image disk.old)
            → Step (IsGood self.old.limit) found (Some c) (keeping.is_first found) (ShowsEither (IsGood self.old.limit) found c) (D.image disk.new)
            (D.moment disk.old) (D.moment disk.new) (D.image_since disk.old) (D.image_since disk.new)) }
        ensures holds { OnOk result (IsTold (D.content disk.new) → (found : Option StoreCommit) (c : StoreCommit)
            → IsWriting self.old (map block_piece blocks.now) place found c (D.image disk.old)
            → (image : List ℕ) → D.image disk.new image → Holds self.old.limit c image) }
        ensures failed { OnErr result (IsTold (D.content disk.new) → (found : Option StoreCommit) (c : StoreCommit)
            → IsWriting self.old (map block_piece blocks.now) place found c (D.image disk.old)
            → Step (IsGood self.old.limit) found found self.new.closed (ShowsEither (IsGood self.old.limit) found c) (D.image disk.new)
            (D.moment disk.old) (D.moment disk.new) (D.image_since disk.old) (D.image_since disk.new)) }
        ensures told { IsTold (D.content disk.new) → IsTold (D.content disk.old) }
        ensures cause { HasCause (D.faults disk.old) (D.faults disk.new) result }
    {
        let side = idle_slot(self.side);
        self.tried += 1;
        make_ready(disk, side, self.tried, blocks, place)?;
        self.closed = false;
        open_gate::<StoreSaying, D>(disk, side)?;
        self.closed = self.side.is_none();
        Ok(())
    }
}

/// Writes all of a commit but its gate: its new extents, then the slot that leads to them, and a sync behind both.
fn make_ready<D: Disk>(
    disk: &mut D,
    side: Side,
    generation: u64,
    blocks: &[Block],
    place: Extent,
) -> Result<(), Failed>
    ensures ready { OnOk result (IsTold (D.content disk.new) → (limit : ℕ) (found : Option StoreCommit) (c : StoreCommit) → side ≡ keeping.idle found
        → IsWrittenBy limit found c (map block_piece blocks.now) → slot side generation place.at place.len ≡ slot_of c
        → keeping.KeepsCommit (IsGood limit) found true (D.image disk.old) → IsReady c (D.image disk.new)) }
    ensures step { IsTold (D.content disk.new) → (limit : ℕ) (found : Option StoreCommit) → side ≡ keeping.idle found
        → keeping.AreFree found (map block_piece blocks.now)
        → keeping.KeepsCommit (IsGood limit) found true (D.image disk.old)
        → Step (IsGood limit) found found true (ShowsLast (IsGood limit) found) (D.image disk.new)
        (D.moment disk.old) (D.moment disk.new) (D.image_since disk.old) (D.image_since disk.new) }
    ensures told { IsTold (D.content disk.new) → IsTold (D.content disk.old) }
    ensures cause { HasCause (D.faults disk.old) (D.faults disk.new) result }
{
    write_extents::<StoreSaying, D>(disk, blocks)?;
    write_slot::<StoreSaying, D>(disk, side, generation, place.at, place.len)?;
    Ok(())
}

/// What is written: each segment that doesn't stay where it stands, in order, and the record.
fn new_blocks<'a>(
    alloc: Global,
    segments: &'a [Planned],
    record_extent: Extent,
    text: &'a [u8],
) -> Result<Vec<Block<'a>>, NoMemory>
    ensures { IfOk result (λ blocks. map block_piece blocks.items ≡ map piece_of (filter moves (all_planned segments.now)) ++ record { at = record_extent.at; bytes = text.now } ∷ []) }
{
    let mut blocks = Vec::with_capacity(alloc, segments.len() + 1)?;
    'segments: for segment in segments {
        if !is_standing(segment) {
            blocks.push(Block {
                at: segment.extent.at,
                bytes: segment.entry.segment().bytes(),
            })?;
        }
    }
    blocks.push(Block {
        at: record_extent.at,
        bytes: text,
    })?;
    Ok(blocks)
}

/// Whether a segment stays where it stands.
fn is_standing(segment: &Planned) -> bool
    ensures { result ≡ stays (planned_seen segment.now) }
{
    match segment.before {
        Some(before) => before.at == segment.extent.at,
        None => false,
    }
}

/// The extents that the commit names, that of its record first.
fn named_by(
    alloc: Global,
    record_extent: Extent,
    segments: &[Planned],
) -> Result<ExtentList, NoMemory>
    ensures { IfOk result (λ named. named.extents ≡ record_extent ∷ map (λ (segment : PlannedSegment). segment.extent) (all_planned segments.now)) }
{
    let mut named = Vec::with_capacity(alloc, segments.len() + 1)?;
    named.push(record_extent)?;
    'segments: for segment in segments {
        named.push(segment.extent)?;
    }
    Ok(ExtentList::of(named))
}

/// What the store knows of the commit's segments.
fn known_by(alloc: Global, segments: &[Planned]) -> Result<Vec<KnownSegment>, NoMemory>
    ensures { IfOk result (λ known. known.items ≡ map known_of (all_planned segments.now)) }
{
    let mut known = Vec::with_capacity(alloc, segments.len())?;
    'segments: for segment in segments {
        known.push(KnownSegment {
            entry: segment.entry.share()?,
            extent: segment.extent,
        })?;
    }
    Ok(known)
}
