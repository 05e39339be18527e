//! What an index keeps, and its writes.

ghost use Rattle.std.specs.Prelude.{◌≡◌, ◌↔◌, ◌⊎◌, ◌+◌, ◌-◌, ◌<◌, ◌≤◌, ◌++◌, [], None, Some, is_some, length, map, true, false, IfOk, IsFalse, IsOk, IsErrOf, OnOk, OnErr};
ghost use Rattle.std.specs.Option.{option_map};
ghost use Rattle.flattener.specs.Fits.{ViewFits, most_live};
ghost use Rattle.layout.specs.Layout.{OpenMerge, live_of_range, sealed, with_room};
ghost use Rattle.layout.specs.Merges.{MergeFault, aborted, advanced, factor_of, finish_fault, finished, force_fault, forced, merge_named, start_fault, step_fault, summaries_of, with_merge};
ghost use Rattle.mapping.specs.IsMapping.{IsMapping};
ghost use Rattle.mapping.specs.Mapping.{Mapping as Mappings};
ghost use Rattle.merge_jobs.specs.Open.{merges_shown};
ghost use Rattle.segment_builder.specs.Blocks.{block_objects};
ghost use Rattle.view_merge.specs.Given.{summary_shown};
ghost use Rattle.index_core.specs.Kept.{AreBlocks, IndexFits, IsIndex, block_number, laid, last_number, layout_kept, live_block, made_by, most_factor};
ghost use Rattle.index_core.specs.Merge.{refusal_of};
ghost use Rattle.index_core.specs.Write.{IsNext, done_of, id_of, is_refused, next_after, reads_of, source_of, written};

use crate::kept_blocks::KeptBlocks;
use crate::live_numbers::LiveNumbers;
use crate::merge::{finish_refusal, force_refusal, start_refusal, step_refusal};
use crate::opening::{Opened, read_entries};
use crate::write::{change, done, make_room, objects_after, takes_nothing, written_id};
use crate::{LayoutRows, MergeDone, MergeRefusal, NoMemory, WriteDone, WriteOp, WriteRefusal};
use mapping::Mapping;
use segment_view::View;
use source_steps::Steps;
use std::alloc::Global;
use std::marker::Model;
use std::sync::ledger::Ledger;
use view_merge::segment_rows;

/// The last sequence number that there is.
const LAST_NUMBER: u64 = 1 << 62;

/// The blocks of an index, in segments and in a buffer, with the number of each live id.
#[derive(Drop)]
pub struct IndexCore {
    alloc: Global,
    blocks: KeptBlocks,
    numbers: LiveNumbers,
    next: u64,
    most_objects: u64,
    live_objects: u64,
}

impl Model for IndexCore {
    ghost use Rattle.index_core.specs.Kept.{IndexState};
    ghost use Rattle.index_core.specs.Inside.{state_of, IsKept};

    ghost Value = { IndexState };

    ghost view = { state_of };

    ghost invariant = { IsKept };
}

impl IndexCore {
    /// The index of the entries of a view, with an empty buffer, the next sequence number, and the most live objects that a
    /// write may leave.
    pub fn over(alloc: Global, view: View, next: u64, objects: u64) -> Result<IndexCore, NoMemory>
        requires blocks { AreBlocks (laid view [] (made_by view)) next }
        requires next { next ≤ last_number }
        requires objects { objects ≤ most_live }
        ensures { IfOk result (λ index. index ≡ record { entries = view; buffer = []; made = made_by view; next = next; objects = objects; merges = []; started = 0; factor = None }) }
    {
        let opened = read_entries(alloc, view.entries())?;
        let Opened {
            numbers,
            objects: live_objects,
            made,
        } = opened;
        Ok(IndexCore {
            alloc,
            blocks: KeptBlocks::over(alloc, view, made),
            numbers,
            next,
            most_objects: objects,
            live_objects,
        })
    }

    /// The number of the live block with this id.
    pub fn live(&self, id: &[u8]) -> Option<u64>
        ensures { result ≡ option_map block_number (live_block id.now self.now) }
    {
        let _ = &self.blocks;
        self.numbers.get(id)
    }

    /// Appends the source of the live block with this id, and counts one read of it; false where no block with it is live.
    pub fn source<L: Ledger>(
        &self,
        id: &[u8],
        out: &mut Vec<u8>,
        steps: &mut Steps<L>,
    ) -> Result<bool, NoMemory>
        ensures found { IfOk result (λ found. found ≡ is_some (live_block id.now self.now)) }
        ensures source { OnOk result (out.new.items ≡ out.old.items ++ source_of (live_block id.now self.now)) }
        ensures unchanged { OnErr result (out.new.items ≡ out.old.items) }
        ensures step { steps.new ≡ steps.old + reads_of (live_block id.now self.now) }
    {
        match self.numbers.get(id) {
            Some(number) => {
                self.blocks.fetch(number, out, steps)?;
                Ok(true)
            }
            None => Ok(false),
        }
    }

    /// The entries of all segments. A view fits the mapping where what is kept does.
    pub fn view(&self) -> &View
        ensures view { result.now ≡ self.now.entries }
        ensures fits { (m : Mappings) → IndexFits m self.now → ViewFits m self.now.entries }
    {
        let view = self.blocks.view();
        let _entries = view.entries();
        view
    }

    /// The next sequence number.
    pub fn next(&self) -> u64
        ensures next { result ≡ self.now.next }
        ensures kept { IsIndex self.now }
    {
        let _ = &self.blocks;
        self.next
    }

    /// A view of its own, which no later change reaches.
    pub fn pin(&self) -> Result<View, NoMemory>
        ensures { IfOk result (λ view. view ≡ self.now.entries) }
    {
        Ok(self.blocks.view().pin(self.alloc)?)
    }

    /// The rows that show the segments and the open merges.
    pub fn segments(&self) -> Result<LayoutRows, NoMemory>
        ensures segments { IfOk result (λ rows. map summary_shown rows.segments.items ≡ summaries_of block_objects block_number (layout_kept self.now)) }
        ensures merges { IfOk result (λ rows. merges_shown rows.merges.items ≡ self.now.merges) }
    {
        let segments = segment_rows(self.alloc, self.blocks.view().entries())?;
        let merges = self.blocks.merges()?;
        Ok(LayoutRows { segments, merges })
    }

    /// Makes a segment of the buffer, and merges neighbours by the factor, if there is one. Whether that changed the view. After
    /// NoMemory nothing has changed.
    pub fn seal(&mut self, mapping: &Mapping) -> Result<bool, NoMemory>
        requires { IndexFits mapping.now self.old }
        ensures sealed { OnOk result (layout_kept self.new ≡ sealed (layout_kept self.old)) }
        ensures told { IfOk result (λ changed. IsFalse changed ↔ (self.new.entries ≡ self.old.entries)) }
        ensures same { OnErr result (self.new ≡ self.old) }
        ensures next { self.new.next ≡ self.old.next }
        ensures objects { self.new.objects ≡ self.old.objects }
        ensures fits { IndexFits mapping.now self.new }
    {
        let _scopes = mapping.scope_count();
        Ok(self.blocks.seal(mapping)?)
    }

    /// The factor by which neighbours are merged when the buffer is sealed; 0 is none.
    pub fn factor(&self) -> u64
        ensures is { factor_of result ≡ self.now.factor }
        ensures most { result ≤ most_factor }
    {
        self.blocks.factor()
    }

    /// Sets the factor by which neighbours are merged when the buffer is sealed; 0 is none.
    pub fn set_factor(&mut self, factor: u64)
        requires { factor ≤ most_factor }
        ensures { self.new ≡ record self.old { factor = factor_of factor } }
    {
        self.blocks.set_factor(factor);
    }

    /// Opens a merge of so many neighbours from a place on, counted as sealing leaves them, which is done first.
    pub fn start_merge(
        &mut self,
        mapping: &Mapping,
        from: u64,
        count: u64,
    ) -> Result<MergeDone, MergeRefusal>
        requires { IndexFits mapping.now self.old }
        ensures done { IfOk result (λ done. done ≡ record { id = self.old.started + 1; count = length (live_of_range from count (sealed (layout_kept self.old))) }) }
        ensures layout { OnOk result (layout_kept self.new ≡ with_merge from count (sealed (layout_kept self.old))) }
        ensures accepted { IsOk result → start_fault from count (sealed (layout_kept self.old)) ≡ None }
        ensures refused { (fault : MergeFault) → IsErrOf result (refusal_of fault) → start_fault from count (sealed (layout_kept self.old)) ≡ Some fault }
        ensures same { (fault : MergeFault) → IsErrOf result (refusal_of fault) → self.new ≡ self.old }
        ensures kept { IsErrOf result MergeRefusal.NoMemory → (layout_kept self.new ≡ layout_kept self.old) ⊎ (layout_kept self.new ≡ sealed (layout_kept self.old)) }
        ensures next { self.new.next ≡ self.old.next }
        ensures objects { self.new.objects ≡ self.old.objects }
        ensures fits { IndexFits mapping.now self.new }
    {
        let _scopes = mapping.scope_count();
        let ready = self.blocks.ready(mapping)?;
        let segments = ready.view.entries().len() as u64;
        if let Some(refusal) = start_refusal(ready.merges.as_slice(), segments, from, count) {
            return Err(refusal);
        }
        self.blocks.take_sealed(ready);
        Ok(self.blocks.start(from, count)?)
    }

    /// Walks so many roots of an open merge further, or those that are left. The buffer is sealed first.
    pub fn advance_merge(
        &mut self,
        mapping: &Mapping,
        id: u64,
        roots: u64,
    ) -> Result<MergeDone, MergeRefusal>
        requires { IndexFits mapping.now self.old }
        ensures done { (merge : OpenMerge) → merge_named id (sealed (layout_kept self.old)) ≡ Some merge → IfOk result (λ done. done ≡ record { id = id; count = merge.left - roots }) }
        ensures layout { OnOk result (layout_kept self.new ≡ advanced id roots (sealed (layout_kept self.old))) }
        ensures accepted { IsOk result → step_fault id (sealed (layout_kept self.old)) ≡ None }
        ensures refused { (fault : MergeFault) → IsErrOf result (refusal_of fault) → step_fault id (sealed (layout_kept self.old)) ≡ Some fault }
        ensures same { (fault : MergeFault) → IsErrOf result (refusal_of fault) → self.new ≡ self.old }
        ensures kept { IsErrOf result MergeRefusal.NoMemory → (layout_kept self.new ≡ layout_kept self.old) ⊎ (layout_kept self.new ≡ sealed (layout_kept self.old)) }
        ensures next { self.new.next ≡ self.old.next }
        ensures objects { self.new.objects ≡ self.old.objects }
        ensures fits { IndexFits mapping.now self.new }
    {
        let _scopes = mapping.scope_count();
        let ready = self.blocks.ready(mapping)?;
        if let Some(refusal) = step_refusal(ready.merges.as_slice(), id) {
            return Err(refusal);
        }
        self.blocks.take_sealed(ready);
        Ok(self.blocks.advance(mapping, id, roots)?)
    }

    /// Replaces the neighbours of an open merge, which has no root left, by one segment of those of their blocks that are live
    /// now, or by none. The buffer is sealed first.
    pub fn finish_merge(&mut self, mapping: &Mapping, id: u64) -> Result<MergeDone, MergeRefusal>
        requires { IndexFits mapping.now self.old }
        ensures done { (merge : OpenMerge) → merge_named id (sealed (layout_kept self.old)) ≡ Some merge → IfOk result (λ done. done ≡ record { id = id; count = length (live_of_range merge.from merge.count (sealed (layout_kept self.old))) }) }
        ensures layout { (merge : OpenMerge) → merge_named id (sealed (layout_kept self.old)) ≡ Some merge → OnOk result (layout_kept self.new ≡ finished merge (sealed (layout_kept self.old))) }
        ensures accepted { IsOk result → finish_fault id (sealed (layout_kept self.old)) ≡ None }
        ensures refused { (fault : MergeFault) → IsErrOf result (refusal_of fault) → finish_fault id (sealed (layout_kept self.old)) ≡ Some fault }
        ensures same { (fault : MergeFault) → IsErrOf result (refusal_of fault) → self.new ≡ self.old }
        ensures kept { IsErrOf result MergeRefusal.NoMemory → (layout_kept self.new ≡ layout_kept self.old) ⊎ (layout_kept self.new ≡ sealed (layout_kept self.old)) }
        ensures next { self.new.next ≡ self.old.next }
        ensures objects { self.new.objects ≡ self.old.objects }
        ensures fits { IndexFits mapping.now self.new }
    {
        let _scopes = mapping.scope_count();
        let ready = self.blocks.ready(mapping)?;
        if let Some(refusal) = finish_refusal(ready.merges.as_slice(), id) {
            return Err(refusal);
        }
        self.blocks.take_sealed(ready);
        Ok(self.blocks.finish(mapping, id)?)
    }

    /// Gives an open merge up. The buffer is sealed first.
    pub fn abort_merge(&mut self, mapping: &Mapping, id: u64) -> Result<MergeDone, MergeRefusal>
        requires { IndexFits mapping.now self.old }
        ensures done { IfOk result (λ done. done ≡ record { id = id; count = 0 }) }
        ensures layout { OnOk result (layout_kept self.new ≡ aborted id (sealed (layout_kept self.old))) }
        ensures accepted { IsOk result → step_fault id (sealed (layout_kept self.old)) ≡ None }
        ensures refused { (fault : MergeFault) → IsErrOf result (refusal_of fault) → step_fault id (sealed (layout_kept self.old)) ≡ Some fault }
        ensures same { (fault : MergeFault) → IsErrOf result (refusal_of fault) → self.new ≡ self.old }
        ensures kept { IsErrOf result MergeRefusal.NoMemory → (layout_kept self.new ≡ layout_kept self.old) ⊎ (layout_kept self.new ≡ sealed (layout_kept self.old)) }
        ensures next { self.new.next ≡ self.old.next }
        ensures objects { self.new.objects ≡ self.old.objects }
        ensures fits { IndexFits mapping.now self.new }
    {
        let _scopes = mapping.scope_count();
        let ready = self.blocks.ready(mapping)?;
        if let Some(refusal) = step_refusal(ready.merges.as_slice(), id) {
            return Err(refusal);
        }
        self.blocks.take_sealed(ready);
        self.blocks.abort(id);
        Ok(MergeDone { id, count: 0 })
    }

    /// Leaves at most so many segments: the last of these and all behind it give way to one of their live blocks, or to none.
    /// The buffer is sealed first.
    pub fn force_merge(&mut self, mapping: &Mapping, most: u64) -> Result<MergeDone, MergeRefusal>
        requires fits { IndexFits mapping.now self.old }
        requires most { 0 < most }
        ensures done { IfOk result (λ done. done ≡ record { id = 0; count = length (forced most (sealed (layout_kept self.old))).segments }) }
        ensures layout { OnOk result (layout_kept self.new ≡ forced most (sealed (layout_kept self.old))) }
        ensures accepted { IsOk result → force_fault most (sealed (layout_kept self.old)) ≡ None }
        ensures refused { (fault : MergeFault) → IsErrOf result (refusal_of fault) → force_fault most (sealed (layout_kept self.old)) ≡ Some fault }
        ensures same { (fault : MergeFault) → IsErrOf result (refusal_of fault) → self.new ≡ self.old }
        ensures kept { IsErrOf result MergeRefusal.NoMemory → (layout_kept self.new ≡ layout_kept self.old) ⊎ (layout_kept self.new ≡ sealed (layout_kept self.old)) }
        ensures next { self.new.next ≡ self.old.next }
        ensures objects { self.new.objects ≡ self.old.objects }
        ensures fits { IndexFits mapping.now self.new }
    {
        let _scopes = mapping.scope_count();
        let ready = self.blocks.ready(mapping)?;
        let segments = ready.view.entries().len() as u64;
        if let Some(refusal) = force_refusal(ready.merges.as_slice(), segments, most) {
            return Err(refusal);
        }
        self.blocks.take_sealed(ready);
        if segments >= most {
            self.blocks.force(mapping, most - 1, segments - (most - 1))?;
        }
        Ok(MergeDone {
            id: 0,
            count: self.blocks.view().entries().len() as u64,
        })
    }

    /// Puts a block in place of the live one with its id, or as a new one, or takes a live one out. A full buffer is sealed
    /// first. After IndexFull nothing has changed; after NoMemory a full buffer may be sealed, and what is kept fits each mapping
    /// that it has fitted: the one before the write, where the write made it grow.
    pub fn write(&mut self, mapping: &Mapping, op: WriteOp) -> Result<WriteDone, WriteRefusal>
        requires fits { IndexFits mapping.now self.old }
        requires block { IsNext mapping.now self.old.next op }
        ensures done { IfOk result (λ done. done ≡ done_of op self.old.next (live_block (id_of op) self.old)) }
        ensures layout { OnOk result (layout_kept self.new ≡ written op self.old) }
        ensures next { OnOk result (self.new.next ≡ next_after op self.old) }
        ensures accepted { IsOk result → is_refused op self.old ≡ false }
        ensures full { IsErrOf result WriteRefusal.IndexFull → is_refused op self.old ≡ true }
        ensures refused { IsErrOf result WriteRefusal.IndexFull → self.new ≡ self.old }
        ensures kept { IsErrOf result WriteRefusal.NoMemory → (layout_kept self.new ≡ layout_kept self.old) ⊎ (layout_kept self.new ≡ with_room (layout_kept self.old)) }
        ensures same_next { IsErrOf result WriteRefusal.NoMemory → self.new.next ≡ self.old.next }
        ensures objects { self.new.objects ≡ self.old.objects }
        ensures fits { IndexFits mapping.now self.new }
        ensures still_fits { IsErrOf result WriteRefusal.NoMemory → (m : Mappings) → IsMapping m → IndexFits m self.old → IndexFits m self.new }
    {
        let _scopes = mapping.scope_count();
        let old = self.numbers.get(written_id(&op));
        if takes_nothing(&op, old) {
            return Ok(WriteDone::NotFound);
        }
        let objects = objects_after(&self.blocks, self.live_objects, &op, old);
        if objects > self.most_objects || self.next == LAST_NUMBER {
            return Err(WriteRefusal::IndexFull);
        }
        make_room(&mut self.blocks, mapping)?;
        let answer = done(&op, self.next, old);
        change(self.alloc, &mut self.blocks, &mut self.numbers, op, old)?;
        self.live_objects = objects;
        self.next += 1;
        Ok(answer)
    }
}
