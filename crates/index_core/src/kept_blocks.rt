//! The blocks of an index: those of the entries of its view, and those in the buffer behind them.

ghost use Rattle.std.specs.Prelude.{◌≡◌, ◌↔◌, ℕ, ◌+◌, ◌-◌, ◌<◌, ◌≤◌, ◌++◌, [], ◌∷◌, List, None, Some, length, map, take, drop, vec_len, vec_capacity, OnOk, OnErr, IfOk, IsFalse};
ghost use Rattle.std.specs.List.{All};
ghost use Rattle.flattener.specs.Block.{BlockState};
ghost use Rattle.flattener.specs.Fits.{BlockFits, SegmentFits, most_live};
ghost use Rattle.flattener.specs.Seen.{block_seen};
ghost use Rattle.layout.specs.Layout.{OpenMerge, alive, killed, live_of_range, remade, sealed, with_buffer_last};
ghost use Rattle.layout.specs.Merges.{aborted, advanced, finish_fault, finished, merge_named, overlapping, start_fault, step_fault, with_merge};
ghost use Rattle.mapping.specs.IsMapping.{IsMapping};
ghost use Rattle.mapping.specs.Mapping.{Mapping as Mappings};
ghost use Rattle.merge_jobs.specs.Open.{merges_in, merges_shown, placeless};
ghost use Rattle.segment_builder.specs.Blocks.{block_objects, blocks_in, objects_of};
ghost use Rattle.view_merge.specs.Given.{IsKeptOrMade};
ghost use Rattle.index_core.specs.Found.{AreBelow, AreFit, AreOpenOf, IsLive, IsLiveNumber, IsRelaid, IsRootAt, IsWhole, columns_of, layout_of, layout_ready, live_blocks};
ghost use Rattle.index_core.specs.Kept.{AreBlocks, HaveOwnIds, has_block_id, laid, most_factor};

use crate::finish::{Finished, advancing, finishing, give_way};
use crate::place::{Place, entry_is_whole, place_of};
use crate::ready::{
    Ready, have_same_ids, made_after, made_is_below, mapping_is_numbered, next_merge, settled_ready,
};
use crate::{MergeDone, NoMemory};
use flattener::{Block, blocks_are_of_their_mapping};
use mapping::Mapping;
use merge_jobs::{MergeJob, MergeRow, OpenJobs};
use segment_builder::{blocks_are_whole, built, deaths_mark_blocks};
use segment_view::{Entry, View};
use source_steps::Steps;
use std::alloc::Global;
use std::marker::Model;
use std::sync::ledger::Ledger;
use view_merge::{alive_entry, merged_entry, neighbours};

/// The entries of a view and the blocks in a buffer behind them, whose numbers ascend, and how many segments were made.
#[derive(Drop)]
pub(crate) struct KeptBlocks {
    alloc: Global,
    view: View,
    buffer: Vec<Block>,
    made: u128,
    jobs: OpenJobs,
    started: u64,
    factor: u64,
}

impl Model for KeptBlocks {
    ghost use Rattle.std.specs.Prelude.{◌-◌, map, vec_capacity, vec_len};
    ghost use Rattle.flattener.specs.Seen.{block_seen};
    ghost use Rattle.index_core.specs.Found.{BlocksState, AreKept};

    ghost Value = { BlocksState };

    ghost view = { λ it. record { entries = it.view; buffer = map block_seen it.buffer.items; made = it.made; spare = vec_capacity it.buffer - vec_len it.buffer; jobs = it.jobs; started = it.started; factor = it.factor } };

    ghost invariant = { λ it. AreKept it.made it.started it.factor it.view it.jobs };
}

impl KeptBlocks {
    /// The blocks of a view, and an empty buffer. Takes no memory.
    pub(crate) fn over(alloc: Global, view: View, made: u128) -> KeptBlocks
        requires { AreBelow made view }
        ensures entries { result.entries ≡ view }
        ensures buffer { result.buffer ≡ [] }
        ensures made { result.made ≡ made }
        ensures jobs { result.jobs ≡ [] }
        ensures started { result.started ≡ 0 }
        ensures factor { result.factor ≡ 0 }
    {
        KeptBlocks {
            alloc,
            view,
            buffer: Vec::new(alloc),
            made,
            jobs: OpenJobs::empty(alloc),
            started: 0,
            factor: 0,
        }
    }

    /// The view. Takes no memory.
    pub(crate) fn view(&self) -> &View
        ensures view { result.now ≡ self.now.entries }
        ensures below { AreBelow self.now.made self.now.entries }
    {
        &self.view
    }

    /// How many blocks are in the buffer.
    pub(crate) fn buffered_count(&self) -> usize
        ensures { result ≡ length self.now.buffer }
    {
        self.buffer.len()
    }

    /// How many objects the live block with this number has.
    pub(crate) fn objects_with(&self, number: u64) -> u64
        requires { IsLiveNumber self.now.entries self.now.buffer number }
        ensures { (id : List ℕ) (block : BlockState) → IsLive self.now.entries self.now.buffer id block number → result ≡ block_objects block }
    {
        match place_of(self.view.entries(), self.buffer.as_slice(), number) {
            Place::Root(index, root) => root_objects(self.view.entries(), index, root),
            Place::Buffer(index) => self.buffer[index].documents.len() as u64,
        }
    }

    /// Appends the source of the live block with this number, and counts one read.
    pub(crate) fn fetch<L: Ledger>(
        &self,
        number: u64,
        out: &mut Vec<u8>,
        steps: &mut Steps<L>,
    ) -> Result<(), NoMemory>
        requires { IsLiveNumber self.now.entries self.now.buffer number }
        ensures source { (id : List ℕ) (block : BlockState) → IsLive self.now.entries self.now.buffer id block number → OnOk result (out.new.items ≡ out.old.items ++ block.root.source) }
        ensures unchanged { OnErr result (out.new.items ≡ out.old.items) }
        ensures step { steps.new ≡ steps.old + 1 }
    {
        match place_of(self.view.entries(), self.buffer.as_slice(), number) {
            Place::Root(index, root) => fetch_root(self.view.entries(), index, root, out, steps),
            Place::Buffer(index) => {
                steps.tick();
                out.extend_from_slice(self.buffer[index].root.source.as_slice())?;
                Ok(())
            }
        }
    }

    /// Takes the live block with this number out of the buffer, or marks it dead.
    pub(crate) fn take_out(&mut self, number: u64) -> Result<(), NoMemory>
        requires { IsLiveNumber self.old.entries self.old.buffer number }
        ensures killed { (id : List ℕ) (block : BlockState) → HaveOwnIds (live_blocks self.old.entries self.old.buffer) → IsLive self.old.entries self.old.buffer id block number
            → OnOk result (layout_of self.new ≡ killed (has_block_id id) (layout_of self.old)) }
        ensures columns { columns_of self.new.entries ≡ columns_of self.old.entries }
        ensures made { self.new.made ≡ self.old.made }
        ensures room { self.old.spare ≤ self.new.spare }
        ensures same { OnErr result (self.new ≡ self.old) }
    {
        deaths_mark_blocks();
        match place_of(self.view.entries(), self.buffer.as_slice(), number) {
            Place::Root(index, root) => self.view.kill(self.alloc, index, root)?,
            Place::Buffer(index) => {
                remove_at(&mut self.buffer, index);
            }
        }
        Ok(())
    }

    /// Makes room for one block more.
    pub(crate) fn reserve(&mut self) -> Result<(), NoMemory>
        ensures room { OnOk result (0 < self.new.spare) }
        ensures entries { self.new.entries ≡ self.old.entries }
        ensures buffer { self.new.buffer ≡ self.old.buffer }
        ensures made { self.new.made ≡ self.old.made }
        ensures jobs { self.new.jobs ≡ self.old.jobs }
        ensures started { self.new.started ≡ self.old.started }
        ensures factor { self.new.factor ≡ self.old.factor }
    {
        self.buffer.reserve(1)?;
        Ok(())
    }

    /// Puts a block behind the others, for which there is room.
    pub(crate) fn push(&mut self, block: Block)
        requires { 0 < self.old.spare }
        ensures entries { self.new.entries ≡ self.old.entries }
        ensures buffer { self.new.buffer ≡ self.old.buffer ++ block_seen block ∷ [] }
        ensures made { self.new.made ≡ self.old.made }
        ensures jobs { self.new.jobs ≡ self.old.jobs }
        ensures started { self.new.started ≡ self.old.started }
        ensures factor { self.new.factor ≡ self.old.factor }
    {
        self.buffer.push(block).unwrap();
    }

    /// The merges that are open.
    pub(crate) fn merges(&self) -> Result<Vec<MergeRow>, NoMemory>
        ensures { IfOk result (λ rows. merges_shown rows.items ≡ merges_in self.now.jobs) }
    {
        Ok(self.jobs.rows(self.alloc)?)
    }

    /// Makes a segment of the buffer, and merges neighbours by the factor, if there is one. Whether that changed the entries.
    /// Without a factor the entries that there are aren't looked at.
    pub(crate) fn seal(&mut self, mapping: &Mapping) -> Result<bool, NoMemory>
        requires fits { All (BlockFits mapping.now) self.old.buffer }
        requires segments { AreFit mapping.now self.old.entries }
        requires few { objects_of (live_blocks self.old.entries self.old.buffer) ≤ most_live }
        requires blocks { (next : ℕ) × AreBlocks (layout_of self.old) next }
        ensures sealed { OnOk result (layout_of self.new ≡ sealed (layout_of self.old)) }
        ensures told { IfOk result (λ changed. IsFalse changed ↔ (self.new.entries ≡ self.old.entries)) }
        ensures buffer { OnOk result (self.new.buffer ≡ []) }
        ensures fits { (m : Mappings) → IsMapping m → All (BlockFits m) self.old.buffer → AreFit m self.old.entries → AreFit m self.new.entries }
        ensures relaid { IsRelaid self.old self.new }
        ensures same { OnErr result (self.new ≡ self.old) }
    {
        if self.factor() == 0 {
            return self.seal_last(mapping);
        }
        let ready = self.ready(mapping)?;
        let changed = self.is_changed_by(&ready);
        self.take_sealed(ready);
        Ok(changed)
    }

    /// Makes a segment of the buffer where there is no factor, behind the entries, which stay as they are. Whether there was a
    /// block in it.
    fn seal_last(&mut self, mapping: &Mapping) -> Result<bool, NoMemory>
        requires factor { self.old.factor ≡ 0 }
        requires fits { All (BlockFits mapping.now) self.old.buffer }
        requires few { objects_of self.old.buffer ≤ most_live }
        requires blocks { (next : ℕ) × AreBlocks (layout_of self.old) next }
        ensures sealed { OnOk result (layout_of self.new ≡ sealed (layout_of self.old)) }
        ensures told { IfOk result (λ changed. IsFalse changed ↔ (self.new.entries ≡ self.old.entries)) }
        ensures buffer { OnOk result (self.new.buffer ≡ []) }
        ensures fits { (m : Mappings) → IsMapping m → All (BlockFits m) self.old.buffer → AreFit m self.old.entries → AreFit m self.new.entries }
        ensures relaid { IsRelaid self.old self.new }
        ensures same { OnErr result (self.new ≡ self.old) }
    {
        let _entries = self.view.entries();
        let changed = push_last(
            self.alloc,
            mapping,
            &mut self.view,
            &mut self.made,
            self.buffer.as_slice(),
        )?;
        made_is_below(self.made);
        self.buffer.clear();
        Ok(changed)
    }

    /// What sealing makes: a segment of the buffer, if there is a block in it, and what settling by the factor leaves, if there
    /// is one. It fits each mapping that the blocks fit.
    pub(crate) fn ready(&self, mapping: &Mapping) -> Result<Ready, NoMemory>
        requires fits { All (BlockFits mapping.now) self.now.buffer }
        requires segments { AreFit mapping.now self.now.entries }
        requires few { objects_of (live_blocks self.now.entries self.now.buffer) ≤ most_live }
        ensures sealed { IfOk result (λ ready. layout_ready ready self.now.started self.now.factor ≡ sealed (layout_of self.now)) }
        ensures below { IfOk result (λ ready. AreBelow ready.made ready.view) }
        ensures entries { IfOk result (λ ready. All (IsKeptOrMade self.now.entries self.now.made) ready.view) }
        ensures fits { (m : Mappings) → IsMapping m → All (BlockFits m) self.now.buffer → AreFit m self.now.entries → IfOk result (λ ready. AreFit m ready.view) }
        ensures placeless { IfOk result (λ ready. map placeless (merges_shown ready.merges.items) ≡ map placeless (merges_in self.now.jobs)) }
        ensures open { AreOpenOf (layout_of self.now) }
    {
        let _entries = self.view.entries();
        let _scopes = mapping.scope_count();
        let last = self.with_last(mapping)?;
        if self.factor == 0 {
            return Ok(last);
        }
        Ok(settled_ready(self.alloc, mapping, last, self.factor)?)
    }

    /// A view with the buffer as its last segment, if there is a block in it.
    fn with_last(&self, mapping: &Mapping) -> Result<Ready, NoMemory>
        requires fits { All (BlockFits mapping.now) self.now.buffer }
        requires few { objects_of self.now.buffer ≤ most_live }
        ensures last { IfOk result (λ ready. layout_ready ready self.now.started self.now.factor ≡ with_buffer_last (layout_of self.now)) }
        ensures below { IfOk result (λ ready. AreBelow ready.made ready.view) }
        ensures entries { IfOk result (λ ready. All (IsKeptOrMade self.now.entries self.now.made) ready.view) }
        ensures fits { (m : Mappings) → IsMapping m → All (BlockFits m) self.now.buffer → AreFit m self.now.entries → IfOk result (λ ready. AreFit m ready.view) }
    {
        let mut view = self.view.pin(self.alloc)?;
        let merges = self.jobs.rows(self.alloc)?;
        let mut made = self.made;
        push_last(
            self.alloc,
            mapping,
            &mut view,
            &mut made,
            self.buffer.as_slice(),
        )?;
        Ok(Ready { view, made, merges })
    }

    /// Whether what sealing made is another view.
    fn is_changed_by(&self, ready: &Ready) -> bool
        requires { All (IsKeptOrMade self.now.entries self.now.made) ready.now.view }
        ensures { IsFalse result ↔ (ready.now.view ≡ self.now.entries) }
    {
        !have_same_ids(ready.view.entries(), self.view.entries())
    }

    /// Takes what sealing made.
    pub(crate) fn take_sealed(&mut self, ready: Ready)
        requires sealed { layout_ready ready self.old.started self.old.factor ≡ sealed (layout_of self.old) }
        requires below { AreBelow ready.made ready.view }
        requires entries { All (IsKeptOrMade self.old.entries self.old.made) ready.view }
        requires open { AreOpenOf (layout_of self.old) }
        requires blocks { (next : ℕ) × AreBlocks (layout_of self.old) next }
        requires placeless { map placeless (merges_shown ready.merges.items) ≡ map placeless (merges_in self.old.jobs) }
        ensures sealed { layout_of self.new ≡ sealed (layout_of self.old) }
        ensures entries { self.new.entries ≡ ready.view }
        ensures buffer { self.new.buffer ≡ [] }
        ensures relaid { IsRelaid self.old self.new }
    {
        let Ready { view, made, merges } = ready;
        made_is_below(made);
        self.view = view;
        self.buffer.clear();
        self.made = made;
        self.jobs.place(merges.as_slice());
    }

    /// The factor by which neighbours are merged; 0 is none.
    pub(crate) fn factor(&self) -> u64
        ensures is { result ≡ self.now.factor }
        ensures most { result ≤ most_factor }
    {
        let _ = &self.view;
        self.factor
    }

    /// Sets the factor by which neighbours are merged; 0 is none.
    pub(crate) fn set_factor(&mut self, factor: u64)
        requires { factor ≤ most_factor }
        ensures { self.new ≡ record self.old { factor = factor } }
    {
        self.factor = factor;
    }

    /// Opens a merge of a range of segments. How many of their roots are live.
    pub(crate) fn start(&mut self, from: u64, count: u64) -> Result<MergeDone, NoMemory>
        requires fault { start_fault from count (layout_of self.old) ≡ None }
        requires few { objects_of (live_blocks self.old.entries self.old.buffer) ≤ most_live }
        ensures layout { OnOk result (layout_of self.new ≡ with_merge from count (layout_of self.old)) }
        ensures done { IfOk result (λ done. done ≡ record { id = self.old.started + 1; count = length (live_of_range from count (layout_of self.old)) }) }
        ensures entries { self.new.entries ≡ self.old.entries }
        ensures buffer { self.new.buffer ≡ self.old.buffer }
        ensures relaid { IsRelaid self.old self.new }
        ensures same { OnErr result (self.new ≡ self.old) }
    {
        let range = neighbours(self.view.entries(), from, count);
        let job = MergeJob::start(self.alloc, range)?;
        let roots = job.left();
        let id = next_merge(self.started)?;
        self.jobs.open(id, from, count, job)?;
        self.started = id;
        Ok(MergeDone { id, count: roots })
    }

    /// Walks so many roots of an open merge further. How many are left then.
    pub(crate) fn advance(
        &mut self,
        mapping: &Mapping,
        id: u64,
        roots: u64,
    ) -> Result<MergeDone, NoMemory>
        requires fault { step_fault id (layout_of self.old) ≡ None }
        requires segments { AreFit mapping.now self.old.entries }
        requires few { objects_of (live_blocks self.old.entries self.old.buffer) ≤ most_live }
        ensures layout { OnOk result (layout_of self.new ≡ advanced id roots (layout_of self.old)) }
        ensures done { (merge : OpenMerge) → merge_named id (layout_of self.old) ≡ Some merge → IfOk result (λ done. done ≡ record { id = id; count = merge.left - roots }) }
        ensures entries { self.new.entries ≡ self.old.entries }
        ensures buffer { self.new.buffer ≡ self.old.buffer }
        ensures relaid { IsRelaid self.old self.new }
        ensures same { OnErr result (self.new ≡ self.old) }
    {
        mapping_is_numbered(mapping);
        let left = advancing(self.alloc, &mut self.jobs, &self.view, id, roots)?;
        Ok(MergeDone { id, count: left })
    }

    /// Closes an open merge.
    pub(crate) fn abort(&mut self, id: u64)
        requires { step_fault id (layout_of self.old) ≡ None }
        ensures layout { layout_of self.new ≡ aborted id (layout_of self.old) }
        ensures entries { self.new.entries ≡ self.old.entries }
        ensures buffer { self.new.buffer ≡ self.old.buffer }
        ensures relaid { IsRelaid self.old self.new }
    {
        self.jobs.close(id);
    }

    /// Makes one segment of the live blocks of an open merge's range, or none, and closes it. How many there are.
    pub(crate) fn finish(&mut self, mapping: &Mapping, id: u64) -> Result<MergeDone, NoMemory>
        requires fault { finish_fault id (layout_of self.old) ≡ None }
        requires segments { AreFit mapping.now self.old.entries }
        requires few { objects_of (live_blocks self.old.entries self.old.buffer) ≤ most_live }
        ensures layout { (merge : OpenMerge) → merge_named id (layout_of self.old) ≡ Some merge → OnOk result (layout_of self.new ≡ finished merge (layout_of self.old)) }
        ensures done { (merge : OpenMerge) → merge_named id (layout_of self.old) ≡ Some merge → IfOk result (λ done. done ≡ record { id = id; count = length (live_of_range merge.from merge.count (layout_of self.old)) }) }
        ensures segments { (m : Mappings) → AreFit m self.old.entries → AreFit m self.new.entries }
        ensures buffer { self.new.buffer ≡ self.old.buffer }
        ensures relaid { IsRelaid self.old self.new }
        ensures same { OnErr result (self.new ≡ self.old) }
    {
        mapping_is_numbered(mapping);
        let Finished {
            from,
            count,
            live,
            entry,
        } = finishing(self.alloc, &mut self.jobs, &self.view, self.made, id)?;
        let by = give_way(&mut self.view, &mut self.made, from, count, entry)?;
        self.jobs.close(id);
        self.jobs.shift(from, count, by);
        Ok(MergeDone { id, count: live })
    }

    /// Makes one segment of the live blocks of a range, or none.
    pub(crate) fn force(&mut self, mapping: &Mapping, from: u64, count: u64) -> Result<(), NoMemory>
        requires some { 0 < count }
        requires within { from + count ≤ length self.old.entries }
        requires clear { overlapping from count (layout_of self.old) ≡ None }
        requires segments { AreFit mapping.now self.old.entries }
        requires few { objects_of (live_blocks self.old.entries self.old.buffer) ≤ most_live }
        ensures layout { OnOk result (layout_of self.new ≡ remade from count (layout_of self.old)) }
        ensures segments { (m : Mappings) → AreFit m self.old.entries → AreFit m self.new.entries }
        ensures buffer { self.new.buffer ≡ self.old.buffer }
        ensures relaid { IsRelaid self.old self.new }
        ensures same { OnErr result (self.new ≡ self.old) }
    {
        mapping_is_numbered(mapping);
        let range = neighbours(self.view.entries(), from, count);
        let entry = merged_entry(self.alloc, self.made, range)?;
        let by = give_way(&mut self.view, &mut self.made, from, count, entry)?;
        self.jobs.shift(from, count, by);
        Ok(())
    }
}

/// Takes the block at an index out of a list.
fn remove_at(blocks: &mut Vec<Block>, index: usize)
    requires { index < vec_len blocks.old }
    ensures items { blocks.new.items ≡ take index blocks.old.items ++ drop (index + 1) blocks.old.items }
    ensures capacity { vec_capacity blocks.new ≡ vec_capacity blocks.old }
{
    blocks.remove(index);
}

/// How many objects the block of a root has.
fn root_objects(entries: &[Entry], index: u64, root: u32) -> u64
    requires { (block : BlockState) × IsRootAt entries.now index root block }
    ensures { (block : BlockState) → IsRootAt entries.now index root block → result ≡ block_objects block }
{
    let segment = entries[index as usize].segment();
    blocks_are_whole(segment);
    let (from, end) = segment.block(root);
    (end - from) as u64
}

/// Appends the source of a root, and counts one read.
fn fetch_root<L: Ledger>(
    entries: &[Entry],
    index: u64,
    root: u32,
    out: &mut Vec<u8>,
    steps: &mut Steps<L>,
) -> Result<(), NoMemory>
    requires { (block : BlockState) × IsRootAt entries.now index root block }
    ensures source { (block : BlockState) → IsRootAt entries.now index root block → OnOk result (out.new.items ≡ out.old.items ++ block.root.source) }
    ensures unchanged { OnErr result (out.new.items ≡ out.old.items) }
    ensures step { steps.new ≡ steps.old + 1 }
{
    let segment = entries[index as usize].segment();
    blocks_are_whole(segment);
    segment.sources().fetch(root, out, steps)?;
    Ok(())
}

/// Puts a segment of blocks behind the entries of a view, with the next id, if there is a block. Whether there is one.
fn push_last(
    alloc: Global,
    mapping: &Mapping,
    view: &mut View,
    made: &mut u128,
    blocks: &[Block],
) -> Result<bool, NoMemory>
    requires fits { All (BlockFits mapping.now) (map block_seen blocks.now) }
    requires few { objects_of (map block_seen blocks.now) ≤ most_live }
    requires below { AreBelow made.old view.old }
    ensures last { OnOk result (laid view.new [] made.new ≡ with_buffer_last (laid view.old (map block_seen blocks.now) made.old)) }
    ensures told { IfOk result (λ put. IsFalse put ↔ (view.new ≡ view.old)) }
    ensures below { OnOk result (AreBelow made.new view.new) }
    ensures entries { OnOk result (All (IsKeptOrMade view.old made.old) view.new) }
    ensures fits { (m : Mappings) → IsMapping m → All (BlockFits m) (map block_seen blocks.now) → AreFit m view.old → OnOk result (AreFit m view.new) }
    ensures same_view { OnErr result (view.new ≡ view.old) }
    ensures same_made { OnErr result (made.new ≡ made.old) }
{
    if blocks.is_empty() {
        return Ok(false);
    }
    let next = made_after(*made, 1)?;
    let entry = entry_of(alloc, mapping, *made, blocks)?;
    view.push(entry)?;
    *made = next;
    Ok(true)
}

/// The entry of blocks, all of them live. It fits each mapping that they fit.
fn entry_of(alloc: Global, mapping: &Mapping, id: u128, blocks: &[Block]) -> Result<Entry, NoMemory>
    requires some { 0 < length blocks.now }
    requires fits { All (BlockFits mapping.now) (map block_seen blocks.now) }
    requires few { objects_of (map block_seen blocks.now) ≤ most_live }
    ensures blocks { IfOk result (λ entry. blocks_in entry ≡ map alive (map block_seen blocks.now)) }
    ensures id { IfOk result (λ entry. entry.id ≡ id) }
    ensures fits { IfOk result (λ entry. (m : Mappings) → IsMapping m → All (BlockFits m) (map block_seen blocks.now) → SegmentFits m entry.columns) }
    ensures whole { IfOk result (λ entry. IsWhole entry) }
{
    blocks_are_of_their_mapping();
    let segment = built(alloc, mapping, blocks)?;
    let entry = alive_entry(alloc, id, segment)?;
    entry_is_whole(&entry);
    Ok(entry)
}
