//! The engine: one request, one reply.

ghost use Rattle.std.specs.Prelude.{◌≡◌, ◌≤◌, ◌<◌, ◌+◌, ◌^◌, [], true, Option, IfOk, IfSome};
ghost use Rattle.std.specs.List.{All};
ghost use Rattle.layout_commands.specs.Ends.{IsFormed as IsMergeFormed};
ghost use Rattle.machine.specs.Answer.{mapped, outcome_of, sealing};
ghost use Rattle.machine.specs.Limit.{AreLimits};
ghost use Rattle.machine.specs.Merging.{merge_step};
ghost use Rattle.machine.specs.State.{State};
ghost use Rattle.line_reader.specs.View.{first_line_of, source_line_of};
ghost use Rattle.machine.specs.Step.{action_step, refusal_formed};
ghost use Rattle.reply_text.specs.declared.refusal.Refusal.TheVariants.{NoMapping as no_mapping};
ghost use Rattle.request_form.specs.Asked.{asked_of, asks};
ghost use Rattle.request_form.specs.Command.{automerge as merges_by, close_pit as closes, commit as commits, compact as compacts, map_body as maps, open_pit as opens, refresh as refreshes, search as searches, segments as shows_segments, trim as trims, write as writes};
ghost use Rattle.request_form.specs.Formed.{IsFactor, IsFormed};
ghost use Rattle.request_form.specs.Seen.{action_view, operation_view, write_view};
ghost use Rattle.search_form.specs.Form.{is_search_body};
ghost use Rattle.tree_json.specs.Output.{room_of};
ghost use Rattle.tree_json.specs.View.{view};
ghost use Rattle.disk.specs.Stops.{IsTold};
ghost use Rattle.index_core.specs.Kept.{made_by};
ghost use Rattle.engine.specs.Answers.{Answers, AnswersTo, IfNotDone};
ghost use Rattle.engine.specs.Faithful.{IsFaithful};
ghost use Rattle.engine.specs.Found.{IsFittingUnder, opened_engine};
ghost use Rattle.engine.specs.Kept.{StaysOrSeals};
ghost use Rattle.engine.specs.Parts.{AnswersAsked, IsActionFormed, IsCounted, IsRefusal, answered_of};
ghost use Rattle.engine.specs.Reads.{hits_of, reads_asked, reads_by, reads_of};
ghost use Rattle.engine.specs.View.{request_of};

use crate::mapping_line::mapping_line;
use crate::no_memory::NoMemory;
use crate::ordinals::KeptOrdinals;
use crate::points::{close_pit, open_pit};
use crate::refresh::refresh;
use crate::reply::{Ended, refuse};
use crate::search::search;
use crate::segments::{merge_by_factor, merge_segments, show_segments};
use crate::storing;
use crate::write::write_tree;
use commit_store::Store;
use disk::Disk;
use flattener::further_bodies_leave_blocks;
use index_core::IndexCore;
use line_reader::{FirstLine, SourceLine};
use machine::{Limits, MergeCommand};
use mapping::Mapping;
use point_in_time::PointsInTime;
use reply_text::Refusal;
use request_form::{
    Action, FormRefusal, NoAction, Write, asked, merges_are_formed, searches_are_formed,
    writes_are_formed,
};
use segment_builder::fitting_segments_are_blocks;
use segment_view::View;
use source_steps::Steps;
use std::alloc::Global;
use std::marker::Model;
use std::sync::ledger::Ledger;
use store_commands::known_segments_stay_known;
use tree_json::{Json, JsonReader, OutText};

/// The answer to a request.
#[derive(Clone, Copy, Debug, PartialEq, Eq)]
pub enum Answered {
    /// The request was done, and its reply was written.
    Written,
    /// The request was refused, which was written. Nothing has changed but that the buffer may be sealed, and that a commit may
    /// have been tried.
    Refused,
    /// There was no memory. Nothing has changed but that the buffer may be sealed.
    NoMemory,
}

/// The index with its mapping, what answers requests on it, and the store that keeps it.
#[derive(Drop)]
pub struct Engine {
    alloc: Global,
    limits: Limits,
    reader: JsonReader,
    mapping: Option<Mapping>,
    index: IndexCore,
    points: PointsInTime,
    store: Store,
    /// Those that are kept from one search to the next.
    ordinals: KeptOrdinals,
    calls: u64,
}

impl Model for Engine {
    ghost use Rattle.std.specs.Coded.{codes};
    ghost use Rattle.mapping.specs.Code.{mapping_code};
    ghost use Rattle.engine.specs.Kept.{EngineState, IsEngine};

    ghost Value = { EngineState };

    ghost coded = { Prim.hlevel (codes, mapping_code) };

    ghost view = { λ engine. record {
      limits = engine.limits;
      mapping = engine.mapping;
      index = engine.index;
      points = engine.points;
      stored = engine.store;
      calls = engine.calls;
    } };

    ghost invariant = { λ engine. IsEngine (record {
      limits = engine.limits;
      mapping = engine.mapping;
      index = engine.index;
      points = engine.points;
      stored = engine.store;
      calls = engine.calls;
    }) engine.ordinals };
}

impl Engine {
    /// The engine that opens with what a store holds: its mapping, if there is one, its next number and its view, and no point in
    /// time.
    pub fn over(
        alloc: Global,
        limits: &Limits,
        store: Store,
        mapping: Option<Mapping>,
        next: u64,
        view: View,
    ) -> Result<Engine, NoMemory>
        requires limits { AreLimits limits.now }
        requires limit { store.limit ≡ limits.now.store_bytes }
        requires fitting { IsFittingUnder mapping store next view }
        requires below { All (λ known. known.entry.id < made_by view) store.known }
        ensures { IfOk result (λ engine. engine ≡ opened_engine limits.now store mapping next view) }
    {
        fitting_segments_are_blocks();
        known_segments_stay_known();
        Ok(Engine {
            alloc,
            limits: *limits,
            reader: JsonReader::new(alloc),
            mapping,
            index: IndexCore::over(alloc, view, next, limits.objects)?,
            points: PointsInTime::none(alloc),
            store,
            ordinals: KeptOrdinals::none(),
            calls: 0,
        })
    }

    /// Answers a request: `out` has the reply's text with its newline, or nothing where there was no memory.
    ///
    /// In each state that what the engine keeps is faithful to, the reply is one that the machine may give, and what the
    /// engine keeps afterwards is faithful to the state that this leaves; where the store kept its last commit in each image of
    /// the disk, it does so afterwards, and a stop on the way leaves what `StoreTurn` says. Whatever it keeps, a refusal and
    /// want of memory leave it as it was, or sealed.
    ///
    /// Beside a whole first line, `second` is `NotTaken` exactly where that line takes no source line.
    pub fn answer<D: Disk, L: Ledger>(
        &mut self,
        disk: &mut D,
        first: FirstLine<'_>,
        second: SourceLine<'_>,
        out: &mut OutText,
        steps: &mut Steps<L>,
    ) -> Answered
        requires calls { self.old.calls < 2 ^ 50 }
        requires empty { out.old.bytes ≡ [] }
        ensures answers { (state : State) → IsFaithful self.old state →
            AnswersTo self.old.limits state (request_of first.entry second.entry) result out.new.bytes steps.old steps.new self.old.stored self.new
            (D.content disk.new) (D.image disk.old) (D.image disk.new) (D.moment disk.old) (D.moment disk.new) (D.image_since disk.old) (D.image_since disk.new) (D.faults disk.old) (D.faults disk.new) }
        ensures nothing { result ≡ Answered.NoMemory → out.new.bytes ≡ [] }
        ensures stays { IfNotDone result (StaysOrSeals self.old self.new) }
        ensures limits { self.new.limits ≡ self.old.limits }
        ensures calls { self.new.calls ≡ self.old.calls + 1 }
        ensures room { room_of out.old ≤ room_of out.new }
        ensures store { self.new.stored.limit ≡ self.old.stored.limit }
        ensures told { IsTold (D.content disk.new) → IsTold (D.content disk.old) }
    {
        self.calls += 1;
        match self.reply(disk, first, second, out, steps) {
            Ok(Ended::Accepted) => Answered::Written,
            Ok(Ended::Refused) => Answered::Refused,
            Err(NoMemory) => {
                out.clear();
                Answered::NoMemory
            }
        }
    }

    /// Writes the reply to a request. Where there is no memory, a part of one may stand in `out`.
    #[tactic(auto, using(crate::proofs::Asking::refusal_asked, crate::proofs::Asking::lacking_asked))]
    fn reply<D: Disk, L: Ledger>(
        &mut self,
        disk: &mut D,
        first: FirstLine<'_>,
        second: SourceLine<'_>,
        out: &mut OutText,
        steps: &mut Steps<L>,
    ) -> Result<Ended, NoMemory>
        requires counted { IsCounted self.old }
        requires empty { out.old.bytes ≡ [] }
        ensures answers { (state : State) → IsFaithful self.old state
            → AnswersAsked self.old.limits state (asked_of (first_line_of first.entry) (source_line_of second.entry)) (answered_of result) out.new.bytes self.old.stored self.new
            (D.content disk.new) (D.image disk.old) (D.image disk.new) (D.moment disk.old) (D.moment disk.new) (D.image_since disk.old) (D.image_since disk.new) (D.faults disk.old) (D.faults disk.new) }
        ensures store { self.new.stored.limit ≡ self.old.stored.limit }
        ensures told { IsTold (D.content disk.new) → IsTold (D.content disk.old) }
        ensures few { (state : State) → IsFaithful self.old state → steps.new ≤ steps.old + reads_asked state (asked_of (first_line_of first.entry) (source_line_of second.entry)) }
        ensures stays { IfNotDone (answered_of result) (StaysOrSeals self.old self.new) }
        ensures limits { self.new.limits ≡ self.old.limits }
        ensures calls { self.new.calls ≡ self.old.calls }
        ensures room { room_of out.old ≤ room_of out.new }
    {
        writes_are_formed();
        searches_are_formed();
        merges_are_formed();
        match asked(self.alloc, &mut self.reader, first, second) {
            Ok(action) => self.perform(disk, action, out, steps),
            Err(NoAction::Refused(why)) => refuse(refusal_formed(why), out),
            Err(NoAction::NoMemory) => Err(NoMemory),
        }
    }

    /// Does what is asked for, and writes the reply.
    #[tactic(auto, using(crate::proofs::Asking::plain))]
    fn perform<D: Disk, L: Ledger>(
        &mut self,
        disk: &mut D,
        action: Action,
        out: &mut OutText,
        steps: &mut Steps<L>,
    ) -> Result<Ended, NoMemory>
        requires formed { IsActionFormed (action_view action) }
        requires counted { IsCounted self.old }
        requires empty { out.old.bytes ≡ [] }
        ensures answers { (state : State) → IsFaithful self.old state
            → AnswersAsked self.old.limits state (asks (action_view action)) (answered_of result) out.new.bytes self.old.stored self.new
            (D.content disk.new) (D.image disk.old) (D.image disk.new) (D.moment disk.old) (D.moment disk.new) (D.image_since disk.old) (D.image_since disk.new) (D.faults disk.old) (D.faults disk.new) }
        ensures store { self.new.stored.limit ≡ self.old.stored.limit }
        ensures told { IsTold (D.content disk.new) → IsTold (D.content disk.old) }
        ensures few { (state : State) → IsFaithful self.old state → steps.new ≤ steps.old + reads_by state (action_view action) }
        ensures stays { IfNotDone (answered_of result) (StaysOrSeals self.old self.new) }
        ensures limits { self.new.limits ≡ self.old.limits }
        ensures calls { self.new.calls ≡ self.old.calls }
        ensures room { room_of out.old ≤ room_of out.new }
    {
        match action {
            Action::Mapping(body) => self.map(&body, out),
            Action::Write(it) => self.write(it, out, steps),
            Action::Search(body) => self.search(&body, out, steps),
            Action::Refresh => self.refresh(out),
            Action::Segments => self.segments(out),
            Action::OpenPit => self.open_pit(out),
            Action::ClosePit(id) => self.close_pit(id, out),
            Action::ForceMerge(most) => self.merge(MergeCommand::Force { most }, out),
            Action::StartMerge { from, count } => {
                self.merge(MergeCommand::Start { from, count }, out)
            }
            Action::AdvanceMerge { id, roots } => {
                self.merge(MergeCommand::Advance { id, roots }, out)
            }
            Action::FinishMerge(id) => self.merge(MergeCommand::Finish { id }, out),
            Action::AbortMerge(id) => self.merge(MergeCommand::Abort { id }, out),
            Action::Commit => self.commit(disk, out),
            Action::Compact(most) => self.compact(disk, most, out),
            Action::Trim => self.trim(disk, out),
            Action::Automerge(factor) => self.automerge(factor, out),
        }
    }

    fn map(&mut self, body: &Json, out: &mut OutText) -> Result<Ended, NoMemory>
        requires { out.old.bytes ≡ [] }
        ensures answers { (state : State) → IsFaithful self.old state
            → Answers state (outcome_of state (action_step self.old.limits [] (maps (view body.now)) state)) (answered_of result) out.new.bytes self.new }
        ensures stays { IfNotDone (answered_of result) (StaysOrSeals self.old self.new) }
        ensures limits { self.new.limits ≡ self.old.limits }
        ensures stored { self.new.stored ≡ self.old.stored }
        ensures calls { self.new.calls ≡ self.old.calls }
        ensures room { room_of out.old ≤ room_of out.new }
    {
        further_bodies_leave_blocks();
        self.ordinals.live = None;
        mapping_line(self.alloc, &mut self.mapping, &mut self.index, body, out)
    }

    #[tactic(auto, using(crate::proofs::Asking::refusal_answer, crate::proofs::Asking::unmapped))]
    fn write<L: Ledger>(
        &mut self,
        it: Write,
        out: &mut OutText,
        steps: &mut Steps<L>,
    ) -> Result<Ended, NoMemory>
        requires formed { IsFormed (write_view it) }
        requires empty { out.old.bytes ≡ [] }
        ensures answers { (state : State) → IsFaithful self.old state
            → Answers state (outcome_of state (action_step self.old.limits [] (writes (write_view it)) state)) (answered_of result) out.new.bytes self.new }
        ensures few { steps.new ≤ steps.old + reads_of (operation_view it.operation) }
        ensures stays { IfNotDone (answered_of result) (StaysOrSeals self.old self.new) }
        ensures limits { self.new.limits ≡ self.old.limits }
        ensures stored { self.new.stored ≡ self.old.stored }
        ensures calls { self.new.calls ≡ self.old.calls }
        ensures room { room_of out.old ≤ room_of out.new }
    {
        further_bodies_leave_blocks();
        self.ordinals.live = None; // a write may change the view
        match &mut self.mapping {
            Some(mapping) => write_tree(self.alloc, mapping, &mut self.index, it, out, steps),
            None => without_mapping(it, out),
        }
    }

    #[tactic(auto, using(crate::proofs::Asking::refusal_answer, crate::proofs::Asking::unmapped_sealed))]
    fn search<L: Ledger>(
        &mut self,
        body: &Json,
        out: &mut OutText,
        steps: &mut Steps<L>,
    ) -> Result<Ended, NoMemory>
        requires form { is_search_body (view body.now) ≡ true }
        requires empty { out.old.bytes ≡ [] }
        ensures answers { (state : State) → IsFaithful self.old state
            → Answers state (outcome_of state (action_step self.old.limits [] (searches (view body.now)) state)) (answered_of result) out.new.bytes self.new }
        ensures few { (state : State) → IsFaithful self.old state → steps.new ≤ steps.old + hits_of (view body.now) state.content.mapping state }
        ensures stays { IfNotDone (answered_of result) (StaysOrSeals self.old self.new) }
        ensures limits { self.new.limits ≡ self.old.limits }
        ensures stored { self.new.stored ≡ self.old.stored }
        ensures calls { self.new.calls ≡ self.old.calls }
        ensures room { room_of out.old ≤ room_of out.new }
    {
        match &self.mapping {
            Some(mapping) => search(
                self.alloc,
                &self.limits,
                mapping,
                &mut self.index,
                &mut self.ordinals,
                &self.points,
                body,
                out,
                steps,
            ),
            None => refuse(Refusal::NoMapping, out),
        }
    }

    #[tactic(auto, using(crate::proofs::Asking::refusal_answer, crate::proofs::Asking::unmapped_sealed))]
    fn refresh(&mut self, out: &mut OutText) -> Result<Ended, NoMemory>
        requires { out.old.bytes ≡ [] }
        ensures answers { (state : State) → IsFaithful self.old state
            → Answers state (outcome_of state (action_step self.old.limits [] refreshes state)) (answered_of result) out.new.bytes self.new }
        ensures stays { IfNotDone (answered_of result) (StaysOrSeals self.old self.new) }
        ensures limits { self.new.limits ≡ self.old.limits }
        ensures stored { self.new.stored ≡ self.old.stored }
        ensures calls { self.new.calls ≡ self.old.calls }
        ensures room { room_of out.old ≤ room_of out.new }
    {
        self.ordinals.live = None;
        match &self.mapping {
            Some(mapping) => refresh(mapping, &mut self.index, out),
            None => refuse(Refusal::NoMapping, out),
        }
    }

    #[tactic(auto, using(crate::proofs::Asking::refusal_answer, crate::proofs::Asking::unmapped_sealed))]
    fn segments(&mut self, out: &mut OutText) -> Result<Ended, NoMemory>
        requires { out.old.bytes ≡ [] }
        ensures answers { (state : State) → IsFaithful self.old state
            → Answers state (outcome_of state (action_step self.old.limits [] shows_segments state)) (answered_of result) out.new.bytes self.new }
        ensures stays { IfNotDone (answered_of result) (StaysOrSeals self.old self.new) }
        ensures limits { self.new.limits ≡ self.old.limits }
        ensures stored { self.new.stored ≡ self.old.stored }
        ensures calls { self.new.calls ≡ self.old.calls }
        ensures room { room_of out.old ≤ room_of out.new }
    {
        self.ordinals.live = None;
        match &self.mapping {
            Some(mapping) => {
                show_segments(self.alloc, &self.limits, mapping, &mut self.index, out)
            }
            None => refuse(Refusal::NoMapping, out),
        }
    }

    #[tactic(auto, using(crate::proofs::Asking::refusal_answer, crate::proofs::Asking::unmapped_sealed))]
    fn open_pit(&mut self, out: &mut OutText) -> Result<Ended, NoMemory>
        requires counted { IsCounted self.old }
        requires empty { out.old.bytes ≡ [] }
        ensures answers { (state : State) → IsFaithful self.old state
            → Answers state (outcome_of state (action_step self.old.limits [] opens state)) (answered_of result) out.new.bytes self.new }
        ensures stays { IfNotDone (answered_of result) (StaysOrSeals self.old self.new) }
        ensures limits { self.new.limits ≡ self.old.limits }
        ensures stored { self.new.stored ≡ self.old.stored }
        ensures calls { self.new.calls ≡ self.old.calls }
        ensures room { room_of out.old ≤ room_of out.new }
    {
        self.ordinals = KeptOrdinals::none();
        match &self.mapping {
            Some(mapping) => open_pit(mapping, &mut self.index, &mut self.points, out),
            None => refuse(Refusal::NoMapping, out),
        }
    }

    #[tactic(auto, using(crate::proofs::Asking::refusal_answer, crate::proofs::Asking::unmapped_sealed))]
    fn close_pit(&mut self, id: u64, out: &mut OutText) -> Result<Ended, NoMemory>
        requires { out.old.bytes ≡ [] }
        ensures answers { (state : State) → IsFaithful self.old state
            → Answers state (outcome_of state (action_step self.old.limits [] (closes id) state)) (answered_of result) out.new.bytes self.new }
        ensures stays { IfNotDone (answered_of result) (StaysOrSeals self.old self.new) }
        ensures limits { self.new.limits ≡ self.old.limits }
        ensures stored { self.new.stored ≡ self.old.stored }
        ensures calls { self.new.calls ≡ self.old.calls }
        ensures room { room_of out.old ≤ room_of out.new }
    {
        self.ordinals = KeptOrdinals::none();
        match &self.mapping {
            Some(mapping) => close_pit(mapping, &mut self.index, &mut self.points, id, out),
            None => refuse(Refusal::NoMapping, out),
        }
    }

    #[tactic(auto, using(crate::proofs::Asking::refusal_answer, crate::proofs::Asking::unmapped_sealed))]
    fn merge(&mut self, command: MergeCommand, out: &mut OutText) -> Result<Ended, NoMemory>
        requires formed { IsMergeFormed command }
        requires empty { out.old.bytes ≡ [] }
        ensures answers { (state : State) → IsFaithful self.old state
            → Answers state (outcome_of state (sealing (mapped (merge_step command)) state)) (answered_of result) out.new.bytes self.new }
        ensures stays { IfNotDone (answered_of result) (StaysOrSeals self.old self.new) }
        ensures limits { self.new.limits ≡ self.old.limits }
        ensures stored { self.new.stored ≡ self.old.stored }
        ensures calls { self.new.calls ≡ self.old.calls }
        ensures room { room_of out.old ≤ room_of out.new }
    {
        self.ordinals.live = None;
        match &self.mapping {
            Some(mapping) => merge_segments(mapping, &mut self.index, command, out),
            None => refuse(Refusal::NoMapping, out),
        }
    }

    #[tactic(auto, using(crate::proofs::Asking::refusal_answer, crate::proofs::Asking::unmapped))]
    fn automerge(&mut self, factor: Option<u64>, out: &mut OutText) -> Result<Ended, NoMemory>
        requires factor { IfSome factor IsFactor }
        requires empty { out.old.bytes ≡ [] }
        ensures answers { (state : State) → IsFaithful self.old state
            → Answers state (outcome_of state (action_step self.old.limits [] (merges_by factor) state)) (answered_of result) out.new.bytes self.new }
        ensures stays { IfNotDone (answered_of result) (StaysOrSeals self.old self.new) }
        ensures limits { self.new.limits ≡ self.old.limits }
        ensures stored { self.new.stored ≡ self.old.stored }
        ensures calls { self.new.calls ≡ self.old.calls }
        ensures room { room_of out.old ≤ room_of out.new }
    {
        self.ordinals.live = None;
        match &self.mapping {
            Some(mapping) => merge_by_factor(mapping, &mut self.index, factor, out),
            None => refuse(Refusal::NoMapping, out),
        }
    }

    /// Commits what is kept.
    fn commit<D: Disk>(&mut self, disk: &mut D, out: &mut OutText) -> Result<Ended, NoMemory>
        requires { out.old.bytes ≡ [] }
        ensures answers { (state : State) → IsFaithful self.old state
            → AnswersAsked self.old.limits state (asks commits) (answered_of result) out.new.bytes self.old.stored self.new
            (D.content disk.new) (D.image disk.old) (D.image disk.new) (D.moment disk.old) (D.moment disk.new) (D.image_since disk.old) (D.image_since disk.new) (D.faults disk.old) (D.faults disk.new) }
        ensures store { self.new.stored.limit ≡ self.old.stored.limit }
        ensures told { IsTold (D.content disk.new) → IsTold (D.content disk.old) }
        ensures stays { IfNotDone (answered_of result) (StaysOrSeals self.old self.new) }
        ensures limits { self.new.limits ≡ self.old.limits }
        ensures calls { self.new.calls ≡ self.old.calls }
        ensures room { room_of out.old ≤ room_of out.new }
    {
        self.ordinals.live = None;
        match &self.mapping {
            Some(mapping) => storing::commit(mapping, &mut self.index, &mut self.store, disk, out),
            None => refuse(Refusal::NoMapping, out),
        }
    }

    /// Commits what is kept, and moves at most so many segments towards the front of the file.
    fn compact<D: Disk>(
        &mut self,
        disk: &mut D,
        most: u64,
        out: &mut OutText,
    ) -> Result<Ended, NoMemory>
        requires { out.old.bytes ≡ [] }
        ensures answers { (state : State) → IsFaithful self.old state
            → AnswersAsked self.old.limits state (asks (compacts most)) (answered_of result) out.new.bytes self.old.stored self.new
            (D.content disk.new) (D.image disk.old) (D.image disk.new) (D.moment disk.old) (D.moment disk.new) (D.image_since disk.old) (D.image_since disk.new) (D.faults disk.old) (D.faults disk.new) }
        ensures store { self.new.stored.limit ≡ self.old.stored.limit }
        ensures told { IsTold (D.content disk.new) → IsTold (D.content disk.old) }
        ensures stays { IfNotDone (answered_of result) (StaysOrSeals self.old self.new) }
        ensures limits { self.new.limits ≡ self.old.limits }
        ensures calls { self.new.calls ≡ self.old.calls }
        ensures room { room_of out.old ≤ room_of out.new }
    {
        self.ordinals.live = None;
        match &self.mapping {
            Some(mapping) => storing::compact(
                mapping,
                &mut self.index,
                &mut self.store,
                disk,
                most,
                out,
            ),
            None => refuse(Refusal::NoMapping, out),
        }
    }

    /// Cuts the file behind what the last commit names.
    fn trim<D: Disk>(&mut self, disk: &mut D, out: &mut OutText) -> Result<Ended, NoMemory>
        requires { out.old.bytes ≡ [] }
        ensures answers { (state : State) → IsFaithful self.old state
            → AnswersAsked self.old.limits state (asks trims) (answered_of result) out.new.bytes self.old.stored self.new
            (D.content disk.new) (D.image disk.old) (D.image disk.new) (D.moment disk.old) (D.moment disk.new) (D.image_since disk.old) (D.image_since disk.new) (D.faults disk.old) (D.faults disk.new) }
        ensures store { self.new.stored.limit ≡ self.old.stored.limit }
        ensures told { IsTold (D.content disk.new) → IsTold (D.content disk.old) }
        ensures stays { IfNotDone (answered_of result) (StaysOrSeals self.old self.new) }
        ensures limits { self.new.limits ≡ self.old.limits }
        ensures calls { self.new.calls ≡ self.old.calls }
        ensures room { room_of out.old ≤ room_of out.new }
    {
        self.ordinals.live = None;
        match &self.mapping {
            Some(mapping) => storing::trim(mapping, &mut self.index, &mut self.store, disk, out),
            None => refuse(Refusal::NoMapping, out),
        }
    }
}

/// Refuses a write where there is no mapping.
fn without_mapping(_it: Write, out: &mut OutText) -> Result<Ended, NoMemory>
    requires { out.old.bytes ≡ [] }
    ensures refused { IsRefusal no_mapping result out.new.bytes }
    ensures room { room_of out.old ≤ room_of out.new }
{
    refuse(Refusal::NoMapping, out)
}

/// Why lines are no request, as a reply says it.
fn refusal_formed(why: FormRefusal) -> Refusal
    ensures { result ≡ refusal_formed why }
{
    match why {
        FormRefusal::BadJson => Refusal::BadJson,
        FormRefusal::FractionNumber => Refusal::FractionNumber,
        FormRefusal::LineTooLong => Refusal::LineTooLong,
        FormRefusal::BadRequest => Refusal::BadRequest,
        FormRefusal::MissingSource => Refusal::MissingSource,
    }
}
