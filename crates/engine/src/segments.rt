//! Commands on the layout: its rows, merges, and merges that come by themselves.

ghost use Rattle.std.specs.Prelude.{◌≡◌, ◌≤◌, [], Option, Some, IfSome};
ghost use Rattle.layout_commands.specs.Ends.{IsFormed};
ghost use Rattle.machine.specs.Answer.{outcome_of};
ghost use Rattle.machine.specs.Merging.{automerge_step, merge_step, segments_step};
ghost use Rattle.machine.specs.State.{State, sealed_state};
ghost use Rattle.request_form.specs.Formed.{IsFactor};
ghost use Rattle.tree_json.specs.Output.{room_of};
ghost use Rattle.index_trees.specs.Faithful.{AreFaithful};
ghost use Rattle.engine.specs.Kept.{IsIndexOf};
ghost use Rattle.engine.specs.Parts.{Ends, Leaves, answered_of};

use crate::no_memory::NoMemory;
use crate::reply::{Ended, make_room, refuse, tell, write_within};
use index_core::IndexCore;
use layout_commands::{NotDone, automerge, merge, rows};
use machine::{Limits, MergeCommand};
use mapping::Mapping;
use std::alloc::Global;
use tree_json::OutText;

/// Answers `segments`.
#[tactic(auto, using(crate::proofs::Answering::left, crate::proofs::Answering::same_faithful))]
pub(crate) fn show_segments(
    alloc: Global,
    limits: &Limits,
    mapping: &Mapping,
    index: &mut IndexCore,
    out: &mut OutText,
) -> Result<Ended, NoMemory>
    requires index { IsIndexOf mapping.now index.old }
    requires empty { out.old.bytes ≡ [] }
    ensures answers { (state : State) → AreFaithful (Some mapping.now) index.old state
        → Ends state (outcome_of state (segments_step limits.now mapping.now (sealed_state state))) (answered_of result) out.new.bytes (Some mapping.now) index.new }
    ensures leaves { Leaves (answered_of result) (Some mapping.now) (Some mapping.now) mapping.now index.old index.new }
    ensures room { room_of out.old ≤ room_of out.new }
{
    index.seal(mapping)?;
    let reply = rows(alloc, index)?;
    write_within(limits, &reply, out)
}

/// Answers a merge command. The room for its reply is taken first: what is done is told.
#[tactic(auto, using(crate::proofs::Answering::left, crate::proofs::Answering::same_faithful))]
pub(crate) fn merge_segments(
    mapping: &Mapping,
    index: &mut IndexCore,
    command: MergeCommand,
    out: &mut OutText,
) -> Result<Ended, NoMemory>
    requires index { IsIndexOf mapping.now index.old }
    requires formed { IsFormed command }
    requires empty { out.old.bytes ≡ [] }
    ensures answers { (state : State) → AreFaithful (Some mapping.now) index.old state
        → Ends state (outcome_of state (merge_step command mapping.now (sealed_state state))) (answered_of result) out.new.bytes (Some mapping.now) index.new }
    ensures leaves { Leaves (answered_of result) (Some mapping.now) (Some mapping.now) mapping.now index.old index.new }
    ensures room { room_of out.old ≤ room_of out.new }
{
    make_room(out)?;
    match merge(mapping, index, command) {
        Ok(reply) => Ok(tell(&reply, out)),
        Err(NotDone::Refused(why)) => refuse(why, out),
        Err(NotDone::NoMemory) => Err(NoMemory),
    }
}

/// Answers `automerge`.
#[tactic(auto, using(crate::proofs::Answering::left, crate::proofs::Answering::same_faithful))]
pub(crate) fn merge_by_factor(
    mapping: &Mapping,
    index: &mut IndexCore,
    factor: Option<u64>,
    out: &mut OutText,
) -> Result<Ended, NoMemory>
    requires index { IsIndexOf mapping.now index.old }
    requires factor { IfSome factor IsFactor }
    requires empty { out.old.bytes ≡ [] }
    ensures answers { (state : State) → AreFaithful (Some mapping.now) index.old state
        → Ends state (outcome_of state (automerge_step factor mapping.now state)) (answered_of result) out.new.bytes (Some mapping.now) index.new }
    ensures leaves { Leaves (answered_of result) (Some mapping.now) (Some mapping.now) mapping.now index.old index.new }
    ensures room { room_of out.old ≤ room_of out.new }
{
    make_room(out)?;
    let reply = automerge(mapping, index, factor.unwrap_or(0))?;
    Ok(tell(&reply, out))
}
