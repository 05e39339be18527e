//! Mapping lines: the first one, and those that add to a mapping.

ghost use Rattle.std.specs.Prelude.{◌≡◌, ◌≤◌, [], Some, None};
ghost use Rattle.layout.specs.Layout.{empty_layout};
ghost use Rattle.layout_ids.specs.Ids.{KeepsItems};
ghost use Rattle.index_core.specs.Kept.{layout_kept};
ghost use Rattle.tree_json.specs.Output.{room_of};
ghost use Rattle.tree_json.specs.View.{view};
ghost use Rattle.machine.specs.Answer.{outcome_of};
ghost use Rattle.machine.specs.MappingLine.{mapping_step};
ghost use Rattle.machine.specs.State.{State, sealed_state};
ghost use Rattle.engine.specs.Answers.{IfNotDone};
ghost use Rattle.index_trees.specs.Faithful.{AreFaithful};
ghost use Rattle.engine.specs.Kept.{IsIndexOf, IsUnder};
ghost use Rattle.engine.specs.Parts.{Ends, Grows, GrowsFrom, IndexStays, Leaves, answered_of};

use crate::no_memory::NoMemory;
use crate::reply::{Ended, refuse, write};
use flattener::further_bodies_leave_blocks;
use index_core::IndexCore;
use mapping::Mapping;
use reply_text::Reply;
use std::alloc::Global;
use tree_json::{Json, OutText};
use write_plan::{PlanRefusal, first_mapping, further_mapping};

/// Answers a mapping line.
#[tactic(auto, using(crate::proofs::Items::items_same))]
pub(crate) fn mapping_line(
    alloc: Global,
    mapping: &mut Option<Mapping>,
    index: &mut IndexCore,
    body: &Json,
    out: &mut OutText,
) -> Result<Ended, NoMemory>
    requires under { IsUnder mapping.old index.old }
    requires empty { out.old.bytes ≡ [] }
    ensures answers { (state : State) → AreFaithful mapping.old index.old state
        → Ends state (outcome_of state (mapping_step (view body.now) (sealed_state state))) (answered_of result) out.new.bytes mapping.new index.new }
    ensures under { IsUnder mapping.new index.new }
    ensures grows { GrowsFrom mapping.old mapping.new }
    ensures items { KeepsItems (layout_kept index.old) (layout_kept index.new) }
    ensures objects { index.new.objects ≡ index.old.objects }
    ensures stays { IfNotDone (answered_of result) (IndexStays mapping.old mapping.new index.old index.new) }
    ensures room { room_of out.old ≤ room_of out.new }
{
    match mapping {
        None => first_line(alloc, mapping, index, body, out),
        Some(mapping) => further_line(alloc, mapping, index, body, out),
    }
}

/// Answers the first mapping line. There is nothing to be sealed.
#[tactic(auto, using(crate::proofs::Answering::lacking, crate::proofs::Answering::left, crate::proofs::Leaving::empty_index, crate::proofs::Lines::first_accepted))]
fn first_line(
    alloc: Global,
    mapping: &mut Option<Mapping>,
    index: &IndexCore,
    body: &Json,
    out: &mut OutText,
) -> Result<Ended, NoMemory>
    requires none { mapping.old ≡ None }
    requires nothing { layout_kept index.now ≡ empty_layout }
    requires empty { out.old.bytes ≡ [] }
    ensures answers { (state : State) → AreFaithful mapping.old index.now state
        → Ends state (outcome_of state (mapping_step (view body.now) (sealed_state state))) (answered_of result) out.new.bytes mapping.new index.now }
    ensures under { IsUnder mapping.new index.now }
    ensures stays { IfNotDone (answered_of result) (mapping.new ≡ None) }
    ensures room { room_of out.old ≤ room_of out.new }
{
    match first_mapping(alloc, body) {
        Ok(first) => {
            write(&Reply::Mapped, out)?;
            *mapping = Some(first);
            Ok(Ended::Accepted)
        }
        Err(PlanRefusal::Refused(why)) => refuse(why, out),
        Err(PlanRefusal::NoMemory) => Err(NoMemory),
    }
}

/// Answers a further mapping line. The buffer is sealed under the mapping that there was.
#[tactic(auto, using(crate::proofs::Answering::lacking, crate::proofs::Answering::left, crate::proofs::Answering::same_faithful))]
fn further_line(
    alloc: Global,
    mapping: &mut Mapping,
    index: &mut IndexCore,
    body: &Json,
    out: &mut OutText,
) -> Result<Ended, NoMemory>
    requires index { IsIndexOf mapping.old index.old }
    requires empty { out.old.bytes ≡ [] }
    ensures answers { (state : State) → AreFaithful (Some mapping.old) index.old state
        → Ends state (outcome_of state (mapping_step (view body.now) (sealed_state state))) (answered_of result) out.new.bytes (Some mapping.new) index.new }
    ensures leaves { Leaves (answered_of result) (Some mapping.old) (Some mapping.new) mapping.new index.old index.new }
    ensures grows { Grows mapping.old mapping.new }
    ensures room { room_of out.old ≤ room_of out.new }
{
    further_bodies_leave_blocks();
    let _scopes = mapping.scope_count();
    match further_mapping(alloc, mapping, body) {
        Ok(further) => {
            write(&Reply::Mapped, out)?;
            index.seal(mapping)?;
            further.settle(mapping);
            let _scopes = mapping.scope_count();
            Ok(Ended::Accepted)
        }
        Err(PlanRefusal::Refused(why)) => refuse(why, out),
        Err(PlanRefusal::NoMemory) => Err(NoMemory),
    }
}
