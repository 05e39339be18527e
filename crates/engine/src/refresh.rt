//! `refresh`: the buffer is sealed.

ghost use Rattle.std.specs.Prelude.{◌≡◌, ◌≤◌, [], Some};
ghost use Rattle.tree_json.specs.Output.{room_of};
ghost use Rattle.machine.specs.Answer.{outcome_of};
ghost use Rattle.machine.specs.State.{State, sealed_state};
ghost use Rattle.machine.specs.Step.{refresh_step};
ghost use Rattle.index_trees.specs.Faithful.{AreFaithful};
ghost use Rattle.engine.specs.Kept.{IsIndexOf};
ghost use Rattle.engine.specs.Parts.{Ends, Leaves, answered_of};

use crate::no_memory::NoMemory;
use crate::reply::{Ended, write};
use index_core::IndexCore;
use mapping::Mapping;
use reply_text::Reply;
use tree_json::OutText;

/// Answers `refresh`.
#[tactic(auto, using(crate::proofs::Answering::left, crate::proofs::Answering::same_faithful))]
pub(crate) fn refresh(
    mapping: &Mapping,
    index: &mut IndexCore,
    out: &mut OutText,
) -> Result<Ended, NoMemory>
    requires index { IsIndexOf mapping.now index.old }
    requires empty { out.old.bytes ≡ [] }
    ensures answers { (state : State) → AreFaithful (Some mapping.now) index.old state
        → Ends state (outcome_of state (refresh_step mapping.now (sealed_state state))) (answered_of result) out.new.bytes (Some mapping.now) index.new }
    ensures leaves { Leaves (answered_of result) (Some mapping.now) (Some mapping.now) mapping.now index.old index.new }
    ensures room { room_of out.old ≤ room_of out.new }
{
    write(&Reply::Refreshed, out)?;
    index.seal(mapping)?;
    Ok(Ended::Accepted)
}
