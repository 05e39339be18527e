//! Points in time: what was live at a moment, under an id.

ghost use Rattle.std.specs.Prelude.{◌≡◌, ◌≤◌, ◌<◌, ◌+◌, ◌^◌, [], Some};
ghost use Rattle.machine.specs.Answer.{outcome_of};
ghost use Rattle.machine.specs.Points.{close_step, open_step};
ghost use Rattle.machine.specs.State.{State, sealed_state};
ghost use Rattle.tree_json.specs.Output.{room_of};
ghost use Rattle.engine.specs.Answers.{IfNotDone};
ghost use Rattle.index_trees.specs.Faithful.{AreFaithful, PointsStandFor};
ghost use Rattle.engine.specs.Kept.{IsIndexOf, PointsFit};
ghost use Rattle.engine.specs.Parts.{EndsWith, Leaves, answered_of};

use crate::no_memory::NoMemory;
use crate::reply::{Ended, make_room, refuse, tell};
use index_core::IndexCore;
use layout_commands::{NotDone, close_point, open_point};
use mapping::Mapping;
use point_in_time::PointsInTime;
use tree_json::OutText;

/// Answers `open_pit`. The room for its reply is taken first.
pub(crate) fn open_pit(
    mapping: &Mapping,
    index: &mut IndexCore,
    points: &mut PointsInTime,
    out: &mut OutText,
) -> Result<Ended, NoMemory>
    requires index { IsIndexOf mapping.now index.old }
    requires fit { PointsFit mapping.now points.old }
    requires opened { points.old.opened < 2 ^ 63 }
    requires empty { out.old.bytes ≡ [] }
    ensures answers { (state : State) → AreFaithful (Some mapping.now) index.old state → PointsStandFor (Some mapping.now) points.old state.points
        → EndsWith state (outcome_of state (open_step mapping.now (sealed_state state))) (answered_of result) out.new.bytes (Some mapping.now) index.new points.new }
    ensures leaves { Leaves (answered_of result) (Some mapping.now) (Some mapping.now) mapping.now index.old index.new }
    ensures same { IfNotDone (answered_of result) (points.new ≡ points.old) }
    ensures fit { PointsFit mapping.now points.new }
    ensures opened { points.new.opened ≤ points.old.opened + 1 }
    ensures room { room_of out.old ≤ room_of out.new }
{
    make_room(out)?;
    match open_point(mapping, index, points) {
        Ok(reply) => {
            let _fits = index.view();
            Ok(tell(&reply, out))
        }
        Err(NotDone::Refused(why)) => refuse(why, out),
        Err(NotDone::NoMemory) => Err(NoMemory),
    }
}

/// Answers `close_pit`. The room for its reply is taken first.
pub(crate) fn close_pit(
    mapping: &Mapping,
    index: &mut IndexCore,
    points: &mut PointsInTime,
    id: u64,
    out: &mut OutText,
) -> Result<Ended, NoMemory>
    requires index { IsIndexOf mapping.now index.old }
    requires fit { PointsFit mapping.now points.old }
    requires empty { out.old.bytes ≡ [] }
    ensures answers { (state : State) → AreFaithful (Some mapping.now) index.old state → PointsStandFor (Some mapping.now) points.old state.points
        → EndsWith state (outcome_of state (close_step id mapping.now (sealed_state state))) (answered_of result) out.new.bytes (Some mapping.now) index.new points.new }
    ensures leaves { Leaves (answered_of result) (Some mapping.now) (Some mapping.now) mapping.now index.old index.new }
    ensures same { IfNotDone (answered_of result) (points.new ≡ points.old) }
    ensures fit { PointsFit mapping.now points.new }
    ensures opened { points.new.opened ≡ points.old.opened }
    ensures room { room_of out.old ≤ room_of out.new }
{
    make_room(out)?;
    match close_point(mapping, index, points, id) {
        Ok(reply) => Ok(tell(&reply, out)),
        Err(NotDone::Refused(why)) => refuse(why, out),
        Err(NotDone::NoMemory) => Err(NoMemory),
    }
}
