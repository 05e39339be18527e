//! Points in time.

ghost use Rattle.std.specs.Prelude.{◌≡◌, ◌<◌, ◌≤◌, ◌^◌, length, IfOk};
ghost use Rattle.index_core.specs.Kept.{IndexFits};
ghost use Rattle.reply_text.specs.Text.{line_of};
ghost use Rattle.layout_commands.specs.declared.TheConstants.{LONGEST_LINE};
ghost use Rattle.layout_commands.specs.Ends.{IsClosed, IsOpened};

use crate::not_done::NotDone;
use index_core::IndexCore;
use mapping::Mapping;
use point_in_time::PointsInTime;
use reply_text::{Refusal, Reply};

/// Opens a point in time on the sealed index.
#[tactic(auto, using(crate::proofs::Short::short))]
pub fn open_point(
    mapping: &Mapping,
    index: &mut IndexCore,
    points: &mut PointsInTime,
) -> Result<Reply, NotDone>
    requires fits { IndexFits mapping.now index.old }
    requires opened { points.old.opened < 2 ^ 63 }
    ensures opened { IsOpened result index.old index.new points.old points.new }
    ensures short { IfOk result (λ reply. length (line_of reply) ≤ LONGEST_LINE) }
    ensures next { index.new.next ≡ index.old.next }
    ensures objects { index.new.objects ≡ index.old.objects }
    ensures fits { IndexFits mapping.now index.new }
{
    if points.is_full() {
        return Err(NotDone::Refused(Refusal::TooManyPits));
    }
    index.seal(mapping)?;
    let view = index.pin()?;
    match points.open(view) {
        Ok(pit) => Ok(Reply::PitOpened { pit }),
        Err(_) => Err(NotDone::NoMemory),
    }
}

/// Closes a point in time.
#[tactic(auto, using(crate::proofs::Short::short))]
pub fn close_point(
    mapping: &Mapping,
    index: &mut IndexCore,
    points: &mut PointsInTime,
    id: u64,
) -> Result<Reply, NotDone>
    requires { IndexFits mapping.now index.old }
    ensures closed { IsClosed id result index.old index.new points.old points.new }
    ensures short { IfOk result (λ reply. length (line_of reply) ≤ LONGEST_LINE) }
    ensures next { index.new.next ≡ index.old.next }
    ensures objects { index.new.objects ≡ index.old.objects }
    ensures fits { IndexFits mapping.now index.new }
{
    if !points.is_open(id) {
        return Err(NotDone::Refused(Refusal::UnknownPit));
    }
    index.seal(mapping)?;
    let _was = points.close(id);
    Ok(Reply::PitClosed { pit: id })
}
