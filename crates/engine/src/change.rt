//! A change of the index, whose reply is written before it.

ghost use Rattle.std.specs.Prelude.{◌≡◌, ◌≤◌};
ghost use Rattle.index_core.specs.Kept.{IndexFits};
ghost use Rattle.index_core.specs.Write.{IsNext};
ghost use Rattle.tree_json.specs.Output.{room_of};
ghost use Rattle.engine.specs.Parts.{IsChanged};

use crate::no_memory::NoMemory;
use crate::reply::{Ended, refuse};
use index_core::{IndexCore, WriteOp, WriteRefusal};
use mapping::Mapping;
use reply_text::Refusal;
use tree_json::OutText;

/// Makes a change whose reply stands in `out`, or takes the reply back where the index is full.
pub(crate) fn change(
    mapping: &Mapping,
    index: &mut IndexCore,
    op: WriteOp,
    out: &mut OutText,
) -> Result<Ended, NoMemory>
    requires fits { IndexFits mapping.now index.old }
    requires next { IsNext mapping.now index.old.next op }
    ensures changed { IsChanged result op index.old index.new out.old.bytes out.new.bytes }
    ensures fits { IndexFits mapping.now index.new }
    ensures objects { index.new.objects ≡ index.old.objects }
    ensures room { room_of out.old ≤ room_of out.new }
{
    match index.write(mapping, op) {
        Ok(_done) => Ok(Ended::Accepted),
        Err(WriteRefusal::IndexFull) => {
            out.clear();
            refuse(Refusal::IndexFull, out)
        }
        Err(WriteRefusal::NoMemory) => Err(NoMemory),
    }
}
