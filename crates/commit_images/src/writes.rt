//! Several writes, one behind another.

ghost use Rattle.std.specs.Prelude.{map, OnOk};
ghost use Rattle.io_edges.specs.Faults.{HasCause};
ghost use Rattle.disk.specs.Stops.{IsTold, Passes, Within};
ghost use Rattle.commit_images.specs.Writes.{piece_of, LeftBy, TakesEach};

use crate::block::Block;
use disk::Disk;
use io_edges::Failed;

/// Writes all of the blocks, in order. It failed where a write failed; the later ones were not made then.
pub fn write_each<D: Disk>(disk: &mut D, blocks: &[Block]) -> Result<(), Failed>
    ensures content { OnOk result (TakesEach (map piece_of blocks.now) (D.content disk.old) (D.content disk.new)) }
    ensures told { IsTold (D.content disk.new) → IsTold (D.content disk.old) }
    ensures images { Within (D.image disk.new) (LeftBy (map piece_of blocks.now) (D.image disk.old)) }
    ensures time { Passes (D.moment disk.old) (D.moment disk.new) (D.image_since disk.old) (D.image_since disk.new) (LeftBy (map piece_of blocks.now) (D.image disk.old)) }
    ensures cause { HasCause (D.faults disk.old) (D.faults disk.new) result }
{
    'writes: for block in blocks {
        disk.write_at(block.at, block.bytes)?;
    }
    Ok(())
}
