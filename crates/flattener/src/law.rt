//! Laws of blocks, as the contracts of functions that do nothing.
ghost use Rattle.mapping.specs.IsMapping.{IsMapping};
ghost use Rattle.std.specs.Prelude.{◌≡◌, List, ◌≤◌};
ghost use Rattle.std.specs.List.{All, AllByRecursion};
ghost use Rattle.mapping.specs.Growth.{HasFurtherBodies};
ghost use Rattle.mapping.specs.Mapping.{Mapping, generation_of};
ghost use Rattle.mapping.specs.Reached.{AreReached};
ghost use Rattle.segment.specs.Live.{LiveState};
ghost use Rattle.segment_parts.specs.declared.columns.Columns.{Columns};
ghost use Rattle.tree_objects.specs.Tree.{Tree};
ghost use Rattle.flattener.specs.Block.{BlockState, block_of};
ghost use Rattle.flattener.specs.Fits.{BlockFits, IsRootOf, SegmentFits};
ghost use Rattle.flattener.specs.Small.{IsSmall};
ghost use Rattle.flattener.specs.StandsFor.{EntryStandsFor, Marked};

use analysis::words_are_fewer_than_bytes;
use tree_objects::{further_bodies_leave_trees, values_are_bounded};

/// A block that fits a mapping is a root with its documents, as a segment that fits the mapping has them.
pub fn blocks_are_of_their_mapping()
    ensures { (m : Mapping) (block : BlockState) → IsMapping m → BlockFits m block → IsRootOf m block.root block.flats }
{}

/// The documents of a block that fits a mapping carry no more than a segment can hold.
pub fn blocks_are_small()
    ensures { (m : Mapping) (block : BlockState) → IsMapping m → AreReached m → BlockFits m block → All IsSmall block.flats }
{
    words_are_fewer_than_bytes();
    values_are_bounded();
}

/// Further bodies of a mapping leave blocks as they were: a tree has the same block, an entry stands for its trees, and a
/// segment and a block fit, under a mapping that has grown since.
pub fn further_bodies_leave_blocks()
    ensures entry { (m m2 : Mapping) (columns : Columns) (bits : LiveState) (trees : List (Marked Tree)) → IsMapping m2 → HasFurtherBodies m m2 → AllByRecursion (λ (t : Marked Tree). t.item.generation ≤ generation_of m) trees → EntryStandsFor m columns bits trees → EntryStandsFor m2 columns bits trees }
    ensures segment { (m m2 : Mapping) (columns : Columns) → IsMapping m → HasFurtherBodies m m2 → SegmentFits m columns → SegmentFits m2 columns }
    ensures same { (m m2 : Mapping) (tree : Tree) → IsMapping m → IsMapping m2 → HasFurtherBodies m m2 → tree.generation ≤ generation_of m → block_of m2 tree ≡ block_of m tree }
    ensures block { (m m2 : Mapping) (block : BlockState) → IsMapping m → IsMapping m2 → HasFurtherBodies m m2 → BlockFits m block → BlockFits m2 block }
{
    further_bodies_leave_trees();
}
