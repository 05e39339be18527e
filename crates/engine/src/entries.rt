//! The entries of an index, and the trees that they stand for.

ghost use Rattle.std.specs.Prelude.{◌≡◌, List, map};
ghost use Rattle.flattener.specs.StandsFor.{Marked, ViewStandsFor};
ghost use Rattle.mapping.specs.IsMapping.{IsMapping};
ghost use Rattle.mapping.specs.Mapping.{Mapping};
ghost use Rattle.segment_builder.specs.Blocks.{block_of_marked, blocks_in};
ghost use Rattle.tree_objects.specs.Tree.{Tree};

use segment_builder::blocks_stand_for_trees;
use segment_view::Entry;

/// Entries stand for trees where their blocks are those of the trees, each live where its tree is. Does nothing.
pub(crate) fn entries_stand(entries: &[Entry])
    ensures { (m : Mapping) (trees : List (List (Marked Tree))) → IsMapping m → map blocks_in entries.now ≡ map (map (block_of_marked m)) trees → ViewStandsFor m entries.now trees }
{
    'entries: for entry in entries {
        blocks_stand_for_trees(entry.segment(), entry.live());
    }
}
