//! What the blocks of an entry say of trees, as laws for the crates above: call the function where you need its clauses.

ghost use Rattle.std.specs.Prelude.{◌≡◌, ◌+◌, ◌<◌, ◌^◌, ℕ, List, count_by, filter, length, map, replicate, slice_get, Some};
ghost use Rattle.std.specs.List.{All, AllByRecursion, flat_map};
ghost use Rattle.block_bits.specs.Flags.{is_marked};
ghost use Rattle.flattener.specs.Block.{BlockState};
ghost use Rattle.flattener.specs.Fits.{IsRootOf, SegmentFits};
ghost use Rattle.flattener.specs.Small.{IsSmall};
ghost use Rattle.flattener.specs.StandsFor.{Marked, EntryStandsFor};
ghost use Rattle.mapping.specs.IsMapping.{IsMapping};
ghost use Rattle.mapping.specs.Mapping.{Mapping, kind_at};
ghost use Rattle.segment.specs.Agree.{AreColumns};
ghost use Rattle.segment.specs.Flat.{flats_of, roots_of};
ghost use Rattle.segment.specs.Live.{IsLiveOver, LiveState, block_end, block_start, killed};
ghost use Rattle.segment_parts.specs.declared.columns.Columns.{Columns};
ghost use Rattle.segment_builder.specs.Blocks.{blocks_of, marked_by, block_of_marked, dead_at, objects_of};
ghost use Rattle.segment_builder.specs.ByKey.{AreByKey, SayAtKeys, terms_of_kind};
ghost use Rattle.segment_builder.specs.Entries.{EntriesState, flats_in, no_entries, with_blocks};
ghost use Rattle.segment_builder.specs.Form.{IsFit, IsOrdered};
ghost use Rattle.segment_builder.specs.Given.{AreGiven};
ghost use Rattle.segment_builder.specs.Groups.{of_key};
ghost use Rattle.segment_builder.specs.Made.{IsMade, all_terms};
ghost use Rattle.segment_builder.specs.Parts.{entries_from, texts_from};
ghost use Rattle.term_table.specs.Terms.{term_cmp};
ghost use Rattle.layout.specs.Layout.{is_live, item_in};
ghost use Rattle.tree_objects.specs.Tree.{Tree};

use segment::{LiveBits, Segment, scopes_are_of_documents, terms_are_of_documents};
use term_table::keys_are_ordered;

/// A segment with its live bits stands for trees where its blocks are those of the trees, each live where its tree is.
/// Does nothing.
pub fn blocks_stand_for_trees(segment: &Segment, live: &LiveBits)
    requires { IsLiveOver segment.now live.now }
    ensures { (m : Mapping) (trees : List (Marked Tree)) → IsMapping m → marked_by (blocks_of segment.now) live.now.roots ≡ map (block_of_marked m) trees
        → EntryStandsFor m segment.now live.now trees }
{
    let _ = segment.docs();
    scopes_are_of_documents(segment);
}

/// Where a root of a segment is killed, its block alone is marked dead. Does nothing.
pub fn deaths_mark_blocks()
    ensures { (columns : Columns) (root : ℕ) (live : LiveState) → marked_by (blocks_of columns) (killed columns root live).roots ≡ dead_at root (marked_by (blocks_of columns) live.roots) }
{}

/// The blocks of a segment have its roots, in order; each has as many documents as stand from where it begins to where it ends;
/// and as many documents are live as its live blocks have. Does nothing.
pub fn blocks_are_whole(segment: &Segment)
    ensures roots { map (λ (block : BlockState). block.root) (blocks_of segment.now) ≡ roots_of segment.now }
    ensures lengths { (root : ℕ) (block : BlockState) → slice_get (blocks_of segment.now) root ≡ Some block → block_start segment.now.scopes root + length block.flats ≡ block_end segment.now.scopes root }
    ensures live { (live : LiveState) → IsLiveOver segment.now live → count_by is_marked live.docs ≡ objects_of (map item_in (filter is_live (marked_by (blocks_of segment.now) live.roots))) }
{
    let _ = segment.docs();
    scopes_are_of_documents(segment);
}

/// The blocks of a segment that fits a mapping are roots with their documents, and all its documents are theirs. Does nothing.
pub fn fitting_segments_are_blocks()
    ensures roots { (m : Mapping) (columns : Columns) → SegmentFits m columns → AllByRecursion (λ block. IsRootOf m block.root block.flats) (blocks_of columns) }
    ensures flats { (m : Mapping) (columns : Columns) → SegmentFits m columns → flats_in (blocks_of columns) ≡ flats_of columns }
    ensures same { (m : Mapping) (columns : Columns) → SegmentFits m columns → map (λ (block : BlockState). block.root) (blocks_of columns) ≡ roots_of columns }
{}

/// Columns that are made of blocks are those of one segment, whatever made them. Does nothing.
pub fn made_columns_agree()
    ensures { (m : Mapping) (blocks : List BlockState) (columns : Columns) → AreGiven m blocks → IsMade (with_blocks no_entries blocks) columns
        → roots_of columns ≡ map (λ (block : BlockState). block.root) blocks → length columns.terms < 2 ^ 64 → AreColumns columns }
{
    keys_are_ordered();
}

/// A segment whose columns are made of blocks has these blocks, and fits each mapping that each of them is of. Does nothing.
pub fn made_segments_are_blocks(segment: &Segment)
    ensures blocks { (m : Mapping) (blocks : List BlockState) → AreGiven m blocks → IsMade (with_blocks no_entries blocks) segment.now
        → roots_of segment.now ≡ map (λ (block : BlockState). block.root) blocks → blocks_of segment.now ≡ blocks }
    ensures fits { (m : Mapping) (blocks : List BlockState) → AreGiven m blocks → IsMade (with_blocks no_entries blocks) segment.now
        → roots_of segment.now ≡ map (λ (block : BlockState). block.root) blocks
        → (other : Mapping) → AllByRecursion (λ (block : BlockState). IsRootOf other block.root block.flats) blocks → SegmentFits other segment.now }
{
    let _ = segment.docs();
    scopes_are_of_documents(segment);
}

/// At each key the columns of a segment have just what its documents carry there. Does nothing.
pub fn segments_say_what_documents_carry(segment: &Segment)
    ensures { (m : Mapping) → SegmentFits m segment.now → All IsOrdered (flats_of segment.now) → All IsSmall (flats_of segment.now) → All IsFit (flats_of segment.now)
        → SayAtKeys (with_blocks no_entries (blocks_of segment.now)) segment.now }
{
    let _ = segment.docs();
    terms_are_of_documents(segment);
    keys_are_ordered();
}

/// What blocks are taken apart into is what each of their documents carries, one document after the other, and at a term
/// what documents carry of the kind of its field. Does nothing.
pub fn blocks_carry_what_documents_carry()
    ensures scopes { (blocks : List BlockState) → (with_blocks no_entries blocks).scopes ≡ map (λ flat. flat.scope) (flats_in blocks) }
    ensures terms { (m : Mapping) (blocks : List BlockState) → AllByRecursion (λ (block : BlockState). IsRootOf m block.root block.flats) blocks
        → All IsOrdered (flats_in blocks) → All IsSmall (flats_in blocks) → All IsFit (flats_in blocks)
        → (term : ℕ × List ℕ) → of_key term_cmp term (all_terms (with_blocks no_entries blocks)) ≡ of_key term_cmp term (entries_from (terms_of_kind (kind_at m term.0)) 0 (flats_in blocks)) }
    ensures numbers { (blocks : List BlockState) → (with_blocks no_entries blocks).numbers ≡ entries_from (λ flat. flat.numbers) 0 (flats_in blocks) }
    ensures keywords { (blocks : List BlockState) → (with_blocks no_entries blocks).keywords ≡ entries_from (λ flat. flat.keywords) 0 (flats_in blocks) }
    ensures texts { (blocks : List BlockState) → (with_blocks no_entries blocks).texts ≡ texts_from 0 (flats_in blocks) }
{}

/// Columns that have at each key what entries carry there, in order, are made of the entries. Does nothing.
pub fn columns_by_key_are_made()
    ensures { (it : EntriesState) (columns : Columns) → AreByKey it columns → IsMade it columns }
{}

/// A document is live where its block is. Does nothing.
pub fn documents_live_with_their_blocks(segment: &Segment)
    ensures { (live : LiveState) → IsLiveOver segment.now live
        → live.docs ≡ flat_map (λ (block : Marked BlockState). replicate (length block.item.flats) block.live) (marked_by (blocks_of segment.now) live.roots) }
{
    let _ = segment.docs();
    scopes_are_of_documents(segment);
}
