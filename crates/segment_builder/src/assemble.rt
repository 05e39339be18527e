//! The segment of blocks.

ghost use Rattle.std.specs.Prelude.{◌≡◌, ◌+◌, ◌<◌, ◌≤◌, ◌^◌, ◌++◌, Bool, List, length, map, IfOk, OnOk};
ghost use Rattle.std.specs.List.{All, AllByRecursion};
ghost use Rattle.flattener.specs.Fits.{BlockFits, IsRootOf, SegmentFits, most_live};
ghost use Rattle.flattener.specs.Seen.{block_seen};
ghost use Rattle.mapping.specs.Mapping.{Mapping};
ghost use Rattle.segment.specs.Flat.{flats_of, roots_of};
ghost use Rattle.segment_parts.specs.Text.{head_text, segment_text};
ghost use Rattle.segment_parts.specs.declared.columns.Columns.{Columns};
ghost use Rattle.term_table.specs.Terms.{term_cmp};
ghost use Rattle.segment_builder.specs.Blocks.{blocks_of, objects_of};
ghost use Rattle.segment_builder.specs.Entries.{EntriesState, flats_in, no_entries, with_blocks};
ghost use Rattle.segment_builder.specs.Given.{AreGiven};
ghost use Rattle.segment_builder.specs.Groups.{AreGroups};
ghost use Rattle.segment_builder.specs.Made.{AreSetsOf, IsMade, all_terms};
ghost use Rattle.segment_builder.specs.Lists.{AreFieldLists, AreFieldsApart};
ghost use Rattle.segment_builder.specs.Terms.{row_group, rows_in};

use crate::entries::{Lists, lists_of};
use crate::fit::blocks_fit;
use crate::grouping::sort;
use crate::numbers::put_numbers;
use crate::ordinals::put_ordinals;
use crate::present::put_texts;
use crate::room::room_of;
use crate::roots::put_roots;
use crate::rows::{FieldTerms, add_keywords, add_numbers, add_words, put_terms};
use crate::scopes::scope_sets;
use crate::{NoMemory, made_columns_agree, made_segments_are_blocks};
use block_bits::words_are_of_one_set;
use flattener::{
    Block, KeywordField, NumberField, Word, blocks_are_of_their_mapping, blocks_are_small,
};
use mapping::{Mapping, names_lead_to_fields};
use segment::{Segment, scopes_are_of_documents};
use segment_parts::put_head_of;
use std::alloc::Global;
use stored_sources::Bytes;
use term_table::keys_are_ordered;

/// The segment of these blocks, in their order: its documents are theirs, one block behind the other. The mapping is the one
/// that they were made with. The blocks are lent: they stay as they are.
pub fn built(alloc: Global, mapping: &Mapping, blocks: &[Block]) -> Result<Segment, NoMemory>
    requires fit { All (BlockFits mapping.now) (map block_seen blocks.now) }
    requires some { 0 < length blocks.now }
    requires few { objects_of (map block_seen blocks.now) ≤ most_live }
    ensures flats { IfOk result (λ segment. flats_of segment ≡ flats_in (map block_seen blocks.now)) }
    ensures roots { IfOk result (λ segment. roots_of segment ≡ map (λ block. block.root) (map block_seen blocks.now)) }
    ensures fits { IfOk result (λ segment. SegmentFits mapping.now segment) }
    ensures blocks { IfOk result (λ segment. blocks_of segment ≡ map block_seen blocks.now) }
{
    blocks_are_of_their_mapping();
    blocks_are_small();
    names_lead_to_fields();
    blocks_fit(blocks);
    let _scopes = mapping.scope_count();
    let _fields = mapping.field_count();
    let _generations = mapping.generation();
    let _relations = mapping.relation_count();
    let segment = made_of(alloc, blocks)?;
    Ok(segment)
}

/// The segment of blocks that it can be made of under some mapping. The blocks are lent: they stay as they are.
fn made_of(alloc: Global, blocks: &[Block]) -> Result<Segment, NoMemory>
    requires { (m : Mapping) × AreGiven m (map block_seen blocks.now) }
    ensures flats { IfOk result (λ segment. flats_of segment ≡ flats_in (map block_seen blocks.now)) }
    ensures roots { IfOk result (λ segment. roots_of segment ≡ map (λ block. block.root) (map block_seen blocks.now)) }
    ensures blocks { IfOk result (λ segment. blocks_of segment ≡ map block_seen blocks.now) }

    // under each mapping that each of the blocks is of
    ensures fits { IfOk result (λ segment. (m : Mapping) → AllByRecursion (λ block. IsRootOf m block.root block.flats) (map block_seen blocks.now) → SegmentFits m segment) }
{
    words_are_of_one_set();
    made_columns_agree();
    let bytes = bytes_of(alloc, blocks)?;
    let segment = Segment::of_text(alloc, Bytes::of(bytes))?;
    made_segments_are_blocks(&segment);
    scopes_are_of_documents(&segment);
    Ok(segment)
}

/// The bytes of the segment of blocks, written part by part. The terms are sorted before there are bytes, since nothing else
/// takes as much room.
fn bytes_of(alloc: Global, blocks: &[Block]) -> Result<Vec<u8>, NoMemory>
    requires { (m : Mapping) × AreGiven m (map block_seen blocks.now) }
    ensures { IfOk result (λ bytes. (columns : Columns) × IsMade (with_blocks no_entries (map block_seen blocks.now)) columns
        × (roots_of columns ≡ map (λ block. block.root) (map block_seen blocks.now)) × (length columns.terms < 2 ^ 64) × (bytes.items ≡ segment_text columns)) }
{
    keys_are_ordered();
    let lists = lists_of(alloc, blocks)?;
    let Lists {
        scopes,
        numbers,
        keywords,
        words,
        texts,
    } = lists;
    let fields = sorted_terms(alloc, words, keywords.as_slice(), numbers.as_slice())?;
    let mut bytes = Vec::new(alloc);
    put_head(alloc, scopes.as_slice(), &mut bytes)?;
    let room = room_of(
        blocks,
        fields.as_slice(),
        keywords.as_slice(),
        numbers.as_slice(),
        texts.as_slice(),
    );
    bytes.reserve_exact(room)?;
    put_roots(blocks, &mut bytes)?;
    let terms = put_terms(alloc, fields.as_slice(), &mut bytes)?;
    put_ordinals(terms.as_slice(), keywords.as_slice(), &mut bytes)?;
    put_numbers(numbers.as_slice(), &mut bytes)?;
    put_texts(alloc, scopes.len() as u32, texts.as_slice(), &mut bytes)?;
    // a segment lives long: it keeps no room that it grew by
    bytes.shrink_to_fit();
    Ok(bytes)
}

/// The terms of documents field by field, in order; those of one term keep the order of the documents.
fn sorted_terms<'a>(
    alloc: Global,
    words: Vec<(u32, Vec<(&'a Word, u32)>)>,
    keywords: &[(u32, Vec<(u32, &'a KeywordField)>)],
    numbers: &[(u32, Vec<(u32, &NumberField)>)],
) -> Result<Vec<(u32, FieldTerms<'a>)>, NoMemory>
    ensures { IfOk result (λ fields. (it : EntriesState) → AreFieldLists it words.entry.items keywords.now numbers.now → AreFieldsApart it
        → AreGroups term_cmp (all_terms it) (map row_group (rows_in fields.items))) }
{
    let mut fields = Vec::new(alloc);
    add_words(words, &mut fields)?;
    add_keywords(alloc, keywords, &mut fields)?;
    add_numbers(alloc, numbers, &mut fields)?;
    sort(&mut fields)?;
    Ok(fields)
}

/// Appends the number of documents, and the documents of each scope.
fn put_head(alloc: Global, scopes: &[u32], into: &mut Vec<u8>) -> Result<(), NoMemory>
    requires below { All (λ scope. scope + 1 < 2 ^ 32) scopes.now }
    requires few { length scopes.now < 2 ^ 32 }
    ensures { OnOk result ((sets : List (List Bool)) × AreSetsOf scopes.now sets × (into.new.items ≡ into.old.items ++ head_text (length scopes.now) sets)) }
{
    let sets = scope_sets(alloc, scopes)?;
    put_head_of(scopes.len() as u32, sets.as_slice(), into)?;
    Ok(())
}
