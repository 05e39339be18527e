//! The documents with a value of a text field, written.

ghost use Rattle.std.specs.Prelude.{◌≡◌, ◌<◌, ◌++◌, ℕ, List, IfOk, OnOk};
ghost use Rattle.std.specs.List.{All, flat_map};
ghost use Rattle.std.specs.Ordering.{nat_cmp};
ghost use Rattle.part_text.specs.Text.{u32_text};
ghost use Rattle.segment_parts.specs.Text.{marked_places, presence_text, present_text};
ghost use Rattle.segment_builder.specs.Columns.{marks_of};
ghost use Rattle.segment_builder.specs.Groups.{AreGroups, groups_seen};
ghost use Rattle.segment_builder.specs.Made.{marked_groups};
ghost use Rattle.segment_builder.specs.Taken.{AreTextEntries};

use crate::NoMemory;
use block_bits::BitSet;
use part_text::put_u32;
use std::alloc::Global;

/// Appends the text fields, ascending, each with the documents that have a value, behind their number.
pub(crate) fn put_texts(
    alloc: Global,
    documents: u32,
    groups: &[(u32, Vec<u32>)],
    into: &mut Vec<u8>,
) -> Result<(), NoMemory>
    requires { (entries : List (ℕ × ℕ)) × AreTextEntries documents entries × AreGroups nat_cmp entries (groups_seen groups.now) }
    ensures { OnOk result (into.new.items ≡ into.old.items ++ present_text (marked_groups documents (groups_seen groups.now))) }
{
    put_u32(into, groups.len() as u32)?;
    put_fields(alloc, documents, groups, into)?;
    Ok(())
}

/// Appends text fields with their documents.
fn put_fields(
    alloc: Global,
    documents: u32,
    groups: &[(u32, Vec<u32>)],
    into: &mut Vec<u8>,
) -> Result<(), NoMemory>
    requires { All (λ group. All (λ doc. doc < documents) group.1) (groups_seen groups.now) }
    ensures { OnOk result (into.new.items ≡ into.old.items ++ flat_map presence_text (marked_groups documents (groups_seen groups.now))) }
{
    'groups: for (field, docs) in groups {
        let set = set_of(alloc, documents, docs.as_slice())?;
        put_field(*field, &set, into)?;
    }
    Ok(())
}

/// The set of these documents.
fn set_of(alloc: Global, documents: u32, docs: &[u32]) -> Result<BitSet, NoMemory>
    requires { All (λ doc. doc < documents) docs.now }
    ensures { IfOk result (λ set. set ≡ marks_of documents docs.now) }
{
    let mut set = BitSet::empty(alloc, documents)?;
    'docs: for doc in docs {
        set.set(*doc);
    }
    Ok(set)
}

/// Appends a text field, and the documents of a set behind their number.
fn put_field(field: u32, set: &BitSet, into: &mut Vec<u8>) -> Result<(), NoMemory>
    ensures { OnOk result (into.new.items ≡ into.old.items ++ presence_text (field, set.now)) }
{
    put_u32(into, field)?;
    put_u32(into, set.count())?;
    put_documents(set, into)?;
    Ok(())
}

/// Appends the documents of a set.
fn put_documents(set: &BitSet, into: &mut Vec<u8>) -> Result<(), NoMemory>
    ensures { OnOk result (into.new.items ≡ into.old.items ++ flat_map u32_text (marked_places 0 set.now)) }
{
    let mut from = 0;
    'documents: while let Some(document) = set.next_set(from) {
        put_u32(into, document)?;
        from = document + 1;
    }
    Ok(())
}
