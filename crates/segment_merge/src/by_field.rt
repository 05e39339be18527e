//! What parts have of fields, put together by field and written: each field, and what it has behind its number.

ghost use Rattle.std.specs.Prelude.{◌≡◌, ℕ, List, ◌++◌, IfOk, OnOk};
ghost use Rattle.std.specs.List.{flat_map};
ghost use Rattle.std.specs.Ordering.{nat_cmp};
ghost use Rattle.part_text.specs.Text.{counted_text, u32_text};
ghost use Rattle.segment_builder.specs.Groups.{groups_seen, AreGroups};
ghost use Rattle.segment_merge.specs.ByField.{group_text, total};

use crate::NoMemory;
use crate::counts::{count_of, sum_of};
use part_text::put_u32;
use segment_builder::grouped_by_field;
use std::alloc::Global;

/// What a part has of a field, written item by item.
pub(crate) trait PartItems: Drop {
    ghost count: { Self → ℕ };

    ghost text: { Self → List ℕ };

    /// How many items there are.
    fn len(&self) -> Result<u32, NoMemory>
        ensures { IfOk result (λ len. len ≡ count self.now) };

    /// Appends the items.
    fn put(&self, into: &mut Vec<u8>) -> Result<(), NoMemory>
        ensures { OnOk result (into.new.items ≡ into.old.items ++ text self.now) };
}

/// Appends what parts have of fields, put together by field, behind the number of fields.
pub(crate) fn put_by_field<P: PartItems>(
    alloc: Global,
    parts: Vec<(u32, P)>,
    into: &mut Vec<u8>,
) -> Result<(), NoMemory>
    ensures { OnOk result ((groups : List (ℕ × List P)) × AreGroups nat_cmp parts.items groups
        × (into.new.items ≡ into.old.items ++ counted_text u32_text (group_text P.count P.text) groups)) }
{
    let groups = grouped_by_field(alloc, parts)?;
    put_u32(into, count_of(groups.len())?)?;
    put_groups(groups.as_slice(), into)?;
    Ok(())
}

/// Appends fields with what parts have of them.
fn put_groups<P: PartItems>(groups: &[(u32, Vec<P>)], into: &mut Vec<u8>) -> Result<(), NoMemory>
    ensures { OnOk result (into.new.items ≡ into.old.items ++ flat_map (group_text P.count P.text) (groups_seen groups.now)) }
{
    'groups: for (field, parts) in groups {
        put_group(*field, parts.as_slice(), into)?;
    }
    Ok(())
}

/// Appends a field, and what parts have of it behind its number.
fn put_group<P: PartItems>(field: u32, parts: &[P], into: &mut Vec<u8>) -> Result<(), NoMemory>
    ensures { OnOk result (into.new.items ≡ into.old.items ++ group_text P.count P.text (field, parts.now)) }
{
    put_u32(into, field)?;
    put_u32(into, item_count(parts)?)?;
    put_items(parts, into)?;
    Ok(())
}

/// How many items parts have.
fn item_count<P: PartItems>(parts: &[P]) -> Result<u32, NoMemory>
    ensures { IfOk result (λ count. count ≡ total P.count parts.now) }
{
    let mut count = 0;
    'parts: for part in parts {
        count = sum_of(count, part.len()?)?;
    }
    Ok(count)
}

/// Appends the items of parts.
fn put_items<P: PartItems>(parts: &[P], into: &mut Vec<u8>) -> Result<(), NoMemory>
    ensures { OnOk result (into.new.items ≡ into.old.items ++ flat_map P.text parts.now) }
{
    'parts: for part in parts {
        part.put(into)?;
    }
    Ok(())
}
