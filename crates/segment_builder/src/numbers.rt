//! Columns of numbers, one a field, written.

ghost use Rattle.std.specs.Prelude.{◌≡◌, ◌<◌, ◌^◌, ◌++◌, ℕ, ℤ, List, length, FitsSigned, OnOk};
ghost use Rattle.std.specs.Int.{w64};
ghost use Rattle.std.specs.List.{All, flat_map};
ghost use Rattle.std.specs.Ordering.{int_cmp, nat_cmp};
ghost use Rattle.doc_values.specs.Stands.{IsColumn};
ghost use Rattle.doc_values.specs.Text.{column_text, entry_text};
ghost use Rattle.part_text.specs.Text.{i64_text};
ghost use Rattle.segment_parts.specs.Text.{numbers_text};
ghost use Rattle.segment_builder.specs.Columns.{number_groups, number_rows};
ghost use Rattle.segment_builder.specs.Groups.{AreGroups};
ghost use Rattle.segment_builder.specs.Taken.{AreValueEntries};

use crate::NoMemory;
use flattener::NumberField;
use part_text::{put_i64, put_u32};

/// Appends the columns of numbers, by ascending field, behind their number.
pub(crate) fn put_numbers(
    groups: &[(u32, Vec<(u32, &NumberField)>)],
    into: &mut Vec<u8>,
) -> Result<(), NoMemory>
    requires { (documents : ℕ) × (entries : List (ℕ × (ℕ × List ℤ))) × AreValueEntries int_cmp (λ field number. FitsSigned w64 number) documents entries
        × AreGroups nat_cmp entries (number_groups groups.now) }
    ensures { OnOk result (into.new.items ≡ into.old.items ++ numbers_text (number_groups groups.now)) }
{
    put_u32(into, groups.len() as u32)?;
    put_columns(groups, into)?;
    Ok(())
}

/// Appends the columns of groups of numbers.
fn put_columns(
    groups: &[(u32, Vec<(u32, &NumberField)>)],
    into: &mut Vec<u8>,
) -> Result<(), NoMemory>
    requires { All (IsColumn int_cmp (FitsSigned w64)) (number_groups groups.now) }
    ensures { OnOk result (into.new.items ≡ into.old.items ++ flat_map (column_text i64_text) (number_groups groups.now)) }
{
    'groups: for (field, members) in groups {
        put_column(*field, members.as_slice(), into)?;
    }
    Ok(())
}

/// Appends the column of a field's numbers.
fn put_column(
    field: u32,
    members: &[(u32, &NumberField)],
    into: &mut Vec<u8>,
) -> Result<(), NoMemory>
    requires { IsColumn int_cmp (FitsSigned w64) (field, number_rows members.now) }
    ensures { OnOk result (into.new.items ≡ into.old.items ++ column_text i64_text (field, number_rows members.now)) }
{
    put_u32(into, field)?;
    put_u32(into, members.len() as u32)?;
    'members: for (doc, own) in members {
        put_entry(*doc, own.values.as_slice(), into)?;
    }
    Ok(())
}

/// Appends a document and its numbers.
fn put_entry(doc: u32, values: &[i64], into: &mut Vec<u8>) -> Result<(), NoMemory>
    requires { length values.now < 2 ^ 32 }
    ensures { OnOk result (into.new.items ≡ into.old.items ++ entry_text i64_text (doc, values.now)) }
{
    put_u32(into, doc)?;
    put_u32(into, values.len() as u32)?;
    'values: for value in values {
        put_i64(into, *value)?;
    }
    Ok(())
}
