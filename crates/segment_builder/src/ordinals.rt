//! Columns of keywords, one a field, written: each keyword as the ordinal of its term.

ghost use Rattle.std.specs.Prelude.{◌≡◌, ◌<◌, ◌^◌, ◌++◌, ℕ, List, length, map, Contains, OnOk};
ghost use Rattle.std.specs.Cmp.Lexicographic.{slice_cmp};
ghost use Rattle.std.specs.List.{All, flat_map};
ghost use Rattle.std.specs.Ordering.{nat_cmp};
ghost use Rattle.doc_values.specs.Text.{column_text, entry_text};
ghost use Rattle.part_text.specs.Text.{u64_text};
ghost use Rattle.segment_parts.specs.Text.{ordinals_text};
ghost use Rattle.term_table.specs.Terms.{AreAscending};
ghost use Rattle.segment_builder.specs.Columns.{column_terms, IsKeywordColumn, keyword_groups, keyword_rows, named_group, ordinal_column, ordinal_row, terms_lent, IsFieldRange};
ghost use Rattle.segment_builder.specs.Entries.{bytes_lent};
ghost use Rattle.segment_builder.specs.Groups.{AreGroups};
ghost use Rattle.segment_builder.specs.Taken.{AreValueEntries};

use crate::NoMemory;
use crate::find::{KnownTerms, field_range};
use flattener::{Keyword, KeywordField};
use part_text::{put_u32, put_u64};

/// Appends the columns of keywords, by ascending field, behind their number.
pub(crate) fn put_ordinals(
    terms: &[(u32, &[u8])],
    groups: &[(u32, Vec<(u32, &KeywordField)>)],
    into: &mut Vec<u8>,
) -> Result<(), NoMemory>
    requires ascending { AreAscending (terms_lent terms.now) }
    requires entries { (documents : ℕ) × (entries : List (ℕ × (ℕ × List (List ℕ)))) × AreValueEntries (slice_cmp nat_cmp) (λ field bytes. Contains (terms_lent terms.now) (field, bytes)) documents entries
        × AreGroups nat_cmp entries (keyword_groups groups.now) }
    ensures named { OnOk result (map (column_terms (terms_lent terms.now)) (map (ordinal_column (terms_lent terms.now)) (keyword_groups groups.now)) ≡ map named_group (keyword_groups groups.now)) }
    ensures text { OnOk result (into.new.items ≡ into.old.items ++ ordinals_text (map (ordinal_column (terms_lent terms.now)) (keyword_groups groups.now))) }
{
    put_u32(into, groups.len() as u32)?;
    put_columns(terms, groups, into)?;
    Ok(())
}

/// Appends the columns of groups of keywords.
fn put_columns(
    terms: &[(u32, &[u8])],
    groups: &[(u32, Vec<(u32, &KeywordField)>)],
    into: &mut Vec<u8>,
) -> Result<(), NoMemory>
    requires ascending { AreAscending (terms_lent terms.now) }
    requires are { All (IsKeywordColumn (terms_lent terms.now)) (keyword_groups groups.now) }
    ensures { OnOk result (into.new.items ≡ into.old.items ++ flat_map (column_text u64_text) (map (ordinal_column (terms_lent terms.now)) (keyword_groups groups.now))) }
{
    'groups: for (field, members) in groups {
        put_column(terms, *field, members.as_slice(), into)?;
    }
    Ok(())
}

/// Appends the column of a field's keywords.
fn put_column(
    terms: &[(u32, &[u8])],
    field: u32,
    members: &[(u32, &KeywordField)],
    into: &mut Vec<u8>,
) -> Result<(), NoMemory>
    requires ascending { AreAscending (terms_lent terms.now) }
    requires are { IsKeywordColumn (terms_lent terms.now) (field, keyword_rows members.now) }
    ensures { OnOk result (into.new.items ≡ into.old.items ++ column_text u64_text (ordinal_column (terms_lent terms.now) (field, keyword_rows members.now))) }
{
    put_u32(into, field)?;
    put_u32(into, members.len() as u32)?;
    let (from, end) = field_range(terms, field);
    let mut known = KnownTerms::new();
    'members: for (doc, own) in members {
        put_entry(
            terms,
            from,
            end,
            field,
            *doc,
            own.values.as_slice(),
            &mut known,
            into,
        )?;
    }
    Ok(())
}

/// Appends a document and the ordinals of its keywords, whose terms stand from one place on and before another.
fn put_entry(
    terms: &[(u32, &[u8])],
    from: usize,
    end: usize,
    field: u32,
    doc: u32,
    values: &[Keyword],
    known: &mut KnownTerms,
    into: &mut Vec<u8>,
) -> Result<(), NoMemory>
    requires ascending { AreAscending (terms_lent terms.now) }
    requires range { IsFieldRange (terms_lent terms.now) field from end }
    requires there { All (λ bytes. Contains (terms_lent terms.now) (field, bytes)) (bytes_lent values.now) }
    requires few { length values.now < 2 ^ 32 }
    ensures { OnOk result (into.new.items ≡ into.old.items ++ entry_text u64_text (ordinal_row (terms_lent terms.now) field (doc, bytes_lent values.now))) }
{
    put_u32(into, doc)?;
    put_u32(into, values.len() as u32)?;
    'values: for value in values {
        let place = known.find(terms, from, end, field, value.as_slice());
        put_u64(into, place as u64)?;
    }
    Ok(())
}
