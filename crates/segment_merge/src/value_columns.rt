//! The columns of values of a merged segment, written: numbers, and ordinals of terms.

ghost use Rattle.std.specs.Prelude.{◌≡◌, ℕ, ℤ, List, ◌++◌, map, OnOk};
ghost use Rattle.std.specs.Ordering.{nat_cmp};
ghost use Rattle.doc_values.specs.Text.{column_text};
ghost use Rattle.part_text.specs.Text.{counted_text, u32_text};
ghost use Rattle.segment_builder.specs.Columns.{column_terms};
ghost use Rattle.segment_parts.specs.Text.{numbers_text, ordinals_text};
ghost use Rattle.segment_merge.specs.Merged.{IsGathered};
ghost use Rattle.segment_merge.specs.Pieces.{columns_of_parts, from_parts, part_keywords, part_numbers};
ghost use Rattle.segment_merge.specs.TermRefs.{AreNew};

use crate::NoMemory;
use crate::agreed::parts_agree;
use crate::by_field::put_by_field;
use crate::merged_value::MergedValue;
use crate::new_ordinals::NewOrdinals;
use crate::numbering::Part;
use crate::pieces::pieces_of;
use std::alloc::Global;

/// Appends the columns of numbers of parts, put together by field.
#[tactic(auto, unfolding(segment_parts::specs::Text::numbers_text))]
pub(crate) fn put_numbers(
    alloc: Global,
    parts: &[Part],
    news: &NewOrdinals,
    into: &mut Vec<u8>,
) -> Result<(), NoMemory>
    ensures { OnOk result ((columns : List (ℕ × List (ℕ × List ℤ))) × IsGathered nat_cmp (from_parts part_numbers parts.now) columns
        × (into.new.items ≡ into.old.items ++ numbers_text columns)) }
{
    put_columns::<i64>(alloc, parts, news, into)?;
    Ok(())
}

/// Appends the columns of ordinals of parts, put together by field, by the new ordinals of their terms.
#[tactic(auto, unfolding(segment_parts::specs::Text::ordinals_text))]
pub(crate) fn put_ordinals(
    alloc: Global,
    parts: &[Part],
    news: &NewOrdinals,
    into: &mut Vec<u8>,
) -> Result<(), NoMemory>
    ensures { (terms : List (ℕ × List ℕ)) → AreNew parts.now terms news.now
        → OnOk result ((columns : List (ℕ × List (ℕ × List ℕ))) × IsGathered nat_cmp (from_parts part_keywords parts.now) (map (column_terms terms) columns)
        × (into.new.items ≡ into.old.items ++ ordinals_text columns)) }
{
    parts_agree(parts);
    put_columns::<u64>(alloc, parts, news, into)?;
    Ok(())
}

/// Appends columns of values of parts, put together by field, behind their number.
fn put_columns<T: MergedValue>(
    alloc: Global,
    parts: &[Part],
    news: &NewOrdinals,
    into: &mut Vec<u8>,
) -> Result<(), NoMemory>
    ensures { OnOk result ((columns : List (ℕ × List (ℕ × List T))) × IsGathered nat_cmp (columns_of_parts T.columns T.renewed parts.now news.now) columns
        × (into.new.items ≡ into.old.items ++ counted_text u32_text (column_text T.text) columns)) }
{
    let pieces = pieces_of::<T>(alloc, parts, news)?;
    put_by_field(alloc, pieces, into)?;
    Ok(())
}
