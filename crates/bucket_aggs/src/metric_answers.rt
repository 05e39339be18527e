//! The answers to metrics.

ghost use Rattle.std.specs.Prelude.{◌≡◌, ℕ, List, Option, pos, IfOk, OnOk};
ghost use Rattle.mapping.specs.Mapping.{Mapping as Meaning};
ghost use Rattle.query_ast.specs.Resolved.{IsUse};
ghost use Rattle.query_eval.specs.Found.{AreLong, IsSeen};
ghost use Rattle.tree_objects.specs.Object.{Object};
ghost use Rattle.tree_objects.specs.Tree.{Tree};
ghost use Rattle.bucket_aggs.specs.Given.{IsAnswer, count_by_field, greatest_by, least_by, sum_by_field};
ghost use Rattle.bucket_aggs.specs.Sums.{IsKept};

use crate::NoMemory;
use crate::metrics::{FieldSummary, summed, value_count};
use crate::sets::Objects;
use mapping::Mapping;
use segment_view::Entry;
use std::alloc::Global;
use view_objects::documents_show_values;

/// The least value of a field; None where there is none.
pub(crate) fn least(
    alloc: Global,
    entries: &[Entry],
    field: Option<u32>,
    objects: &Objects<'_>,
    kept: &mut Option<FieldSummary>,
) -> Result<Option<i64>, NoMemory>
    requires long { AreLong entries.now objects.now }
    requires kept { IsKept entries.now objects.now kept.old }
    ensures answer { (m : Meaning) (n : ℕ) (given : List Tree → Object → Option ℕ) → IsUse (λ u. u.summed) m field → IsSeen m entries.now n given objects.now → IfOk result (IsAnswer m entries.now n (least_by m field) given) }
    ensures kept { OnOk result (IsKept entries.now objects.now kept.new) }
{
    documents_show_values();
    match field {
        Some(field) => {
            let sums = summed(alloc, entries, field, objects, kept)?;
            Ok(sums.least)
        }
        None => Ok(None),
    }
}

/// The greatest value of a field; None where there is none.
pub(crate) fn greatest(
    alloc: Global,
    entries: &[Entry],
    field: Option<u32>,
    objects: &Objects<'_>,
    kept: &mut Option<FieldSummary>,
) -> Result<Option<i64>, NoMemory>
    requires long { AreLong entries.now objects.now }
    requires kept { IsKept entries.now objects.now kept.old }
    ensures answer { (m : Meaning) (n : ℕ) (given : List Tree → Object → Option ℕ) → IsUse (λ u. u.summed) m field → IsSeen m entries.now n given objects.now → IfOk result (IsAnswer m entries.now n (greatest_by m field) given) }
    ensures kept { OnOk result (IsKept entries.now objects.now kept.new) }
{
    documents_show_values();
    match field {
        Some(field) => {
            let sums = summed(alloc, entries, field, objects, kept)?;
            Ok(sums.greatest)
        }
        None => Ok(None),
    }
}

/// The sum of the values of a field, clamped to 64 bits; 0 where there is none.
pub(crate) fn sum(
    alloc: Global,
    entries: &[Entry],
    field: Option<u32>,
    objects: &Objects<'_>,
    kept: &mut Option<FieldSummary>,
) -> Result<i64, NoMemory>
    requires long { AreLong entries.now objects.now }
    requires kept { IsKept entries.now objects.now kept.old }
    ensures answer { (m : Meaning) (n : ℕ) (given : List Tree → Object → Option ℕ) → IsUse (λ u. u.summed) m field → IsSeen m entries.now n given objects.now → IfOk result (IsAnswer m entries.now n (sum_by_field m field) given) }
    ensures kept { OnOk result (IsKept entries.now objects.now kept.new) }
{
    documents_show_values();
    match field {
        Some(field) => {
            let sums = summed(alloc, entries, field, objects, kept)?;
            Ok(sums.sum())
        }
        None => Ok(0),
    }
}

/// How many values of a field there are, repeats included.
pub(crate) fn count(
    alloc: Global,
    entries: &[Entry],
    mapping: &Mapping,
    field: Option<u32>,
    objects: &Objects<'_>,
    kept: &mut Option<FieldSummary>,
) -> Result<i64, NoMemory>
    requires field { IsUse (λ u. u.sorted) mapping.now field }
    requires long { AreLong entries.now objects.now }
    requires kept { IsKept entries.now objects.now kept.old }
    ensures answer { (n : ℕ) (given : List Tree → Object → Option ℕ) → IsSeen mapping.now entries.now n given objects.now → IfOk result (IsAnswer mapping.now entries.now n (count_by_field mapping.now field) given) }
    ensures kept { OnOk result (IsKept entries.now objects.now kept.new) }
{
    documents_show_values();
    match field {
        Some(field) => {
            let count = value_count(alloc, entries, mapping.kind(field), field, objects, kept)?;
            let number = as_number(count)?;
            Ok(number)
        }
        None => Ok(0),
    }
}

/// A count as a number. `NoMemory` where it has more than 63 bits.
fn as_number(count: u64) -> Result<i64, NoMemory>
    ensures { IfOk result (λ number. number ≡ pos count) }
{
    if count > i64::MAX as u64 {
        return Err(NoMemory);
    }
    Ok(count as i64)
}
