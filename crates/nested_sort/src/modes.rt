//! Several values made one.
ghost use Rattle.std.specs.Prelude.{◌≡◌, ◌<◌, ◌≤◌, ◌^◌, ◌-◌, ◌*◌, ◌/◌, ◌+ℤ◌, ◌-ℤ◌, ◌≤ℤ◌, [], ◌∷◌, ℤ, Some, pos, fold, get_or, length, map, option_map, vec_len, IfOk, IsTrue};
ghost use Rattle.nested_sort.specs.Best.{best, is_before, is_behind, ordinal_by};
ghost use Rattle.nested_sort.specs.Documents.{number_value};
ghost use Rattle.nested_sort.specs.Near.{IsPick};
ghost use Rattle.query_ast.specs.SortKey.{median, mode_value};
ghost use Rattle.score_math.specs.Integers.{floor_div};

use crate::NoMemory;
use query_ast::{SortMode, rows_stand_in_order};
use score_math::{clamp64, floor_mean};

/// The most numbers that are put together: their sum has room in 128 bits.
const MOST_NUMBERS: usize = u32::MAX as usize;

/// The number that stands for several; none stands for none. It may put them in order. More than 2^32 - 1 numbers are too
/// many for memory.
pub(crate) fn number_of(mode: SortMode, values: &mut Vec<i64>) -> Result<Option<i64>, NoMemory>
    ensures { IfOk result (λ found. option_map number_value found ≡ mode_value mode (map number_value values.old.items)) }
{
    if values.is_empty() {
        return Ok(None);
    }
    if values.len() > MOST_NUMBERS {
        return Err(NoMemory);
    }
    Ok(some_number(mode, values)?)
}

/// Whether the number that stands for several is one of them, so that one alone stands for itself.
pub(crate) fn is_of_one(mode: SortMode) -> bool
    ensures alone { IsTrue result → (number : ℤ) → mode_value mode (number_value number ∷ []) ≡ Some (number_value number) }
    ensures pick { IsTrue result → IsPick mode }
{
    match mode {
        SortMode::Min => true,
        SortMode::Max => true,
        SortMode::Sum => false,
        SortMode::Avg => false,
        SortMode::Median => false,
    }
}

/// That of some numbers.
#[tactic(auto, using(crate::proofs::Moded::moded))]
fn some_number(mode: SortMode, values: &mut Vec<i64>) -> Result<Option<i64>, NoMemory>
    requires some { 1 ≤ vec_len values.old }
    requires few { vec_len values.old < 2 ^ 32 }
    ensures { IfOk result (λ found. option_map number_value found ≡ mode_value mode (map number_value values.old.items)) }
{
    match mode {
        SortMode::Min => Ok(least(values.as_slice())),
        SortMode::Max => Ok(greatest(values.as_slice())),
        SortMode::Sum => Ok(Some(clamp64(sum(values.as_slice())))),
        SortMode::Avg => Ok(Some(mean(values.as_slice()))),
        SortMode::Median => Ok(Some(median(values)?)),
    }
}

/// The least or the greatest of ordinals; texts have no other mode.
pub(crate) fn ordinal_of(mode: SortMode, ordinals: &[u64]) -> Option<u64>
    ensures { result ≡ ordinal_by mode ordinals.now }
{
    match mode {
        SortMode::Min => least(ordinals),
        SortMode::Max => greatest(ordinals),
        SortMode::Sum => least(ordinals),
        SortMode::Avg => least(ordinals),
        SortMode::Median => least(ordinals),
    }
}

/// The first of the least of some values.
fn least<T: Ord + Copy>(values: &[T]) -> Option<T>
    ensures { result ≡ best (is_before T.cmp) values.now }
{
    let (first, rest) = values.split_first()?;
    let mut best = *first;
    'rest: for value in rest {
        best = if value.cmp(&best).is_lt() {
            *value
        } else {
            best
        };
    }
    Some(best)
}

/// The first of the greatest of some values.
fn greatest<T: Ord + Copy>(values: &[T]) -> Option<T>
    ensures { result ≡ best (is_behind T.cmp) values.now }
{
    let (first, rest) = values.split_first()?;
    let mut best = *first;
    'rest: for value in rest {
        best = if best.cmp(value).is_lt() {
            *value
        } else {
            best
        };
    }
    Some(best)
}

/// The sum of numbers, which 128 bits hold.
fn sum(values: &[i64]) -> i128
    requires { length values.now < 2 ^ 32 }
    ensures sum { result ≡ fold ◌+ℤ◌ (pos 0) values.now }
    ensures low { (pos 0 -ℤ pos (2 ^ 63 * length values.now)) ≤ℤ result }
    ensures high { result ≤ℤ pos ((2 ^ 63 - 1) * length values.now) }
{
    let mut sum = 0;
    'values: for value in values {
        sum += i128::from(*value);
    }
    sum
}

/// The mean of some numbers, rounded towards minus infinity.
#[tactic(auto, using(crate::proofs::Means::means))]
fn mean(values: &[i64]) -> i64
    requires some { 1 ≤ length values.now }
    requires few { length values.now < 2 ^ 32 }
    ensures { result ≡ floor_div (fold ◌+ℤ◌ (pos 0) values.now) (length values.now) }
{
    floor_mean(sum(values), values.len() as u32) as i64
}

/// The middle of some numbers, or the mean of the two in the middle, rounded towards minus infinity. Puts them in order.
fn median(values: &mut Vec<i64>) -> Result<i64, NoMemory>
    requires { 1 ≤ vec_len values.old }
    ensures { IfOk result (λ found. found ≡ median (map number_value values.old.items)) }
{
    rows_stand_in_order::<i64>();
    values.sort()?;
    let sorted = values.as_slice();
    let middle = middle_of(sorted);
    Ok(middle)
}

/// The middle of numbers in order, or the mean of the two in the middle.
fn middle_of(sorted: &[i64]) -> i64
    requires { 1 ≤ length sorted.now }
    ensures { result ≡ floor_div (get_or sorted.now ((length sorted.now - 1) / 2) (pos 0) +ℤ get_or sorted.now (length sorted.now / 2) (pos 0)) 2 }
{
    let low = sorted[(sorted.len() - 1) / 2];
    let high = sorted[sorted.len() / 2];
    mean_of_two(low, high)
}

/// The mean of two numbers, rounded towards minus infinity.
fn mean_of_two(low: i64, high: i64) -> i64
    ensures { result ≡ floor_div (low +ℤ high) 2 }
{
    floor_mean(i128::from(low) + i128::from(high), 2) as i64
}
