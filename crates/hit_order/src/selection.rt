//! The rows of a page of a table, found in one pass over it.
ghost use Rattle.std.specs.Prelude.{◌≡◌, ◌++◌, [], ◌∷◌, ◌+◌, ◌<◌, ◌≤◌, ℕ, List, cond, drop, filter, length, not, IfOk, OnOk, option_map};
ghost use Rattle.std.specs.List.{range_with_len};
ghost use Rattle.hit_order.specs.Indexed.{is_before, is_after, first_of, is_wanted, IsSelecting};

use crate::NoMemory;
use crate::table::Table;
use query_ast::{KeyRow, rows_stand_in_order};
use std::alloc::Global;

/// Of the rows behind the one that was named, those from number `from` up to number `most` in order.
///
/// The first `most` rows are kept, and at most as many again that came before the worst of these.
pub(crate) fn selected(
    alloc: Global,
    table: &Table,
    after: Option<&KeyRow>,
    from: usize,
    most: usize,
) -> Result<Vec<usize>, NoMemory>
    requires { from ≤ most }
    ensures { IfOk result (λ rows. rows.items ≡ drop from (first_of (is_before table.now) most (filter (is_after table.now (option_map (λ row. row.now) after.entry)) (range_with_len 0 (length table.now.places.items))))) }
{
    let mut kept = Vec::new(alloc);
    let mut worst = None;
    'rows: for row in 0..table.places.len() {
        offer(table, after, row, most, &mut kept, &mut worst)?;
    }
    Ok(page(alloc, table, kept.as_slice(), from, most)?)
}

/// Keeps a row that stands behind the one that was named, unless it stands behind the worst of as many as are wanted.
fn offer(
    table: &Table,
    after: Option<&KeyRow>,
    row: usize,
    most: usize,
    kept: &mut Vec<usize>,
    worst: &mut Option<usize>,
) -> Result<(), NoMemory>
    ensures { OnOk result ((all : List ℕ) → IsSelecting (is_before table.now) most all kept.old.items worst.old → IsSelecting (is_before table.now) most (all ++ cond (is_after table.now (option_map (λ named. named.now) after.entry) row) (row ∷ []) []) kept.new.items worst.new) }
{
    if !table.is_after(after, row) {
        return Ok(());
    }
    hold(table, row, most, kept, worst)
}

/// Keeps a row, unless it stands behind the worst of as many as are wanted.
fn hold(
    table: &Table,
    row: usize,
    most: usize,
    kept: &mut Vec<usize>,
    worst: &mut Option<usize>,
) -> Result<(), NoMemory>
    ensures { OnOk result ((all : List ℕ) → IsSelecting (is_before table.now) most all kept.old.items worst.old → IsSelecting (is_before table.now) most (all ++ row ∷ []) kept.new.items worst.new) }
{
    rows_stand_in_order::<usize>();
    if !is_wanted(table, row, *worst) {
        return Ok(());
    }
    kept.push(row)?;
    if kept.len() / 2 < most {
        return Ok(());
    }
    cut(table, most, kept)?;
    *worst = kept.last().copied();
    Ok(())
}

/// Whether a row comes before the worst one, if that is known.
#[tactic(auto, unfolding(crate::specs::Indexed::is_before))]
fn is_wanted(table: &Table, row: usize, worst: Option<usize>) -> bool
    ensures { result ≡ is_wanted (is_before table.now) row worst }
{
    match worst {
        None => true,
        Some(worst) => table.compare(row, worst).is_lt(),
    }
}

/// Sorts rows, and keeps the first so many.
fn cut(table: &Table, most: usize, rows: &mut Vec<usize>) -> Result<(), NoMemory>
    ensures { OnOk result (rows.new.items ≡ first_of (is_before table.now) most rows.old.items) }
{
    rows_stand_in_order::<usize>();
    rows.sort_by(|one, other| table.compare(*one, *other))?;
    rows.truncate(most);
    Ok(())
}

/// Of rows those from number `from` up to number `most` in order. Those that come before are left out, and never put in order.
fn page(
    alloc: Global,
    table: &Table,
    rows: &[usize],
    from: usize,
    most: usize,
) -> Result<Vec<usize>, NoMemory>
    requires { from ≤ most }
    ensures { IfOk result (λ page. page.items ≡ drop from (first_of (is_before table.now) most rows.now)) }
{
    rows_stand_in_order::<usize>();
    if rows.len() <= from {
        return Ok(Vec::new(alloc));
    }
    let first = nth_row(alloc, table, rows, from)?;
    let mut rest = not_before(alloc, table, rows, first)?;
    let skipped = rows.len() - rest.len();
    cut(table, most - skipped, &mut rest)?;
    let front = (from - skipped).min(rest.len());
    Ok(rest.split_off(front)?)
}

/// The row that comes at a number in order: at most so many come before it.
fn nth_row(alloc: Global, table: &Table, rows: &[usize], at: usize) -> Result<usize, NoMemory>
    requires { at < length rows.now }
    ensures { IfOk result (λ row. length (filter (λ other. is_before table.now other row) rows.now) ≤ at) }
{
    rows_stand_in_order::<usize>();
    let mut moved = Vec::from_slice(alloc, rows)?;
    let (_, row, _) = moved.select_nth_unstable_by(at, |one, other| table.compare(*one, *other));
    Ok(*row)
}

/// The rows that don't come before one.
#[tactic(auto, unfolding(crate::specs::Indexed::is_before))]
fn not_before(
    alloc: Global,
    table: &Table,
    rows: &[usize],
    first: usize,
) -> Result<Vec<usize>, NoMemory>
    ensures rest { IfOk result (λ rest. rest.items ≡ filter (λ row. not (is_before table.now row first)) rows.now) }
    ensures parts { IfOk result (λ rest. length (filter (λ row. is_before table.now row first) rows.now) + length rest.items ≡ length rows.now) }
{
    let mut rest = Vec::new(alloc);
    'rows: for row in rows {
        if !table.compare(*row, first).is_lt() {
            rest.push(*row)?;
        }
    }
    Ok(rest)
}
