//! Rows with their keys, and a page of them.
ghost use Rattle.std.specs.Prelude.{◌≡◌, ◌<◌, get_or, length, slice_index_or, IfOk, option_map};
ghost use Rattle.query_ast.specs.Page.{page_of};
ghost use Rattle.query_ast.specs.declared.sort.KeyRow.{KeyRow as Row};
ghost use Rattle.hit_order.specs.Table.{keys_of_row, number_of_row, place_of_row, table_of};

use crate::NoMemory;
use crate::column::{Column, RowPlace};
use crate::selection::selected;
use crate::table::Table;
use query_ast::{KeyRow, rows_stand_in_order};
use std::alloc::Global;
use std::marker::Model;

/// Rows with their keys, a column for each sort clause; seen as the directions of the clauses and the list of rows.
#[derive(Drop)]
pub struct KeyRows {
    table: Table,
}

impl Model for KeyRows {
    ghost use Rattle.hit_order.specs.Table.{KeyTable, table_code};
    ghost use Rattle.hit_order.specs.Table.{table_of};

    ghost Value = { KeyTable };

    ghost coded = { table_code };

    ghost view = { λ it. table_of it.table.columns.items it.table.places.items };
}

impl KeyRows {
    /// The rows that were found at these places, each with one key of each column. Takes no memory.
    pub fn of(columns: Vec<Column>, places: Vec<RowPlace>) -> KeyRows
        ensures { result ≡ table_of columns.items places.items }
    {
        KeyRows {
            table: Table { columns, places },
        }
    }

    /// How many rows there are.
    pub fn len(&self) -> usize
        ensures { result ≡ length self.now.rows }
    {
        self.table.places.len()
    }

    /// A row with its keys.
    pub fn row(&self, alloc: Global, at: usize) -> Result<KeyRow, NoMemory>
        requires { at < length self.now.rows }
        ensures { IfOk result (λ row. row ≡ slice_index_or self.now.rows at row) }
    {
        Ok(self.table.row(alloc, at)?)
    }

    /// Where a row was found. Takes no memory.
    pub fn place(&self, at: usize) -> RowPlace
        requires { at < length self.now.rows }
        ensures { (none : Row) → result ≡ place_of_row (get_or self.now.rows at none) }
    {
        self.table.place(at)
    }
}

/// The page of the rows that stand behind that of `search_after`: without the first `from` of them, the first `size`.
///
/// It looks at each row once, and takes memory for twice as many rows as `from` and `size` are together.
pub fn top(
    alloc: Global,
    rows: KeyRows,
    after: Option<&KeyRow>,
    from: u32,
    size: u32,
) -> Result<KeyRows, NoMemory>
    ensures page { IfOk result (λ page. page.rows ≡ page_of keys_of_row number_of_row rows.directions (option_map (λ row. row.now) after.entry) from size rows.rows) }
    ensures directions { IfOk result (λ page. page.directions ≡ rows.directions) }
{
    rows_stand_in_order::<KeyRow>();
    let from = from as usize;
    let page = selected(alloc, &rows.table, after, from, from + size as usize)?;
    Ok(KeyRows {
        table: rows.table.gathered(alloc, page.as_slice())?,
    })
}
