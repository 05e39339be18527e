//! The columns of rows, and the places where the rows were found.
ghost use Rattle.std.specs.Prelude.{◌≡◌, map, option_map, IfOk};
ghost use Rattle.query_ast.specs.Page.{place_cmp};
ghost use Rattle.hit_order.specs.Table.{directions_of, keys_of, key_at, place_at, row_at, table_of};
ghost use Rattle.hit_order.specs.Indexed.{keys_at, number_at, is_after};

use crate::NoMemory;
use crate::column::{Column, RowPlace};
use crate::compare::{compared, first_key, later_keys};
use query_ast::{KeyList, KeyRow};
use std::alloc::Global;
use std::cmp::Ordering;

#[derive(Drop)]
pub(crate) struct Table {
    pub(crate) columns: Vec<Column>,
    pub(crate) places: Vec<RowPlace>,
}

impl Table {
    /// Where a row was found.
    pub(crate) fn place(&self, at: usize) -> RowPlace
        ensures { result ≡ place_at self.now.places.items at }
    {
        match self.places.get(at) {
            Some(place) => *place,
            None => RowPlace {
                place: 0,
                doc: 0,
                number: 0,
            },
        }
    }

    /// A row with its keys.
    pub(crate) fn row(&self, alloc: Global, at: usize) -> Result<KeyRow, NoMemory>
        ensures { IfOk result (λ row. row ≡ row_at self.now.columns.items self.now.places.items at) }
    {
        let mut keys = Vec::new(alloc);
        'columns: for column in &self.columns {
            keys.push(column.key(at).owned(alloc)?)?;
        }
        let RowPlace { place, doc, number } = self.place(at);
        Ok(KeyRow {
            keys: KeyList::of(keys),
            place,
            doc,
            number,
        })
    }

    /// How two rows compare.
    pub(crate) fn compare(&self, one: usize, other: usize) -> Ordering
        ensures { result ≡ place_cmp (directions_of self.now.columns.items) (keys_at self.now one, number_at self.now one) (keys_at self.now other, number_at self.now other) }
    {
        'columns: for column in &self.columns {
            let found = compared(column.direction, column.key(one), column.key(other));
            if !found.is_eq() {
                return found;
            }
        }
        self.place(one).number.cmp(&self.place(other).number)
    }

    /// Whether a row stands strictly behind the one that was named, if one was.
    #[tactic(auto, unfolding(crate::specs::Indexed::is_after))]
    pub(crate) fn is_after(&self, after: Option<&KeyRow>, at: usize) -> bool
        ensures { result ≡ is_after self.now (option_map (λ row. row.now) after.entry) at }
    {
        match after {
            None => true,
            Some(row) => self.compare_after(row, at).is_lt(),
        }
    }

    /// How the row of `search_after` compares with one of these.
    fn compare_after(&self, after: &KeyRow, at: usize) -> Ordering
        ensures { result ≡ place_cmp (directions_of self.now.columns.items) (after.now.keys, after.now.number) (keys_at self.now at, number_at self.now at) }
    {
        let mut keys = after.keys.as_slice();
        'columns: for column in &self.columns {
            let found = compared(column.direction, first_key(keys), column.key(at));
            keys = later_keys(keys);
            if !found.is_eq() {
                return found;
            }
        }
        after.number.cmp(&self.place(at).number)
    }

    /// The table of these rows alone.
    pub(crate) fn gathered(&self, alloc: Global, rows: &[usize]) -> Result<Table, NoMemory>
        ensures { IfOk result (λ made. table_of made.columns.items made.places.items ≡ record { directions = directions_of self.now.columns.items; rows = map (row_at self.now.columns.items self.now.places.items) rows.now }) }
    {
        Ok(Table {
            columns: self.gathered_columns(alloc, rows)?,
            places: self.gathered_places(alloc, rows)?,
        })
    }

    fn gathered_columns(&self, alloc: Global, rows: &[usize]) -> Result<Vec<Column>, NoMemory>
        ensures directions { IfOk result (λ made. directions_of made.items ≡ directions_of self.now.columns.items) }
        ensures keys { IfOk result (λ made. map (λ column. keys_of column.keys) made.items ≡ map (λ column. map (key_at column) rows.now) self.now.columns.items) }
    {
        let mut made = Vec::new(alloc);
        'columns: for column in &self.columns {
            made.push(column.gathered(alloc, rows)?)?;
        }
        Ok(made)
    }

    fn gathered_places(&self, alloc: Global, rows: &[usize]) -> Result<Vec<RowPlace>, NoMemory>
        ensures { IfOk result (λ made. made.items ≡ map (place_at self.now.places.items) rows.now) }
    {
        let mut made = Vec::new(alloc);
        'rows: for row in rows {
            made.push(self.place(*row))?;
        }
        Ok(made)
    }
}
