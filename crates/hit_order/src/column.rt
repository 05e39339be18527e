//! The columns of a table of rows.
ghost use Rattle.std.specs.Prelude.{◌≡◌, map, IfOk};
ghost use Rattle.hit_order.specs.Table.{key_at, keys_of};
ghost use Rattle.hit_order.specs.Shown.{key_shown};

use crate::NoMemory;
use crate::compare::KeyRef;
use crate::keys::{NumberKeys, TextKeys};
use query_ast::Direction;
use std::alloc::Global;

/// The keys that the rows have for one clause of a sort.
#[derive(Drop)]
pub struct Column {
    pub direction: Direction,
    pub keys: ColumnKeys,
}

/// Keys of one kind.
#[derive(Drop)]
pub enum ColumnKeys {
    Numbers(NumberKeys),
    Texts(TextKeys),
}

/// Where a row was found: the entry's place in the view, the document in its segment, and its tree's sequence number.
#[derive(Clone, Copy, Debug, PartialEq, Eq)]
pub struct RowPlace {
    pub place: u64,
    pub doc: u32,
    pub number: i64,
}

impl Column {
    /// The key of a row.
    pub(crate) fn key(&self, at: usize) -> KeyRef<'_>
        ensures { key_shown result ≡ key_at self.now at }
    {
        match &self.keys {
            ColumnKeys::Numbers(keys) => match keys.get(at) {
                Some(number) => KeyRef::Number(number),
                None => KeyRef::Null,
            },
            ColumnKeys::Texts(keys) => match keys.get(at) {
                Some(text) => KeyRef::Written(text),
                None => KeyRef::Null,
            },
        }
    }

    /// The column of these rows alone.
    pub(crate) fn gathered(&self, alloc: Global, rows: &[usize]) -> Result<Column, NoMemory>
        ensures direction { IfOk result (λ made. made.direction ≡ self.now.direction) }
        ensures keys { IfOk result (λ made. keys_of made.keys ≡ map (key_at self.now) rows.now) }
    {
        match &self.keys {
            ColumnKeys::Numbers(keys) => Ok(Column {
                direction: self.direction,
                keys: ColumnKeys::Numbers(keys.gathered(alloc, rows)?),
            }),
            ColumnKeys::Texts(keys) => Ok(Column {
                direction: self.direction,
                keys: ColumnKeys::Texts(keys.gathered(alloc, rows)?),
            }),
        }
    }
}
