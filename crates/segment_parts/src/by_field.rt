//! One thing a field.

ghost use Rattle.std.specs.Prelude.{◌≡◌, ◌↔◌, ◌<◌, ◌^◌, length, IsTrue};
ghost use Rattle.std.specs.Option.{option_map};
ghost use Rattle.std.specs.List.Sorted.{IsStrictlyIncreasing};
ghost use Rattle.segment_parts.specs.Fields.{column_of, fields};

use crate::search::index_of;
use std::marker::Model;

/// One column a field, or what is kept of it, each with its field and by ascending field.
#[derive(Drop)]
pub struct ByField<C: Drop> {
    columns: Vec<(u32, C)>,
}

impl<C: Drop> Model for ByField<C> {
    ghost use Rattle.std.specs.Prelude.{ℕ, List};
    ghost use Rattle.std.specs.List.Sorted.{IsStrictlyIncreasing};
    ghost use Rattle.segment_parts.specs.Fields.{fields};

    ghost Value = { List (ℕ × C) };

    ghost view = { λ it. it.columns.items };

    ghost invariant = { λ it. IsStrictlyIncreasing (fields it.columns.items) };
}

impl<C: Drop> ByField<C> {
    /// The list of these columns, as `are_ascending` tests them. Takes no memory.
    pub fn of(columns: Vec<(u32, C)>) -> ByField<C>
        requires { IsStrictlyIncreasing (fields columns.items) }
        ensures { result ≡ columns.items }
    {
        ByField { columns }
    }

    /// Whether the fields of columns strictly ascend.
    pub fn are_ascending(columns: &[(u32, C)]) -> bool
        ensures { IsTrue result ↔ IsStrictlyIncreasing (fields columns.now) }
    {
        'columns: for at in 1..columns.len() {
            if columns[at].0 <= columns[at - 1].0 {
                return false;
            }
        }
        true
    }

    /// The columns, in order.
    pub fn as_slice(&self) -> &[(u32, C)]
        ensures columns { result.now ≡ self.now }
        ensures ascending { IsStrictlyIncreasing (fields self.now) }
    {
        self.columns.as_slice()
    }

    /// The column of a field, and None where the field has none.
    pub fn get(&self, field: u32) -> Option<&C>
        ensures { option_map (λ column. column.now) result ≡ column_of field self.now }
    {
        let columns = self.columns.as_slice();
        match index_of(columns, field) {
            Some(at) => Some(&columns[at].1),
            None => None,
        }
    }
}
