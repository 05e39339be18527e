//! A law of pages, as the contract of a function that does nothing.
ghost use Rattle.std.specs.Prelude.{◌≡◌, ℕ, ◌+◌, ◌≤◌, List, ◌∷◌, filter, map, Option, option_map};
ghost use Rattle.hit_order.specs.Reach.{IsWide, first_of_row, is_within};
ghost use Rattle.hit_order.specs.Table.{keys_of_row, number_of_row};
ghost use Rattle.query_ast.specs.Page.{page_of};
ghost use Rattle.query_ast.specs.declared.sort.Direction.{Direction};
ghost use Rattle.query_ast.specs.declared.sort.Key.{Key as RowKey};
ghost use Rattle.query_ast.specs.declared.sort.KeyRow.{KeyRow as Row};

use query_ast::{Key, KeyRow, rows_stand_in_order};

/// Rows whose first keys are out of reach may be left out before a page is cut: those that stand before the row to go on
/// behind, and those behind a bound that as many rows reach as the page ends at.
pub fn pages_are_of_rows_within_reach()
    ensures { (direction : Direction) (directions : List Direction) (after : Option Row) (bound : Option RowKey) (most from size : ℕ) (rows : List Row)
        → IsWide most direction (option_map first_of_row after) bound (map first_of_row rows)
        → from + size ≤ most
        → page_of keys_of_row number_of_row (direction ∷ directions) after from size (filter (λ row. is_within direction (option_map first_of_row after) bound (first_of_row row)) rows) ≡ page_of keys_of_row number_of_row (direction ∷ directions) after from size rows }
{
    rows_stand_in_order::<KeyRow>();
    rows_stand_in_order::<Key>();
}
