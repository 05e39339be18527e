//! A column appended to bytes as text. After NoMemory the bytes are longer at most.

ghost use Rattle.std.specs.Prelude.{◌≡◌, ◌<◌, ◌^◌, ◌++◌, length, OnOk};
ghost use Rattle.part_text.specs.Text.{u32_text, counted_text};
ghost use Rattle.part_text.specs.Written.{Extends};
ghost use Rattle.doc_values.specs.Text.{entry_text, column_text};

use crate::{ColumnValue, RowList, ValueList};
use part_text::{NoMemory, put_u32};

/// Appends values behind their number.
#[tactic(auto, using(part_text::specs::Written::extends))]
fn put_values<T: ColumnValue>(list: &ValueList<T>, into: &mut Vec<u8>) -> Result<(), NoMemory>
    ensures put { OnOk result (into.new.items ≡ into.old.items ++ counted_text u32_text T.text list.now) }
    ensures grown { Extends into.old.items into.new.items }
{
    let values = list.as_slice();
    put_u32(into, values.len() as u32)?;
    'values: for value in values {
        value.put(into)?;
    }
    Ok(())
}

/// Appends a document and its values.
#[tactic(auto, using(part_text::specs::Written::extends))]
fn put_entry<T: ColumnValue>(
    entry: &(u32, ValueList<T>),
    into: &mut Vec<u8>,
) -> Result<(), NoMemory>
    ensures put { OnOk result (into.new.items ≡ into.old.items ++ entry_text T.text entry.now) }
    ensures grown { Extends into.old.items into.new.items }
{
    put_u32(into, entry.0)?;
    put_values(&entry.1, into)
}

/// Appends entries behind their number.
#[tactic(auto, using(part_text::specs::Written::extends))]
fn put_entries<T: ColumnValue>(
    entries: &[(u32, ValueList<T>)],
    into: &mut Vec<u8>,
) -> Result<(), NoMemory>
    requires { length entries.now < 2 ^ 32 }
    ensures put { OnOk result (into.new.items ≡ into.old.items ++ counted_text u32_text (entry_text T.text) entries.now) }
    ensures grown { Extends into.old.items into.new.items }
{
    put_u32(into, entries.len() as u32)?;
    'entries: for entry in entries {
        put_entry(entry, into)?;
    }
    Ok(())
}

/// Appends a column: its field and its entries.
#[tactic(auto, using(part_text::specs::Written::extends))]
pub(crate) fn put_column<T: ColumnValue>(
    column: &RowList<T>,
    into: &mut Vec<u8>,
) -> Result<(), NoMemory>
    ensures put { OnOk result (into.new.items ≡ into.old.items ++ column_text T.text column.now) }
    ensures grown { Extends into.old.items into.new.items }
{
    put_u32(into, column.field())?;
    put_entries(column.as_slice(), into)
}
