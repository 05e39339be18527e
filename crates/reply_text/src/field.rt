//! Objects whose names are known beforehand: a list of names with values, in byte order of the names.
ghost use Rattle.std.specs.Prelude.{◌≡◌, ◌-◌, ◌≤◌, ◌^◌, ◌++◌, ◌+◌, min, length, true, false};
ghost use Rattle.tree_json.specs.Output.{room_of};
ghost use Rattle.tree_json.specs.Text.{comma_if};
ghost use Rattle.reply_text.specs.Field.{value_text, field_text, fields_text};

use crate::write::put_comma;
use tree_json::{OutText, count_len, put_count, put_quoted, put_whole, quoted_len, whole_len};

/// A value that is printed by itself.
#[derive(Clone, Copy)]
pub(crate) enum Value<'a> {
    Count(u64),
    Whole(i64),
    Text(&'a [u8]),
}

/// A name as it is printed, with its quotation marks and the colon, and its value.
#[derive(Clone, Copy)]
pub(crate) struct Field<'a>(pub &'static [u8], pub Value<'a>);

fn value_len(value: &Value) -> u64
    ensures { result ≡ min (length (value_text value.now)) (2 ^ 64 - 1) }
{
    match value {
        Value::Count(number) => count_len(*number),
        Value::Whole(number) => whole_len(*number),
        Value::Text(text) => quoted_len(text),
    }
}

fn put_value(value: &Value, into: &mut OutText)
    requires { length (value_text value.now) ≤ into.old.spare }
    ensures bytes { into.new.bytes ≡ into.old.bytes ++ value_text value.now }
    ensures spare { into.old.spare ≤ into.new.spare + length (value_text value.now) }
    ensures room { room_of into.old ≤ room_of into.new }
{
    match value {
        Value::Count(number) => put_count(*number, into),
        Value::Whole(number) => put_whole(*number, into),
        Value::Text(text) => put_quoted(text, into),
    }
}

fn field_len(field: &Field) -> u64
    ensures { result ≡ min (length (field_text field.now)) (2 ^ 64 - 1) }
{
    (field.0.len() as u64).saturating_add(value_len(&field.1))
}

// With a comma where something stands before.
fn put_field(later: bool, field: &Field, into: &mut OutText)
    requires { length (comma_if later ++ field_text field.now) ≤ into.old.spare }
    ensures bytes { into.new.bytes ≡ into.old.bytes ++ (comma_if later ++ field_text field.now) }
    ensures spare { into.old.spare ≤ into.new.spare + length (comma_if later ++ field_text field.now) }
    ensures room { room_of into.old ≤ room_of into.new }
{
    put_comma(later, into);
    into.push_spare(field.0);
    put_value(&field.1, into);
}

/// The length of the fields with the commas between them, in bytes, or the greatest u64 where it is greater than that.
pub(crate) fn fields_len(fields: &[Field]) -> u64
    ensures { result ≡ min (length (fields_text false fields.now)) (2 ^ 64 - 1) }
{
    let mut total: u64 = 0;
    let mut later = false;
    'fields: for field in fields {
        total = total
            .saturating_add(later as u64)
            .saturating_add(field_len(field));
        later = true;
    }
    total
}

/// Appends the fields with commas between them, for which there is room.
pub(crate) fn put_fields(fields: &[Field], into: &mut OutText)
    requires { length (fields_text false fields.now) ≤ into.old.spare }
    ensures bytes { into.new.bytes ≡ into.old.bytes ++ fields_text false fields.now }
    ensures spare { into.old.spare ≤ into.new.spare + length (fields_text false fields.now) }
    ensures room { room_of into.old ≤ room_of into.new }
{
    let mut later = false;
    'fields: for field in fields {
        put_field(later, field, into);
        later = true;
    }
}
