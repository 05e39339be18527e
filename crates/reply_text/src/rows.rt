//! The layout's rows as text.
ghost use Rattle.std.specs.Prelude.{◌≡◌, ◌-◌, ◌≤◌, ◌^◌, ◌++◌, ◌+◌, min, length, map, false};
ghost use Rattle.tree_json.specs.Output.{room_of};
ghost use Rattle.tree_json.specs.Text.{comma_if};
ghost use Rattle.reply_text.specs.Field.{fields_text};
ghost use Rattle.reply_text.specs.Layout.{segment_text, merge_text};
ghost use Rattle.reply_text.specs.Object.{braces, elements_text};

use crate::field::{Field, Value, fields_len, put_fields};
use crate::layout::{MergeRow, SegmentRow};
use crate::write::put_comma;
use tree_json::OutText;

#[tactic(auto, unfolding(crate::specs::Layout::segment_text, crate::specs::Object::object_text, tree_json::specs::Text::quoted, json::specs::Print::escape_byte))]
fn segment_fields(row: &SegmentRow) -> [Field<'static>; 5]
    ensures { braces (fields_text false result) ≡ segment_text row.now }
{
    [
        Field(b"\"dead\":", Value::Count(row.dead)),
        Field(b"\"first\":", Value::Count(row.first)),
        Field(b"\"last\":", Value::Count(row.last)),
        Field(b"\"live\":", Value::Count(row.live)),
        Field(b"\"objects\":", Value::Count(row.objects)),
    ]
}

#[tactic(auto, unfolding(crate::specs::Layout::merge_text, crate::specs::Object::object_text, tree_json::specs::Text::quoted, json::specs::Print::escape_byte))]
fn merge_fields(row: &MergeRow) -> [Field<'static>; 4]
    ensures { braces (fields_text false result) ≡ merge_text row.now }
{
    [
        Field(b"\"count\":", Value::Count(row.count)),
        Field(b"\"from\":", Value::Count(row.from)),
        Field(b"\"left\":", Value::Count(row.left)),
        Field(b"\"merge\":", Value::Count(row.merge)),
    ]
}

// An object of fields in a list, with a comma where something stands before.
fn put_row(later: bool, fields: &[Field], into: &mut OutText)
    requires { length (comma_if later ++ braces (fields_text false fields.now)) ≤ into.old.spare }
    ensures bytes { into.new.bytes ≡ into.old.bytes ++ (comma_if later ++ braces (fields_text false fields.now)) }
    ensures spare { into.old.spare ≤ into.new.spare + length (comma_if later ++ braces (fields_text false fields.now)) }
    ensures room { room_of into.old ≤ room_of into.new }
{
    put_comma(later, into);
    into.push_spare(b"{");
    put_fields(fields, into);
    into.push_spare(b"}");
}

/// The length of the segments with the commas between them.
pub(crate) fn segments_len(rows: &[SegmentRow]) -> u64
    ensures { result ≡ min (length (elements_text false (map segment_text rows.now))) (2 ^ 64 - 1) }
{
    let mut total: u64 = 0;
    let mut later = false;
    'rows: for row in rows {
        total = total
            .saturating_add(later as u64)
            .saturating_add(fields_len(&segment_fields(row)))
            .saturating_add(2);
        later = true;
    }
    total
}

/// Appends the segments with commas between them, for which there is room.
pub(crate) fn put_segments(rows: &[SegmentRow], into: &mut OutText)
    requires { length (elements_text false (map segment_text rows.now)) ≤ into.old.spare }
    ensures bytes { into.new.bytes ≡ into.old.bytes ++ elements_text false (map segment_text rows.now) }
    ensures spare { into.old.spare ≤ into.new.spare + length (elements_text false (map segment_text rows.now)) }
    ensures room { room_of into.old ≤ room_of into.new }
{
    let mut later = false;
    'rows: for row in rows {
        put_row(later, &segment_fields(row), into);
        later = true;
    }
}

/// The length of the merges with the commas between them.
pub(crate) fn merges_len(rows: &[MergeRow]) -> u64
    ensures { result ≡ min (length (elements_text false (map merge_text rows.now))) (2 ^ 64 - 1) }
{
    let mut total: u64 = 0;
    let mut later = false;
    'rows: for row in rows {
        total = total
            .saturating_add(later as u64)
            .saturating_add(fields_len(&merge_fields(row)))
            .saturating_add(2);
        later = true;
    }
    total
}

/// Appends the merges with commas between them, for which there is room.
pub(crate) fn put_merges(rows: &[MergeRow], into: &mut OutText)
    requires { length (elements_text false (map merge_text rows.now)) ≤ into.old.spare }
    ensures bytes { into.new.bytes ≡ into.old.bytes ++ elements_text false (map merge_text rows.now) }
    ensures spare { into.old.spare ≤ into.new.spare + length (elements_text false (map merge_text rows.now)) }
    ensures room { room_of into.old ≤ room_of into.new }
{
    let mut later = false;
    'rows: for row in rows {
        put_row(later, &merge_fields(row), into);
        later = true;
    }
}
