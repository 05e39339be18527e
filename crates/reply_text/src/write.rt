//! What every writer here uses: commas.
ghost use Rattle.std.specs.Prelude.{◌≡◌, ◌≤◌, ◌++◌, ◌+◌, length};
ghost use Rattle.tree_json.specs.Output.{room_of};
ghost use Rattle.tree_json.specs.Text.{comma_if};

use tree_json::OutText;

/// Appends a comma where something stands before, for which there is room.
pub(crate) fn put_comma(later: bool, into: &mut OutText)
    requires { length (comma_if later) ≤ into.old.spare }
    ensures bytes { into.new.bytes ≡ into.old.bytes ++ comma_if later }
    ensures spare { into.old.spare ≤ into.new.spare + length (comma_if later) }
    ensures room { room_of into.old ≤ room_of into.new }
{
    if later {
        into.push_spare(b",");
    }
}
