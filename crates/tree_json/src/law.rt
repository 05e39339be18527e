//! A law of what is read, as the contract of a function that does nothing.
ghost use Rattle.std.specs.Prelude.{◌≡◌, ◌≤◌, ℕ, List};
ghost use Rattle.tree_json.specs.Levels.{levels, most_levels};
ghost use Rattle.tree_json.specs.Reading.{reading, value};
ghost use Rattle.tree_json.specs.Value.{JsonValue};

/// Lists and objects of a value that was read stand at most 127 deep in one another.
pub fn what_is_read_has_few_levels()
    ensures { (bytes : List ℕ) (v : JsonValue) → reading bytes ≡ value v → levels v ≤ most_levels }
{}
