//! A law of paths.
ghost use Rattle.std.specs.Prelude.{◌≡◌, ℕ, List, [], ◌∷◌, ◌++◌, true};
ghost use Rattle.mapping_body.specs.Names.{IsProperPrefix, is_property_name, joined, lies_above, names_of};

/// Paths stand to one another as the lists of their names do: one lies above another exactly where its names are a proper
/// prefix of the other's, and a name joined to a path comes behind its names.
pub fn paths_are_lists_of_names()
    ensures above { (above path : List ℕ) → lies_above above path ≡ true → IsProperPrefix (names_of above) (names_of path) }
    ensures prefix { (above path : List ℕ) → IsProperPrefix (names_of above) (names_of path) → lies_above above path ≡ true }
    ensures joined { (path name : List ℕ) → is_property_name name ≡ true → names_of (joined path name) ≡ names_of path ++ name ∷ [] }
{}
