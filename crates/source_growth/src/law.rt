//! Laws: what holds of every body that a source adds, as the contract of a function that does nothing.
ghost use Rattle.std.specs.Prelude.{◌≡◌, Some, None, true};
ghost use Rattle.tree_json.specs.Value.{JsonValue};
ghost use Rattle.mapping_body.specs.Body.{is_body};
ghost use Rattle.mapping_growth.specs.Bodies.{AreBodies, adds, conflict_of};
ghost use Rattle.mapping.specs.IsMapping.{IsMapping};
ghost use Rattle.mapping.specs.Mapping.{Mapping, mapping_of};
ghost use Rattle.source_growth.specs.Growth.{growth};
ghost use Rattle.source_growth.specs.Said.{IsSaidBy};

/// The body that a source adds to a mapping has the form of a body, says nothing otherwise than the mapping, and adds to
/// it: so `Mapping::grown` refuses it for a limit alone.
pub fn growth_is_taken()
    ensures { (m : Mapping) (source body : JsonValue) → IsMapping m → AreBodies m.bodies → m ≡ mapping_of m.bodies m.dynamic → growth m source ≡ Some body → (is_body body ≡ true) × (conflict_of m.bodies body ≡ None) × (adds m.bodies body ≡ true) }
{}

/// The body says of each path what the values of the source at that path give: an unmapped path has the kind of the first
/// of them, whatever else the source has; a mapped one is named where something below it is added; nothing else is named.
pub fn growth_is_said_by_values()
    ensures { (m : Mapping) (source : JsonValue) → IsSaidBy m source (growth m source) }
{}
