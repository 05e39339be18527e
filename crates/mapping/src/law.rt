//! Laws: what holds of every mapping, as the contracts of functions that do nothing.
ghost use Rattle.std.specs.Prelude.{◌≡◌, ℕ, List, [], ◌∷◌, ◌++◌, Bool, ◌<◌, ◌⊎◌, ◌==◌, ◌||◌, true, length};
ghost use Rattle.std.specs.List.{list_all};
ghost use Rattle.tree_json.specs.Value.{JsonValue};
ghost use Rattle.mapping_growth.specs.Bodies.{AreBodies};
ghost use Rattle.mapping_body.specs.Body.{is_body};
ghost use Rattle.mapping.specs.Growth.{HasFurtherBodies, KeepsNumbers};
ghost use Rattle.mapping.specs.IsMapping.{IsMapping};
ghost use Rattle.mapping.specs.Reached.{AreReached};
ghost use Rattle.mapping.specs.Mapping.{Mapping, IsAbove, IsIncluded, home_of, included, is_above, mapping_of, outer};

/// The scopes above a nested path form a chain that ends at the root: of two of them one is above the other, and those
/// above a nested path are the scope around it and those above that one. A scope above another has a smaller number. Values
/// of a field are included at its home and in scopes above it alone.
pub fn scopes_form_chains()
    ensures chain { (m : Mapping) (a b n : ℕ) → IsMapping m → IsAbove m a n → IsAbove m b n → (a ≡ b) ⊎ (IsAbove m a b ⊎ IsAbove m b a) }
    ensures step { (m : Mapping) (a n : ℕ) → IsMapping m → 0 < n → n < length m.scopes → is_above m a n ≡ (outer m n == a || is_above m a (outer m n)) }
    ensures smaller { (m : Mapping) (a b : ℕ) → IsMapping m → IsAbove m a b → (a < b) × (b < length m.scopes) }
    ensures root { (m : Mapping) (n : ℕ) → IsMapping m → 0 < n → n < length m.scopes → IsAbove m 0 n }
    ensures included { (m : Mapping) (field scope : ℕ) → IsMapping m → field < length m.fields → included m field scope ≡ true → (home_of m field ≡ scope) ⊎ IsAbove m scope (home_of m field) }
{}

/// A field's values are included in a scope exactly where the flags of nested paths lead there from its home.
pub fn inclusion_goes_by_flags()
    ensures led { (m : Mapping) (field scope : ℕ) → IsMapping m → included m field scope ≡ true → IsIncluded m (home_of m field) scope }
    ensures included { (m : Mapping) (field scope : ℕ) → IsMapping m → IsIncluded m (home_of m field) scope → included m field scope ≡ true }
{}

/// A further body leaves what stands under each number: the path, the kind, the home and the generation of a field, and
/// all that is said of a scope and of a relation.
pub fn growth_keeps_numbers()
    ensures { (bodies : List JsonValue) (body : JsonValue) (on later : Bool) → AreBodies bodies → is_body body ≡ true → KeepsNumbers (mapping_of bodies on) (mapping_of (bodies ++ body ∷ []) later) }
{}

/// Further bodies leave fields, scopes and relations under their numbers, and add others behind them, each of a later
/// generation. So what is said of a tree by what its generation knows stays the same.
pub fn further_bodies_stand_behind()
    ensures { (bodies more : List JsonValue) (on later : Bool) → AreBodies bodies → list_all is_body more ≡ true → HasFurtherBodies (mapping_of bodies on) (mapping_of (bodies ++ more) later) }
{}

/// Names lead from the root of every mapping to each of its fields, by fields that were added no later.
pub fn names_lead_to_fields()
    ensures { (bodies : List JsonValue) (on : Bool) → AreBodies bodies → AreReached (mapping_of bodies on) }
{}
