//! A law of relations.
ghost use Rattle.std.specs.Prelude.{◌≡◌, ℕ, List, false};
ghost use Rattle.mapping_growth.specs.Relations.{IsAncestor, Relation, turns_back};

/// No line of parents turns back exactly where no relation is its own ancestor.
pub fn lines_turn_back_at_ancestors()
    ensures founded { (rs : List Relation) (r : ℕ) → turns_back rs ≡ false → IsAncestor rs r r → ⊥ }
    ensures found { (rs : List Relation) → ((r : ℕ) → IsAncestor rs r r → ⊥) → turns_back rs ≡ false }
{}
