//! Laws: what holds of every page, as the contract of a function that does nothing.
ghost use Rattle.std.specs.Prelude.{◌≡◌, ℕ, ◌<◌, List, None, AllPairs, true};
ghost use Rattle.tree_objects.specs.declared.field_value.FieldValue.{FieldValue};
ghost use Rattle.composite_aggs.specs.Composite.{Keyed, full_list, is_lower};
ghost use Rattle.composite_aggs.specs.Walk.{IsWalk, joined};

/// Pages of one size, each behind the last key of the one before, until one has fewer buckets than that, are the full list;
/// there are such pages for each size; and in the full list each key stands once, by ascending key.
pub fn pages_are_the_full_list<T>()
    ensures whole { (keys : T → List (List FieldValue)) (rows : List T) (size : ℕ) (pages : List (List (Keyed T))) → IsWalk size (full_list keys rows) None pages → joined pages ≡ full_list keys rows }
    ensures ends { (keys : T → List (List FieldValue)) (rows : List T) (size : ℕ) → 0 < size → (pages : List (List (Keyed T))) × IsWalk size (full_list keys rows) None pages }
    ensures once { (keys : T → List (List FieldValue)) (rows : List T) → AllPairs (λ a b. is_lower a.key b.key ≡ true) (full_list keys rows) }
{}
