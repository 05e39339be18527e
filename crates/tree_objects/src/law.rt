//! Laws: what holds of the objects of every tree, as the contract of a function that does nothing.
ghost use Rattle.std.specs.Prelude.{◌≡◌, ◌≢◌, ℕ, ◌<◌, ◌≤◌, ◌+◌, [], ◌∷◌, length, filter, get_or, true, false, None};
ghost use Rattle.std.specs.List.{All, Contains, flat_map, sum_by};
ghost use Rattle.tree_json.specs.Text.{compact};
ghost use Rattle.tree_json.specs.Value.{is_object};
ghost use Rattle.tree_objects.specs.Enclosing.{IsEnclosing, stands_at};
ghost use Rattle.mapping.specs.Growth.{HasFurtherBodies};
ghost use Rattle.mapping.specs.IsMapping.{IsMapping};
ghost use Rattle.mapping.specs.Reached.{AreReached};
ghost use Rattle.mapping.specs.Mapping.{Mapping, IsAbove, generation_of, home_of, kind_at, outer, shows};
ghost use Rattle.tree_json.specs.Value.{JsonValue};
ghost use Rattle.tree_objects.specs.Fault.{first_fault, has_long_term};
ghost use Rattle.tree_objects.specs.Object.{Object, around, below, block_objects, children, objects, place, root, scope, tree_of};
ghost use Rattle.tree_objects.specs.Tree.{Tree};
ghost use Rattle.tree_objects.specs.Values.{join_of, own_values, values, written_bytes};

/// The objects of a tree have different places, and are parted by their scopes: each stands at one scope of the mapping, at
/// the root's scope there is the root alone, and at a nested path there are, in document order, the objects below the
/// root. So it is inside each object, as far as there are levels. At each scope above its own an object lies in exactly
/// one object of its tree, which is the one around it there; and around a child is the object that it is a child of.
/// Where an object shows a field, its values are those of the objects inside it at the home of the field, in the order of
/// the block.
pub fn objects_nest()
    ensures places { (m : Mapping) (tree : Tree) (i j : ℕ) (o : Object) → IsMapping m → i < j → j < length (block_objects m tree) → place (get_or (block_objects m tree) i o) ≢ place (get_or (block_objects m tree) j o) }
    ensures in_range { (m : Mapping) (tree : Tree) (o : Object) → IsMapping m → Contains (block_objects m tree) o → scope o < length m.scopes }
    ensures at_root { (m : Mapping) (tree : Tree) → IsMapping m → filter (stands_at 0) (block_objects m tree) ≡ root tree ∷ [] }
    ensures at_nested { (m : Mapping) (tree : Tree) (n : ℕ) → IsMapping m → 0 < n → n < length m.scopes → filter (stands_at n) (block_objects m tree) ≡ below m (root tree) n }
    ensures within { (m : Mapping) (levels n : ℕ) (o : Object) → IsMapping m → IsAbove m (scope o) n → n ≤ scope o + levels → filter (stands_at n) (objects m levels o) ≡ below m o n }
    ensures enclosing { (m : Mapping) (tree : Tree) (o : Object) (n : ℕ) → IsMapping m → Contains (block_objects m tree) o → IsAbove m n (scope o) → IsEnclosing m tree n o (around o n) }
    ensures child { (m : Mapping) (o c : Object) (n : ℕ) → IsMapping m → 0 < n → outer m n ≡ scope o → Contains (children m o n) c → around c (scope o) ≡ o }
    ensures shown { (m : Mapping) (levels field : ℕ) (o : Object) → IsMapping m → field < length m.fields → shows m (tree_of o).generation field (scope o) ≡ true → home_of m field ≤ scope o + levels → values m field o ≡ flat_map (own_values m field) (filter (stands_at (home_of m field)) (objects m levels o)) }
{}

/// Further bodies leave a tree as it was: its objects, their values, its relation and its faults are those of the mapping
/// under whose generation it was indexed. A field of a later body has no values there.
pub fn further_bodies_leave_trees()
    ensures objects { (m m2 : Mapping) (tree : Tree) → IsMapping m → IsMapping m2 → HasFurtherBodies m m2 → tree.generation ≤ generation_of m → block_objects m2 tree ≡ block_objects m tree }
    ensures below { (m m2 : Mapping) (o : Object) (p : ℕ) → IsMapping m → HasFurtherBodies m m2 → p < length m.scopes → below m2 o p ≡ below m o p }
    ensures values { (m m2 : Mapping) (f : ℕ) (o : Object) → IsMapping m → HasFurtherBodies m m2 → f < length m.fields → values m2 f o ≡ values m f o }
    ensures later { (m m2 : Mapping) (f : ℕ) (o : Object) → HasFurtherBodies m m2 → (tree_of o).generation ≤ generation_of m → length m.fields ≤ f → f < length m2.fields → values m2 f o ≡ [] }
    ensures join { (m m2 : Mapping) (tree : Tree) → HasFurtherBodies m m2 → tree.generation ≤ generation_of m → join_of m2 tree ≡ join_of m tree }
    ensures faults { (m m2 : Mapping) (generation : ℕ) (source : JsonValue) → HasFurtherBodies m m2 → generation ≤ generation_of m → first_fault m2 generation source ≡ first_fault m generation source }
{}

/// An object shows at most as many values of a field as its tree's source has bytes as compact text, and they have together
/// at most as many bytes. Where the source has no fault none of them has a long term.
pub fn values_are_bounded()
    ensures count { (m : Mapping) (tree : Tree) (o : Object) (f : ℕ) → Contains (block_objects m tree) o → length (values m f o) ≤ length (compact tree.source) }
    ensures bytes { (m : Mapping) (tree : Tree) (o : Object) (f : ℕ) → Contains (block_objects m tree) o → sum_by written_bytes (values m f o) ≤ length (compact tree.source) }
    ensures short { (m : Mapping) (tree : Tree) (o : Object) (f : ℕ) → IsMapping m → AreReached m → is_object tree.source ≡ true → first_fault m tree.generation tree.source ≡ None → Contains (block_objects m tree) o → f < length m.fields → All (λ v. has_long_term (kind_at m f) v ≡ false) (values m f o) }
{}
