//! Laws of joins on trees, as the contract of a function that does nothing.
ghost use Rattle.std.specs.Prelude.{◌≡◌, ◌<◌, ℕ, List, [], filter, length, map, zip, Option, None};
ghost use Rattle.std.specs.List.{AllByRecursion, flat_map};
ghost use Rattle.std.specs.Option.{option_to_list};
ghost use Rattle.block_join.specs.Joins.{joined, spread};
ghost use Rattle.flattener.specs.StandsFor.{Marked};
ghost use Rattle.mapping.specs.IsMapping.{IsMapping};
ghost use Rattle.mapping.specs.Mapping.{Mapping, IsAbove};
ghost use Rattle.tree_joins.specs.Seen.{scopes_of, seen, at_scope, gathered, handed, scored, some_of};
ghost use Rattle.tree_objects.specs.Enclosing.{stands_at};
ghost use Rattle.tree_objects.specs.Object.{Object, around, below, block_objects, scope, tree_of};
ghost use Rattle.tree_objects.specs.Tree.{Tree};

use mapping::scopes_form_chains;
use tree_objects::objects_nest;

/// Scores that go up in blocks, from a scope to one above it, are at each object those of the objects below it, put together
/// by the mode; a dead block has none. Scores that go down are at each object that of the object around it. So it is of lists
/// of objects with their scores that go up.
pub fn joins_are_of_trees()
    ensures up { (m : Mapping) (to from : ℕ) (score : Object → Option ℕ) (mode : List ℕ → Option ℕ) (trees : List (Marked Tree)) → IsMapping m → IsAbove m to from → mode [] ≡ None → joined mode None to [] (zip (scopes_of m trees) (map option_to_list (seen m (at_scope from score) trees))) ≡ seen m (at_scope to (gathered m mode from score)) trees }
    ensures inside { (m : Mapping) (to from : ℕ) (given : Object → Option ℕ) (trees : List (Marked Tree)) → IsMapping m → IsAbove m to from → joined some_of None to [] (zip (scopes_of m trees) (map option_to_list (seen m (at_scope from (scored given)) trees))) ≡ seen m (at_scope to (gathered m some_of from (scored given))) trees }
    ensures down { (m : Mapping) (from to : ℕ) (score : Object → Option ℕ) (trees : List (Marked Tree)) → IsMapping m → IsAbove m from to → spread from to (zip (scopes_of m trees) (seen m (at_scope from score) trees)) ≡ seen m (at_scope to (handed from score)) trees }
{
    scopes_form_chains();
    objects_nest();
}

/// The objects of a block at a scope are, in the order of their documents, those below the objects at any scope above it, one
/// after the other. Around each of those below an object is that object, and each object of a block is of its tree.
pub fn objects_are_parted()
    ensures parted { (m : Mapping) (n p : ℕ) (tree : Tree) → IsMapping m → IsAbove m n p → filter (stands_at p) (block_objects m tree) ≡ flat_map (λ o. below m o p) (filter (stands_at n) (block_objects m tree)) }
    ensures around { (m : Mapping) (o : Object) (p : ℕ) → IsMapping m → IsAbove m (scope o) p → AllByRecursion (λ inside. around inside (scope o) ≡ o) (below m o p) }
    ensures tree { (m : Mapping) (tree : Tree) → IsMapping m → AllByRecursion (λ o. tree_of o ≡ tree) (block_objects m tree) }
{
    scopes_form_chains();
    objects_nest();
}
