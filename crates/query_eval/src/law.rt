//! Laws of joins, as the contract of a function that does nothing.

ghost use Rattle.std.specs.Prelude.{◌≡◌, ℕ, List, Option, Some};
ghost use Rattle.join_ordinals.specs.Ordinals.{AreOrdinals, Ordinals};
ghost use Rattle.mapping.specs.Mapping.{Mapping, IsAbove, relation_at};
ghost use Rattle.query_ast.specs.Joined.{is_child_by, is_parent_by};
ghost use Rattle.query_eval.specs.Counted.{IsCount, up_total};
ghost use Rattle.query_eval.specs.Found.{IsSeen};
ghost use Rattle.query_eval.specs.Meeting.{IsLiveRoot, meet};
ghost use Rattle.query_eval.specs.Nested.{below_by};
ghost use Rattle.query_eval.specs.Sides.{key_at};
ghost use Rattle.query_eval.specs.declared.side.Side.TheVariants.{Children, ChildrenOf, Parents};
ghost use Rattle.score_math.specs.Scores.{mode_of};
ghost use Rattle.score_math.specs.declared.score.ScoreMode.{ScoreMode};
ghost use Rattle.segment.specs.Live.{EntryState};
ghost use Rattle.tree_objects.specs.Object.{Object};
ghost use Rattle.tree_objects.specs.Tree.{Tree};

use tree_joins::joins_are_of_trees;

/// Two live trees are joined by a relation exactly where their roots have one key, each on its own side.
pub fn keys_join_trees()
    ensures children { (m : Mapping) (view : List EntryState) (ordinals : Ordinals) (relation parent place root other other_root : ℕ) (tree child : Tree) (one : IsLiveRoot m view place root tree) (two : IsLiveRoot m view other other_root child) → AreOrdinals view ordinals → (relation_at m relation).parent ≡ Some parent
        → is_child_by m relation tree child ≡ meet (key_at m ordinals (Parents parent) one.entry.columns place root) (key_at m ordinals (Children relation) two.entry.columns other other_root) }
    ensures parents { (m : Mapping) (view : List EntryState) (ordinals : Ordinals) (relation place root other other_root : ℕ) (tree parent : Tree) (one : IsLiveRoot m view place root tree) (two : IsLiveRoot m view other other_root parent) → AreOrdinals view ordinals
        → is_parent_by m relation tree parent ≡ meet (key_at m ordinals (ChildrenOf relation) one.entry.columns place root) (key_at m ordinals (Parents relation) two.entry.columns other other_root) }
{}

/// The objects of a scope that have hits inside them are as many as the documents of the scope that the hits lead to.
pub fn ups_are_counted()
    ensures { (m : Mapping) (view : List EntryState) (to from : ℕ) (given : List Tree → Object → Option ℕ) (hits : List (List (Option ℕ))) → IsAbove m to from → IsSeen m view from given hits
        → IsCount m view to (below_by m (mode_of ScoreMode.Max) from given) (up_total to view hits) }
{
    joins_are_of_trees();
}
