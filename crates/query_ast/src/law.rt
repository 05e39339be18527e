//! Laws: what holds of every search, as the contracts of functions that do nothing.
ghost use Rattle.std.specs.Prelude.{◌≡◌, ◌≢◌, ℕ, ◌+◌, ℤ, Bool, false, List, [], ◌∷◌, ◌++◌, take, drop, fold, sum, map, length, AllPairs, Contains, Option, Some, IsSome, IsPermutation};
ghost use Rattle.std.specs.Cmp.{IsStrictWeakOrder};
ghost use Rattle.std.specs.List.Sorted.{IsSortedBy, IsStableBy};
ghost use Rattle.score_math.specs.Scores.{capped};
ghost use Rattle.score_math.specs.declared.score.ScoreMode.{ScoreMode};
ghost use Rattle.mapping.specs.Mapping.{Mapping};
ghost use Rattle.tree_objects.specs.Object.{Object, below};
ghost use Rattle.tree_objects.specs.Tree.{Tree, IsLiveList};
ghost use Rattle.query_ast.specs.Clause.{Clause, nested};
ghost use Rattle.query_ast.specs.Compare.{in_order};
ghost use Rattle.query_ast.specs.Hit.{hit};
ghost use Rattle.query_ast.specs.Joins.{joins};
ghost use Rattle.query_ast.specs.Page.{after_row, comes_before, page_of};
ghost use Rattle.query_ast.specs.Search.{everything, hit_page, whole_hit};
ghost use Rattle.query_ast.specs.declared.sort.Direction.{Direction};
ghost use Rattle.query_ast.specs.declared.sort.Key.{Key};
ghost use Rattle.query_ast.specs.declared.sort.KeyRow.{KeyRow};

/// Rows of any type stand in one order: any two compare, and it goes on from row to row. A list in order has the same
/// rows, each behind those that come before it, and equal ones as they came; and it is the only such list. A page is a
/// part of it.
pub fn rows_stand_in_order<T>()
    ensures order { (keys : T → List Key) (number : T → ℤ) (directions : List Direction) → IsStrictWeakOrder (comes_before keys number directions) }
    ensures rows { (keys : T → List Key) (number : T → ℤ) (directions : List Direction) (rows : List T) → IsPermutation rows (in_order (comes_before keys number directions) rows) }
    ensures sorted { (keys : T → List Key) (number : T → ℤ) (directions : List Direction) (rows : List T) → IsSortedBy (comes_before keys number directions) (in_order (comes_before keys number directions) rows) }
    ensures stable { (keys : T → List Key) (number : T → ℤ) (directions : List Direction) (rows : List T) → IsStableBy (comes_before keys number directions) rows (in_order (comes_before keys number directions) rows) }
    ensures only { (keys : T → List Key) (number : T → ℤ) (directions : List Direction) (rows sorted : List T) → IsSortedBy (comes_before keys number directions) sorted → IsStableBy (comes_before keys number directions) rows sorted → sorted ≡ in_order (comes_before keys number directions) rows }
    ensures part { (keys : T → List Key) (number : T → ℤ) (directions : List Direction) (after : Option KeyRow) (from size : ℕ) (rows : List T) → (skipped : ℕ) × (page_of keys number directions after from size rows ≡ take size (drop (skipped + from) (in_order (comes_before keys number directions) rows))) }
{}

/// Rows with different sequence numbers: the page that begins behind the last row of a page goes on where that one ends,
/// so that pages by `search_after` have neither a gap nor a row twice.
pub fn pages_meet<T>()
    ensures { (keys : T → List Key) (number : T → ℤ) (directions : List Direction) (after : Option KeyRow) (from size more : ℕ) (rows front : List T) (last : T)
        → AllPairs (λ a b. number a ≢ number b) rows
        → page_of keys number directions after from size rows ≡ front ++ last ∷ []
        → page_of keys number directions after from size rows ++ page_of keys number directions (Some (after_row keys number last)) 0 more rows ≡ page_of keys number directions after from (size + more) rows }
{}

/// A sum of scores doesn't depend on their order, nor on whether it is capped at each step or at the end.
pub fn sums_have_no_order()
    ensures order { (scores others : List ℕ) → IsPermutation scores others → capped (sum scores) ≡ capped (sum others) }
    ensures steps { (scores : List ℕ) → fold (λ total score. capped (total + score)) 0 scores ≡ capped (sum scores) }
{}

/// A clause that is put inside `nested` hits some object of the path below each object that `nested` hits, and `nested`
/// hits each object with such an object inside it.
pub fn nested_hits_have_witnesses()
    ensures witness { (m : Mapping) (live : List Tree) (scope : ℕ) (clause : Clause) (mode : ScoreMode) (o : Object) → IsSome (hit m live (nested (Some scope) clause mode) o) → (inside : Object) × Contains (below m o scope) inside × IsSome (hit m live clause inside) }
    ensures hit { (m : Mapping) (live : List Tree) (scope : ℕ) (clause : Clause) (mode : ScoreMode) (o inside : Object) → Contains (below m o scope) inside → IsSome (hit m live clause inside) → IsSome (hit m live (nested (Some scope) clause mode) o) }
{}

/// What a clause that joins nothing hits doesn't depend on the other live trees.
pub fn joins_alone_look_at_other_trees()
    ensures { (m : Mapping) (live others : List Tree) (clause : Clause) (o : Object) → joins clause ≡ false → hit m live clause o ≡ hit m others clause o }
{}

/// The search for everything finds the live trees by sequence number: its page is the first of them, and its total their
/// number. Nothing has to be sorted for it, and the mapping doesn't matter.
pub fn everything_is_found_in_order()
    ensures { (m : Mapping) (live : List Tree) (boost size : ℕ) (source : Bool) → IsLiveList live
        → hit_page m live (everything boost size source) ≡ record { hits = map (whole_hit boost source) (take size live); total = length live } }
{}
