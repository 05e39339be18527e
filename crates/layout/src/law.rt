//! Laws of layouts, as the contracts of functions that do nothing.
ghost use Rattle.std.specs.Prelude.{◌≡◌, ◌∷◌, ◌++◌, [], ℕ, Bool, List, map, filter};
ghost use Rattle.layout.specs.As.{layout_as};
ghost use Rattle.layout.specs.Layout.{Layout, OpenMerge, live_items, remade, sealed, staying, with_change};
ghost use Rattle.layout.specs.Merges.{finished, force_fault, forced, start_fault, summaries_of, with_merge};

/// Merging a range of segments and sealing leave what is live, in its order; a change takes out what goes, and puts what is
/// new last.
pub fn layouts_keep_what_is_live<A>()
    ensures remade { (from count : ℕ) (layout : Layout A) → live_items (remade from count layout) ≡ live_items layout }
    ensures sealed { (layout : Layout A) → live_items (sealed layout) ≡ live_items layout }
    ensures changed { (goes : A → Bool) (new : List A) (layout : Layout A) → live_items (with_change goes new layout) ≡ filter (staying goes) (live_items layout) ++ new }
{}

/// Where each item gives way to what is kept of it, a tree to its block, all that is done to the layout is done alike.
pub fn layouts_are_alike<A, B>()
    ensures remade { (f : A → B) (from count : ℕ) (layout : Layout A) → remade from count (layout_as f layout) ≡ layout_as f (remade from count layout) }
    ensures sealed { (f : A → B) (layout : Layout A) → sealed (layout_as f layout) ≡ layout_as f (sealed layout) }
    ensures changed { (f : A → B) (here : A → Bool) (there : B → Bool) → ((a : A) → there (f a) ≡ here a) → (new : List A) (layout : Layout A)
        → with_change there (map f new) (layout_as f layout) ≡ layout_as f (with_change here new layout) }
    ensures live { (f : A → B) (layout : Layout A) → live_items (layout_as f layout) ≡ map f (live_items layout) }
{}

/// Merges that are asked for are refused, are done and show alike, too.
pub fn merges_are_alike<A, B>()
    ensures start { (f : A → B) (from count : ℕ) (layout : Layout A) → start_fault from count (layout_as f layout) ≡ start_fault from count layout }
    ensures force { (f : A → B) (most : ℕ) (layout : Layout A) → force_fault most (layout_as f layout) ≡ force_fault most layout }
    ensures started { (f : A → B) (from count : ℕ) (layout : Layout A) → with_merge from count (layout_as f layout) ≡ layout_as f (with_merge from count layout) }
    ensures finished { (f : A → B) (merge : OpenMerge) (layout : Layout A) → finished merge (layout_as f layout) ≡ layout_as f (finished merge layout) }
    ensures forced { (f : A → B) (most : ℕ) (layout : Layout A) → forced most (layout_as f layout) ≡ layout_as f (forced most layout) }
    ensures rows { (f : A → B) (objects number : B → ℕ) (layout : Layout A)
        → summaries_of objects number (layout_as f layout) ≡ summaries_of (λ a. objects (f a)) (λ a. number (f a)) layout }
{}

/// Merges that are asked for leave what is live, in its order.
pub fn merges_keep_what_is_live<A>()
    ensures finished { (merge : OpenMerge) (layout : Layout A) → live_items (finished merge layout) ≡ live_items layout }
    ensures forced { (most : ℕ) (layout : Layout A) → live_items (forced most layout) ≡ live_items layout }
{}
