//! The laws, as the contracts of functions that do nothing.
ghost use Rattle.std.specs.Prelude.{◌≡◌, ℕ, Bool, List, ◌++◌, Contains};
ghost use Rattle.layout.specs.Layout.{Layout, OpenMerge, sealed, with_change};
ghost use Rattle.layout.specs.Merges.{finished, forced, with_merge};
ghost use Rattle.layout_ids.specs.Ids.{KeepsItems};
ghost use Rattle.layout_ids.specs.Items.{items_of};

/// Sealing, a change and merges give a segment whose items are others an id that no segment had before: a segment with an id
/// that was given already has the items that the segment with this id had, dead ones included; and where segments had ids that
/// were given, they have such ids still.
pub fn segments_keep_their_items<A>()
    ensures sealed { (layout : Layout A) → KeepsItems layout (sealed layout) }
    ensures changed { (goes : A → Bool) (new : List A) (layout : Layout A) → KeepsItems layout (with_change goes new layout) }
    ensures started { (from count : ℕ) (layout : Layout A) → KeepsItems layout (with_merge from count layout) }
    ensures finished { (merge : OpenMerge) (layout : Layout A) → KeepsItems layout (finished merge layout) }
    ensures forced { (most : ℕ) (layout : Layout A) → KeepsItems layout (forced most layout) }
    ensures left { (before after : Layout A) → after.segments ≡ before.segments → after.made ≡ before.made → KeepsItems before after }
    ensures both { (before between after : Layout A) → KeepsItems before between → KeepsItems between after → KeepsItems before after }
{}

/// Each item of a layout, dead or live, stood in the layout before, or is one that the change put in.
pub fn layouts_have_no_item_of_their_own<A>()
    ensures sealed { (layout : Layout A) (item : A) → Contains (items_of (sealed layout)) item → Contains (items_of layout) item }
    ensures changed { (goes : A → Bool) (new : List A) (layout : Layout A) (item : A)
        → Contains (items_of (with_change goes new layout)) item → Contains (items_of layout ++ new) item }
    ensures started { (from count : ℕ) (layout : Layout A) → items_of (with_merge from count layout) ≡ items_of layout }
    ensures finished { (merge : OpenMerge) (layout : Layout A) (item : A) → Contains (items_of (finished merge layout)) item → Contains (items_of layout) item }
    ensures forced { (most : ℕ) (layout : Layout A) (item : A) → Contains (items_of (forced most layout)) item → Contains (items_of layout) item }
{}
