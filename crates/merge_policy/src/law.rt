//! Laws of settling, as the contracts of functions that do nothing.
ghost use Rattle.std.specs.Prelude.{◌≡◌, [], ℕ, length, Some};
ghost use Rattle.std.specs.List.{All};
ghost use Rattle.layout.specs.Layout.{Layout, sealed, settled};
ghost use Rattle.layout.specs.Settled.{HasFewSegments};
ghost use Rattle.merge_policy.specs.Policy.{settled_made, settled_runs};
ghost use Rattle.merge_policy.specs.Runs.{IsAmong, counts_of, laid_by};

/// Settling a layout is what the runs say of it that its counts give, whatever its items are.
pub fn layouts_settle_by_runs<A>()
    ensures { (factor : ℕ) (layout : Layout A) → All (IsAmong (length layout.segments)) layout.merges
        → settled (Some factor) layout ≡ laid_by (settled_runs factor (counts_of layout)) (settled_made factor (counts_of layout)) layout }
{}

/// Where a factor is set and no merge is open, sealing leaves few segments, each with a live item and none with more dead items
/// than live.
pub fn settled_layouts_have_few_segments<A>()
    ensures { (factor : ℕ) (layout : Layout A) → layout.factor ≡ Some factor → layout.merges ≡ [] → HasFewSegments factor (sealed layout) }
{}
