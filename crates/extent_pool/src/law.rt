//! A law of extents that are taken, as the contract of a function that does nothing.
ghost use Rattle.std.specs.Prelude.{◌≡◌, ℕ, List};
ghost use Rattle.std.specs.List.Sorted.{IsPermutation};
ghost use Rattle.extent_pool.specs.Holes.{holes_of};
ghost use Rattle.extent_pool.specs.Placing.{NamedExtent, fit, placed, room_for, moved};
ghost use Rattle.extent_pool.specs.declared.extent.Extent.{Extent};

/// Which extents are taken decides the holes and what is placed in them, in whatever order they are listed: a pool keeps
/// them in ascending order of place, whoever made it in an order of their own.
pub fn order_makes_no_difference()
    ensures holes { (limit : ℕ) (ones others : List Extent) → IsPermutation ones others → holes_of limit ones ≡ holes_of limit others }
    ensures fit { (limit len : ℕ) (ones others : List Extent) → IsPermutation ones others → fit limit ones len ≡ fit limit others len }
    ensures placed { (limit : ℕ) (lens : List ℕ) (ones others : List Extent) → IsPermutation ones others → placed limit ones lens ≡ placed limit others lens }
    ensures room { (limit size : ℕ) (sizes : List ℕ) (ones others : List Extent) → IsPermutation ones others → room_for limit ones sizes size ≡ room_for limit others sizes size }
    ensures moved { (limit : ℕ) (named : List NamedExtent) (ones others : List Extent) → IsPermutation ones others → moved limit ones named ≡ moved limit others named }
{}
