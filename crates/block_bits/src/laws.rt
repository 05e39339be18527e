//! Laws of the definitions, for the crates above: call the function where you need its clauses.

ghost use Rattle.std.specs.Prelude.{◌≡◌, ℕ, ◌↔◌, Bool, List, length, take, drop, Some, None};
ghost use Rattle.block_bits.specs.Places.{next_place, previous_place, AllFail, IsFirst, IsLast};
ghost use Rattle.block_bits.specs.Words.{words_of};

/// The next place is that of the first element from there on that passes, the previous one that of the last before.
pub fn places_are_nearest<T>()
    ensures next { (test : T → Bool) (from at : ℕ) (xs : List T) → (next_place test from xs ≡ Some at) ↔ IsFirst test from (drop from xs) at }
    ensures no_next { (test : T → Bool) (from : ℕ) (xs : List T) → (next_place test from xs ≡ None) ↔ AllFail test (drop from xs) }
    ensures previous { (test : T → Bool) (below at : ℕ) (xs : List T) → (previous_place test below xs ≡ Some at) ↔ IsLast test 0 (take below xs) at }
    ensures no_previous { (test : T → Bool) (below : ℕ) (xs : List T) → (previous_place test below xs ≡ None) ↔ AllFail test (take below xs) }
{}

/// Two sets of so many documents with the same u64s are one.
pub fn words_are_of_one_set()
    ensures { (flags others : List Bool) → length flags ≡ length others → words_of flags ≡ words_of others → flags ≡ others }
{}
