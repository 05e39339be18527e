//! A file holds one commit at most, so that what opening finds is what was committed, whichever way it looks.
//!
//! It stands on `commit_store`, whose specifications say when a commit is good and what a file holds, and on `commit_images`, which
//! has the same law of what a slot leads to. The contract that others use is that of `a_file_holds_one_commit`. Begin reading
//! there.
#![tactic(auto)]

ghost use Rattle.std.specs.Prelude.{◌≡◌, ◌≤◌, ℕ, List, Option};
ghost use Rattle.commit_store.specs.Known.{greatest_limit};
ghost use Rattle.commit_store.specs.Saying.{StoreCommit, Found};

use block_bits::words_are_of_one_set;
use commit_images::a_file_shows_one_commit;
use commit_store::StoreSaying;
use store_text::record_has_one_text;
use stored_sources::old_roots_have_one_text;

/// A file holds one commit at most, and that whole: its slot, its record and all that this says, and its segments. Does nothing.
pub fn a_file_holds_one_commit()
    ensures { (limit : ℕ) (file : List ℕ) (one other : Option StoreCommit) → limit ≤ greatest_limit → Found limit file one → Found limit file other → one ≡ other }
{
    words_are_of_one_set();
    old_roots_have_one_text();
    record_has_one_text();
    a_file_shows_one_commit::<StoreSaying>();
}
