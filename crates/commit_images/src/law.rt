//! Laws of commits, as the contracts of functions that do nothing.

ghost use Rattle.std.specs.Prelude.{◌≡◌, ◌≤◌, ◌⊎◌, ◌∷◌, [], ℕ, List, Option, Some, true, false, not, length};
ghost use Rattle.disk.specs.Memory.{written};
ghost use Rattle.disk.specs.Stops.{Only, Torn};
ghost use Rattle.store_text.specs.Pieces.{AllStand};
ghost use Rattle.store_text.specs.Header.{header_size, gate_at, is_open, open_byte};
ghost use Rattle.commit_images.specs.Commits.{Commit, Finds, Found};
ghost use Rattle.commit_images.specs.Keeping.{ArePlaced, AreToldByRecords, IsKnown, IsNext, IsPlaced, KeepsCommit, SameBody, but_gate, idle};

use crate::saying::Saying;
use disk::Disk;

/// Two commits that one file shows have the same slot, generation and record; and where those, with what stands in the file where
/// its segments are, determine a good commit, the file shows at most one, or none.
pub fn a_file_shows_one_commit<S: Saying>()
    ensures body { (limit : ℕ) (file : List ℕ) (c d : Commit S.Said) → IsPlaced c → IsPlaced d → Finds (S.IsGood limit) file c → Finds (S.IsGood limit) file d
        → SameBody c d }
    ensures once { (limit : ℕ) (file : List ℕ) (one other : Option (Commit S.Said)) → AreToldByRecords (S.IsGood limit) → Found (S.IsGood limit) file one
        → Found (S.IsGood limit) file other → one ≡ other }
{}

/// A gate that is torn while it is closed leaves a file that shows the last commit, or the one from before with that gate open;
/// torn while it is opened, one that shows the last commit, or the next one.
pub fn a_torn_gate_leaves_one_of_two_files<S: Saying>()
    ensures closing { (limit : ℕ) (active : Option (Commit S.Said)) (before image : List ℕ) → ArePlaced active → IsKnown active false before
        → Found (S.IsGood limit) before active → Torn (gate_at (idle active)) 1 before image
        → Found (S.IsGood limit) image active ⊎ (image ≡ written (gate_at (idle active)) (open_byte ∷ []) before) }
    ensures opening { (limit : ℕ) (active : Option (Commit S.Said)) (new : Commit S.Said) (before image : List ℕ) → ArePlaced active → IsKnown active true before
        → Found (S.IsGood limit) before active → IsNext active new → S.IsGood limit new → AllStand (but_gate new) before
        → Torn (gate_at (idle active)) 1 before image → Found (S.IsGood limit) image active ⊎ Finds (S.IsGood limit) image new }
{}

/// A disk with one image, a file of a header or more that shows a commit or none, keeps what it shows; the idle gate is known to
/// be closed where that file has it closed.
pub fn an_opened_store_keeps_its_commit<S: Saying, D: Disk>(disk: &D)
    ensures { (limit : ℕ) (found : Option (Commit S.Said)) (file : List ℕ) → D.content disk.now ≡ Some file → Only (D.content disk.now) (D.image disk.now)
        → ArePlaced found → header_size ≤ length file → Found (S.IsGood limit) file found
        → KeepsCommit (S.IsGood limit) found (not (is_open (idle found) file)) (D.image disk.now) }
{}
