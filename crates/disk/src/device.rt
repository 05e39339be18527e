//! The trait.

ghost use Rattle.std.specs.Prelude.{◌≡◌, ◌≤◌, ℕ, List, Option, Some, length, IfOk, OnOk, OnErr};
ghost use Rattle.io_edges.specs.Faults.{HasCause};
ghost use Rattle.disk.specs.Stops.{IsTold, GivesLen, GivesBytes, Stays, TakesAll, CutsAll, Torn, Cut, Follows, Allows, Within, Only, Passes, Lasts};

use io_edges::Failed;

/// A device with one file. As far as it tells the file's bytes it also tells which bytes a stop would leave: its images.
/// Between two syncs that succeed each written range and the part past the old end may come to hold any bytes, and all else
/// stays; a range counts as written also where its write failed. Nobody else writes the file. A failed call raised the count
/// of faults, and no other call changed it.
pub trait Disk {
    // what a read gives, or None where the disk doesn't tell; a disk that tells none has no images
    ghost content: { Self → Option (List ℕ) };

    // what a stop now may leave
    ghost image: { Self → List ℕ → Type 0 };

    // the moment, as a number that doesn't fall
    ghost moment: { Self → ℕ };

    // what a stop at some moment from that one on might have left, during a call or between two
    ghost image_since: { Self → ℕ → List ℕ → Type 0 };

    // how many calls failed so far, a u64 that stays at its greatest number
    ghost faults: { Self → ℕ };

    /// The length of the file, in bytes.
    fn len(&mut self) -> Result<u64, Failed>
        ensures len { GivesLen (content self.old) result }
        ensures told { IsTold (content self.new) → IsTold (content self.old) }
        ensures content { Stays (content self.old) (content self.new) result }
        ensures images { Within (image self.new) (image self.old) }
        ensures allowed { IsTold (content self.new) → Within (image self.old) (image self.new) }
        ensures time { Passes (moment self.old) (moment self.new) (image_since self.old) (image_since self.new) (image self.new) }
        ensures lasts { IsTold (content self.new) → Lasts (moment self.old) (image_since self.old) (image_since self.new) }
        ensures cause { HasCause (faults self.old) (faults self.new) result };

    /// Reads bytes from an offset of the file on into the front of the piece, and answers how many: at most the piece's
    /// length. Into a piece that isn't empty it gives at least one byte below the file's length, and 0 bytes from there on.
    fn read(&mut self, at: u64, into: &mut [u8]) -> Result<usize, Failed>
        ensures bound { IfOk result (λ count. count ≤ length into.new) }
        ensures bytes { GivesBytes (content self.old) at result into.new }
        ensures told { IsTold (content self.new) → IsTold (content self.old) }
        ensures content { Stays (content self.old) (content self.new) result }
        ensures images { Within (image self.new) (image self.old) }
        ensures allowed { IsTold (content self.new) → Within (image self.old) (image self.new) }
        ensures time { Passes (moment self.old) (moment self.new) (image_since self.old) (image_since self.new) (image self.new) }
        ensures lasts { IsTold (content self.new) → Lasts (moment self.old) (image_since self.old) (image_since self.new) }
        ensures cause { HasCause (faults self.old) (faults self.new) result };

    /// Writes all of the bytes at an offset of the file. A gap before them is filled with zeros. A write that failed may have
    /// left any bytes in its range.
    fn write_at(&mut self, at: u64, bytes: &[u8]) -> Result<(), Failed>
        ensures content { OnOk result (TakesAll at bytes.now (content self.old) (content self.new)) }
        ensures told { IsTold (content self.new) → IsTold (content self.old) }
        ensures images { Follows (Torn at (length bytes.now)) (image self.old) (image self.new) }
        ensures allowed { IsTold (content self.new) → Allows (Torn at (length bytes.now)) (image self.old) (image self.new) }
        ensures time { Passes (moment self.old) (moment self.new) (image_since self.old) (image_since self.new) (image self.new) }
        ensures lasts { IsTold (content self.new) → Lasts (moment self.old) (image_since self.old) (image_since self.new) }
        ensures cause { HasCause (faults self.old) (faults self.new) result };

    /// Makes what was written stay: a stop from then on leaves what a read gives. One that failed may change what a read gives,
    /// to another of the images.
    fn sync(&mut self) -> Result<(), Failed>
        ensures content { OnOk result (content self.new ≡ content self.old) }
        ensures only { OnOk result (Only (content self.new) (image self.new)) }
        ensures told { IsTold (content self.new) → IsTold (content self.old) }
        ensures images { Within (image self.new) (image self.old) }
        ensures allowed { OnErr result (IsTold (content self.new) → Within (image self.old) (image self.new)) }
        ensures time { Passes (moment self.old) (moment self.new) (image_since self.old) (image_since self.new) (image self.new) }
        ensures lasts { IsTold (content self.new) → Lasts (moment self.old) (image_since self.old) (image_since self.new) }
        ensures cause { HasCause (faults self.old) (faults self.new) result };

    /// Cuts a longer file to this length, in bytes; a file that isn't longer stays as it is. Until a sync that succeeds the file
    /// may have any length from the new to the old one, and any bytes past the new end.
    fn cut(&mut self, len: u64) -> Result<(), Failed>
        ensures content { OnOk result (CutsAll len (content self.old) (content self.new)) }
        ensures told { IsTold (content self.new) → IsTold (content self.old) }
        ensures images { Follows (Cut len) (image self.old) (image self.new) }
        ensures allowed { IsTold (content self.new) → Allows (Cut len) (image self.old) (image self.new) }
        ensures time { Passes (moment self.old) (moment self.new) (image_since self.old) (image_since self.new) (image self.new) }
        ensures lasts { IsTold (content self.new) → Lasts (moment self.old) (image_since self.old) (image_since self.new) }
        ensures cause { HasCause (faults self.old) (faults self.new) result };

    // what a read gives is one of the images
    ghost gives_image: { (disk : Self) (bytes : List ℕ) → content disk ≡ Some bytes → image disk bytes };

    // this moment is one of those since an earlier one
    ghost counts_now: { (disk : Self) (since : ℕ) (bytes : List ℕ) → since ≤ moment disk → image disk bytes → image_since disk since bytes };

    // since this moment there is no other
    ghost only_now: { (disk : Self) (bytes : List ℕ) → image_since disk (moment disk) bytes → image disk bytes };
}
