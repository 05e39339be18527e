//! The record of a commit, read from its place in the file.

ghost use Rattle.std.specs.Prelude.{◌≡◌, ℕ, List, Some, IfOk, OnOk, IsErrOf};
ghost use Rattle.disk.specs.Stops.{LenOf};
ghost use Rattle.store_text.specs.Record.{IsRecord};
ghost use Rattle.store_text.specs.declared.record.RecordText.{RecordText};
ghost use Rattle.store_opening.specs.Looking.{Looked, HasOpenCause};
ghost use Rattle.store_opening.specs.Read.{HasRecord};

use crate::device::read_piece;
use crate::refusal::OpenRefusal;
use disk::Disk;
use std::alloc::Global;
use store_text::{RecordText, read_record};

/// The record that stands at a place of the file, whose length is known, with a text of `len` bytes. Damaged exactly where no
/// record has such a text there.
pub fn read_record_at<D: Disk>(
    alloc: Global,
    disk: &mut D,
    file_len: u64,
    at: u64,
    len: u64,
) -> Result<RecordText, OpenRefusal>
    requires { LenOf (D.content disk.old) file_len }
    ensures record { IfOk result (λ it. (file : List ℕ) → D.content disk.old ≡ Some file → HasRecord at len it file) }
    ensures numbers { IfOk result IsRecord }
    ensures damaged { IsErrOf result OpenRefusal.Damaged → (file : List ℕ) (it : RecordText) → D.content disk.old ≡ Some file → HasRecord at len it file → ⊥ }
    ensures not_a_store { IsErrOf result OpenRefusal.NotAStore → ⊥ }
    ensures content { OnOk result (D.content disk.new ≡ D.content disk.old) }
    ensures looked { Looked (D.content disk.old) (D.content disk.new) (D.image disk.old) (D.image disk.new) (D.moment disk.old) (D.moment disk.new) (D.image_since disk.old) (D.image_since disk.new) }
    ensures cause { HasOpenCause (D.faults disk.old) (D.faults disk.new) result }
{
    let Some(bytes) = read_piece(alloc, disk, file_len, at, len)? else {
        return Err(OpenRefusal::Damaged);
    };
    match read_record(alloc, bytes.as_slice())? {
        Some(it) => Ok(it),
        None => Err(OpenRefusal::Damaged),
    }
}
