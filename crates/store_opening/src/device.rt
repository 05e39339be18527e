//! Pieces of a file, read whole.

ghost use Rattle.std.specs.Prelude.{◌≡◌, ◌+◌, ◌≤◌, ◌<◌, ◌^◌, ℕ, List, Some, length, IfOk, OnOk, IfSome, IsNone};
ghost use Rattle.io_edges.specs.Faults.{HasCause};
ghost use Rattle.disk.specs.Stops.{LenOf};
ghost use Rattle.store_opening.specs.Looking.{Looked, ReadsOn, IsRead, IsFound, HasOpenCause, OnlyFaultOrMemory};

use crate::refusal::OpenRefusal;
use disk::Disk;
use io_edges::Failed;
use std::alloc::Global;

/// Reads the bytes of the file from an offset on into all of the piece, by as many calls as that takes; false where the file ends
/// before, and the piece then holds any bytes.
pub fn read_whole<D: Disk>(disk: &mut D, at: u64, into: &mut [u8]) -> Result<bool, Failed>
    requires { at + length into.old < 2 ^ 64 }
    ensures bytes { IfOk result (λ whole. (file : List ℕ) → D.content disk.old ≡ Some file → IsRead file at into.new whole) }
    ensures long { length into.new ≡ length into.old }
    ensures content { OnOk result (D.content disk.new ≡ D.content disk.old) }
    ensures looked { Looked (D.content disk.old) (D.content disk.new) (D.image disk.old) (D.image disk.new) (D.moment disk.old) (D.moment disk.new) (D.image_since disk.old) (D.image_since disk.new) }
    ensures cause { HasCause (D.faults disk.old) (D.faults disk.new) result }
{
    let mut done = 0;
    'bytes: while done < into.len() {
        let count = read_behind(disk, at, into, done)?;
        if count == 0 {
            return Ok(false);
        }
        done += count;
    }
    Ok(true)
}

/// Reads into the piece behind what is done of it, and answers how many bytes.
fn read_behind<D: Disk>(
    disk: &mut D,
    at: u64,
    into: &mut [u8],
    done: usize,
) -> Result<usize, Failed>
    requires inside { done ≤ length into.old }
    requires below { at + length into.old < 2 ^ 64 }
    ensures bytes { IfOk result (λ count. (file : List ℕ) → D.content disk.old ≡ Some file → ReadsOn file at done count into.old into.new) }
    ensures long { length into.new ≡ length into.old }
    ensures bound { IfOk result (λ count. done + count ≤ length into.new) }
    ensures content { OnOk result (D.content disk.new ≡ D.content disk.old) }
    ensures looked { Looked (D.content disk.old) (D.content disk.new) (D.image disk.old) (D.image disk.new) (D.moment disk.old) (D.moment disk.new) (D.image_since disk.old) (D.image_since disk.new) }
    ensures cause { HasCause (D.faults disk.old) (D.faults disk.new) result }
{
    let count = disk.read(at + done as u64, into.split_at_mut(done).1)?;
    Ok(count)
}

/// The `len` bytes of the file from an offset on, in a vector of their own; None where the file, whose length is known, ends
/// before. Room for them is taken only behind that test.
pub fn read_piece<D: Disk>(
    alloc: Global,
    disk: &mut D,
    file_len: u64,
    at: u64,
    len: u64,
) -> Result<Option<Vec<u8>>, OpenRefusal>
    requires { LenOf (D.content disk.old) file_len }
    ensures piece { IfOk result (λ found. IfSome found (λ bytes. (file : List ℕ) → D.content disk.old ≡ Some file → IsFound file at len bytes.items)) }
    ensures long { IfOk result (λ found. IfSome found (λ bytes. length bytes.items ≡ len)) }
    ensures none { IfOk result (λ found. IsNone found → (file bytes : List ℕ) → D.content disk.old ≡ Some file → IsFound file at len bytes → ⊥) }
    ensures content { OnOk result (D.content disk.new ≡ D.content disk.old) }
    ensures looked { Looked (D.content disk.old) (D.content disk.new) (D.image disk.old) (D.image disk.new) (D.moment disk.old) (D.moment disk.new) (D.image_since disk.old) (D.image_since disk.new) }
    ensures cause { HasOpenCause (D.faults disk.old) (D.faults disk.new) result }
    ensures reason { OnlyFaultOrMemory result }
{
    if len > 0 && (len > file_len || at > file_len - len) {
        return Ok(None);
    }
    let mut bytes = Vec::new(alloc);
    bytes.resize(len as usize, 0)?;
    if read_whole(disk, at, bytes.as_mut_slice())? {
        Ok(Some(bytes))
    } else {
        Ok(None)
    }
}
