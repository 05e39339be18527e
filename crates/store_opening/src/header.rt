//! The beginning of a file, and the slot that counts.

ghost use Rattle.std.specs.Prelude.{◌≡◌, ℕ, List, Some, max, IfOk, OnOk, IfSome, IsErrOf, IsNone};
ghost use Rattle.disk.specs.Stops.{LenOf};
ghost use Rattle.store_text.specs.Header.{generation_in};
ghost use Rattle.store_text.specs.Read.{IsHeader};
ghost use Rattle.commit_images.specs.Commits.{Counts};
ghost use Rattle.store_opening.specs.Looking.{Looked, HasOpenCause};
ghost use Rattle.store_opening.specs.Beginning.{IsBeginning, IsOther, IsShort, AreClosed, open_generation};

use crate::device::read_whole;
use crate::refusal::OpenRefusal;
use disk::Disk;
use store_text::{HEADER_SIZE, Header, Side, Slot, has_magic};

/// What the header of a file says, whose length is known; None where the file is empty. NotAStore: it has bytes, but not the
/// magic. Damaged: it has the magic, and fewer bytes than a header.
pub fn read_header<D: Disk>(disk: &mut D, file_len: u64) -> Result<Option<Header>, OpenRefusal>
    requires { LenOf (D.content disk.old) file_len }
    ensures header { IfOk result (λ found. (file : List ℕ) → D.content disk.old ≡ Some file → IsBeginning file found) }
    ensures not_a_store { IsErrOf result OpenRefusal.NotAStore → (file : List ℕ) → D.content disk.old ≡ Some file → IsOther file }
    ensures damaged { IsErrOf result OpenRefusal.Damaged → (file : List ℕ) → D.content disk.old ≡ Some file → IsShort file }
    ensures memory { IsErrOf result OpenRefusal.NoMemory → ⊥ }
    ensures content { OnOk result (D.content disk.new ≡ D.content disk.old) }
    ensures looked { Looked (D.content disk.old) (D.content disk.new) (D.image disk.old) (D.image disk.new) (D.moment disk.old) (D.moment disk.new) (D.image_since disk.old) (D.image_since disk.new) }
    ensures cause { HasOpenCause (D.faults disk.old) (D.faults disk.new) result }
{
    let mut bytes = [0; 2_048];
    let front = bytes.split_at_mut(file_len.min(HEADER_SIZE) as usize).0;
    if !read_whole(disk, 0, front)? {
        return Err(OpenRefusal::Damaged);
    }
    Ok(header_in(front)?)
}

/// What the first bytes of a file say, all of it or as many as a header has.
fn header_in(bytes: &[u8]) -> Result<Option<Header>, OpenRefusal>
    ensures header { IfOk result (IsBeginning bytes.now) }
    ensures not_a_store { IsErrOf result OpenRefusal.NotAStore → IsOther bytes.now }
    ensures damaged { IsErrOf result OpenRefusal.Damaged → IsShort bytes.now }
    ensures fault { IsErrOf result OpenRefusal.DiskFault → ⊥ }
    ensures memory { IsErrOf result OpenRefusal.NoMemory → ⊥ }
{
    if bytes.is_empty() {
        return Ok(None);
    }
    if !has_magic(bytes) {
        return Err(OpenRefusal::NotAStore);
    }
    match Header::read(bytes) {
        Some(header) => Ok(Some(header)),
        None => Err(OpenRefusal::Damaged),
    }
}

/// The side whose slot counts: of two open ones that of the greater generation, and A where they are equal. None where both gates
/// are closed.
pub fn counting_side(header: &Header) -> Option<Side>
    ensures counts { IfSome result (λ side. (file : List ℕ) → IsHeader header.now file → Counts side (generation_in side file) file) }
    ensures none { IsNone result → (file : List ℕ) → IsHeader header.now file → AreClosed file }
{
    if !header.a.is_open {
        return if header.b.is_open {
            Some(Side::B)
        } else {
            None
        };
    }
    if header.b.is_open && header.a.generation < header.b.generation {
        Some(Side::B)
    } else {
        Some(Side::A)
    }
}

/// The greatest generation in a slot whose gate is open, or 0.
pub fn greatest_generation(header: &Header) -> u64
    ensures { result ≡ max (open_generation header.now.a) (open_generation header.now.b) }
{
    generation_of(header.a).max(generation_of(header.b))
}

fn generation_of(slot: Slot) -> u64
    ensures { result ≡ open_generation slot }
{
    if slot.is_open { slot.generation } else { 0 }
}
