//! The bytes of a file in memory, changed in place.

ghost use Rattle.std.specs.Prelude.{◌≡◌, ◌≤◌, ◌+◌, ◌-◌, ◌++◌, length, take, drop, replicate, OnOk, OnErr};
ghost use Rattle.disk.specs.Memory.{written};

use io_edges::NoMemory;

// Puts the bytes at an offset of the file, in place.
#[tactic(auto, using(crate::proofs::Written::written_in_place))]
pub(crate) fn put(file: &mut Vec<u8>, at: usize, bytes: &[u8]) -> Result<(), NoMemory>
    ensures ok { OnOk result (file.new.items ≡ written at bytes.now file.old.items) }
    ensures err { OnErr result (file.new.items ≡ file.old.items) }
{
    if bytes.is_empty() {
        return Ok(());
    }
    let Some(end) = at.checked_add(bytes.len()) else {
        return Err(NoMemory);
    };
    lengthen(file, end)?;
    overwrite(file, at, bytes);
    Ok(())
}

// Appends zeros to a file that is shorter than this.
fn lengthen(file: &mut Vec<u8>, len: usize) -> Result<(), NoMemory>
    ensures ok { OnOk result (file.new.items ≡ file.old.items ++ replicate (len - length file.old.items) 0) }
    ensures err { OnErr result (file.new.items ≡ file.old.items) }
{
    let longer = file.len().max(len);
    file.resize(longer, 0)?;
    Ok(())
}

// Writes the bytes over those that stand at an offset.
fn overwrite(file: &mut Vec<u8>, at: usize, bytes: &[u8])
    requires { at + length bytes.now ≤ length file.old.items }
    ensures { file.new.items ≡ take at file.old.items ++ (bytes.now ++ drop (at + length bytes.now) file.old.items) }
{
    overwrite_front(file.as_mut_slice().split_at_mut(at).1, bytes);
}

fn overwrite_front(file: &mut [u8], bytes: &[u8])
    requires { length bytes.now ≤ length file.old }
    ensures { file.new ≡ bytes.now ++ drop (length bytes.now) file.old }
{
    file.split_at_mut(bytes.len()).0.copy_from_slice(bytes);
}
