//! Numbers of things as they are written, in four bytes. No segment has more of any than fit there: that is tested here and
//! not proved, so that more would be told as want of memory.

ghost use Rattle.std.specs.Prelude.{◌≡◌, ◌+◌, IfOk};

use crate::NoMemory;

/// A number of things, in four bytes.
pub(crate) fn count_of(count: usize) -> Result<u32, NoMemory>
    ensures { IfOk result (λ same. same ≡ count) }
{
    match u32::try_from(count) {
        Ok(same) => Ok(same),
        Err(_) => Err(NoMemory),
    }
}

/// Two numbers of things together, in four bytes.
pub(crate) fn sum_of(one: u32, other: u32) -> Result<u32, NoMemory>
    ensures { IfOk result (λ sum. sum ≡ one + other) }
{
    match one.checked_add(other) {
        Some(sum) => Ok(sum),
        None => Err(NoMemory),
    }
}
