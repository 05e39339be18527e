//! The two traits of the outside.

ghost use Rattle.std.specs.Prelude.{◌≡◌, ◌≤◌, ℕ, List, Option, Result, Ok, length, IfOk};
ghost use Rattle.std.specs.Io.KnownBytes.{ReadConsumes, WriteAppends};
ghost use Rattle.io_edges.specs.Faults.{HasCause};

use std::alloc::{AllocError, AllocFailed};

/// A call on the outside failed, and the object's count of faults rose. A read that failed has given nothing, and a
/// sink has taken nothing. A call that didn't fail left the count as it was.
#[derive(Clone, Copy, Debug, PartialEq, Eq)]
pub struct Failed;

/// There was no memory for what the call makes.
#[derive(Clone, Copy, Debug, PartialEq, Eq)]
pub struct NoMemory;

impl From<AllocError> for NoMemory {
    fn from(_error: AllocError) -> NoMemory {
        NoMemory
    }
}

impl<T: Drop> From<AllocFailed<T>> for NoMemory {
    fn from(_error: AllocFailed<T>) -> NoMemory {
        NoMemory
    }
}

/// Bytes that come in, as from standard input.
pub trait Source {
    // the bytes that are left, or None where the source doesn't tell
    ghost left: { Self → Option (List ℕ) };

    // how many calls failed so far, a u64 that stays at its greatest number
    ghost faults: { Self → ℕ };

    /// Reads some bytes into the front of the piece and answers how many: at most the piece's length. 0 bytes into a
    /// piece that isn't empty is the end of the input.
    fn read(&mut self, into: &mut [u8]) -> Result<usize, Failed>
        ensures bound { IfOk result (λ count. count ≤ length into.new) }
        ensures bytes { ReadConsumes (left self.old) (left self.new) result into.new }
        ensures cause { HasCause (faults self.old) (faults self.new) result };
}

/// Bytes that go out, as to standard output.
pub trait Sink {
    // the bytes taken so far, or None where the sink doesn't tell
    ghost taken: { Self → Option (List ℕ) };

    // how many calls failed so far, a u64 that stays at its greatest number
    ghost faults: { Self → ℕ };

    /// Takes a front of the piece and answers how many bytes it took. It takes none only of an empty piece; one that
    /// can take none of another piece counts a fault and fails.
    fn write(&mut self, piece: &[u8]) -> Result<usize, Failed>
        ensures bound { IfOk result (λ count. count ≤ length piece.now) }
        ensures some { result ≡ Ok 0 → length piece.now ≡ 0 }
        ensures bytes { WriteAppends (taken self.old) (taken self.new) result piece.now }
        ensures cause { HasCause (faults self.old) (faults self.new) result };
}
