//! The buffer that replies are written into.
ghost use Rattle.std.specs.Prelude.{◌≡◌, ◌+◌, ◌<◌, ◌≤◌, ◌^◌, ◌++◌, [], ◌∷◌, length, OnOk, OnErr, IsOk};
ghost use Rattle.tree_json.specs.Output.{room_of};

use std::alloc::{AllocError, AllocFailed, Global};
use std::marker::Model;

/// An allocation failed.
#[derive(Clone, Copy, Debug, PartialEq, Eq)]
pub struct NoMemory;

impl From<AllocError> for NoMemory {
    fn from(_error: AllocError) -> NoMemory {
        NoMemory
    }
}

impl<T: Drop> From<AllocFailed<T>> for NoMemory {
    fn from(_error: AllocFailed<T>) -> NoMemory {
        NoMemory
    }
}

/// Bytes that grow at their end, with the number of bytes (`spare`) that can still be written without memory.
#[derive(Drop)]
pub struct OutText {
    bytes: Vec<u8>,
}

impl Model for OutText {
    ghost use Rattle.std.specs.Prelude.{◌-◌};
    ghost use Rattle.std.specs.Vec.{vec_len, vec_capacity};
    ghost use Rattle.tree_json.specs.Output.{OutState};

    ghost Value = { OutState };

    ghost view = { λ o. record {
      bytes = o.bytes.items;
      spare = vec_capacity o.bytes - vec_len o.bytes;
    } };
}

impl OutText {
    /// A text with no bytes and no room, which takes no memory.
    pub fn empty(alloc: Global) -> OutText
        ensures bytes { result.bytes ≡ [] }
        ensures spare { result.spare ≡ 0 }
    {
        OutText {
            bytes: Vec::new(alloc),
        }
    }

    /// Makes room for this many more bytes. After NoMemory nothing has changed.
    pub fn reserve(&mut self, bytes: u64) -> Result<(), NoMemory>
        ensures same { self.new.bytes ≡ self.old.bytes }
        ensures spare { OnOk result (bytes ≤ self.new.spare) }
        ensures small { self.new.spare < 2 ^ 63 }
        ensures succeeds { bytes ≤ self.old.spare → IsOk result }
        ensures unchanged { OnErr result (self.new ≡ self.old) }
        ensures room { room_of self.old ≤ room_of self.new }
    {
        self.bytes.reserve(bytes as usize)?;
        Ok(())
    }

    /// Appends a piece for which there is room.
    pub fn push_spare(&mut self, piece: &[u8])
        requires { length piece.now ≤ self.old.spare }
        ensures bytes { self.new.bytes ≡ self.old.bytes ++ piece.now }
        ensures spare { self.old.spare ≤ self.new.spare + length piece.now }
        ensures room { room_of self.old ≤ room_of self.new }
    {
        self.bytes.extend_from_slice(piece).unwrap();
    }

    /// Appends a byte for which there is room.
    pub fn push_byte(&mut self, byte: u8)
        requires { 1 ≤ self.old.spare }
        ensures bytes { self.new.bytes ≡ self.old.bytes ++ byte ∷ [] }
        ensures spare { self.old.spare ≤ self.new.spare + 1 }
        ensures room { room_of self.old ≤ room_of self.new }
    {
        self.bytes.push_reserved(byte);
    }

    /// Appends a piece, and makes room for it where there is none.
    pub fn push(&mut self, piece: &[u8]) -> Result<(), NoMemory>
        ensures bytes { OnOk result (self.new.bytes ≡ self.old.bytes ++ piece.now) }
        ensures succeeds { length piece.now ≤ self.old.spare → IsOk result }
        ensures unchanged { OnErr result (self.new ≡ self.old) }
        ensures room { room_of self.old ≤ room_of self.new }
    {
        self.reserve(piece.len() as u64)?;
        self.push_spare(piece);
        Ok(())
    }

    /// Empties the text, and keeps its room.
    pub fn clear(&mut self)
        ensures bytes { self.new.bytes ≡ [] }
        ensures room { room_of self.old ≤ self.new.spare }
    {
        self.bytes.clear();
    }

    /// The bytes that were written.
    pub fn as_slice(&self) -> &[u8]
        ensures { result.now ≡ self.now.bytes }
    {
        self.bytes.as_slice()
    }

    /// How many bytes can be written without memory.
    pub fn spare(&self) -> u64
        ensures { result ≡ self.now.spare }
    {
        (self.bytes.capacity() - self.bytes.len()) as u64
    }

    /// The bytes, with no copy.
    pub fn into_vec(self) -> Vec<u8>
        ensures { result.items ≡ self.bytes }
    {
        self.bytes
    }
}
