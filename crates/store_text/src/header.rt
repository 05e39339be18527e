//! The header.

ghost use Rattle.std.specs.Prelude.{◌≡◌, ◌≤◌, ◌+◌, ◌<◌, ◌↔◌, ℕ, List, false, length, slice_index_or, IfSome, IsNone, IsTrue};
ghost use Rattle.store_text.specs.Pieces.{Stands};
ghost use Rattle.store_text.specs.Header.{header_size, magic, other, gate_at, slot_at, slot, is_open};
ghost use Rattle.store_text.specs.Read.{IsHeader, IsSlot};

use part_text::first_u64;

/// How many bytes the header has.
pub const HEADER_SIZE: u64 = 2_048;

/// The byte of an open gate. Any other byte is a closed one's.
pub const OPEN_BYTE: u8 = 0xA5;

/// One of the two slots of a store's header, of which a commit writes the one that isn't that of the last commit.
#[derive(Clone, Copy, Debug, PartialEq, Eq)]
pub enum Side {
    A,
    B,
}

impl Side {
    /// The other slot.
    pub fn other(self) -> Side
        ensures { result ≡ other self }
    {
        match self {
            Side::A => Side::B,
            Side::B => Side::A,
        }
    }

    /// The place of the slot's gate in the file.
    pub fn gate_at(self) -> u64
        ensures place { result ≡ gate_at self }
        ensures inside { result < header_size }
    {
        match self {
            Side::A => 512,
            Side::B => 1_024,
        }
    }

    /// The place of the slot's first byte in the file.
    pub fn slot_at(self) -> u64
        ensures place { result ≡ slot_at self }
        ensures inside { result + 24 ≤ header_size }
    {
        match self {
            Side::A => 520,
            Side::B => 1_032,
        }
    }
}

/// What the header says of one side.
#[derive(Clone, Copy, Debug, PartialEq, Eq)]
pub struct Slot {
    /// Whether its gate is open.
    pub is_open: bool,
    /// The generation of a commit.
    pub generation: u64,
    /// The place of that commit's record in the file.
    pub at: u64,
    /// How many bytes the record has.
    pub len: u64,
}

/// What the header says of both sides.
#[derive(Clone, Copy, Debug, PartialEq, Eq)]
pub struct Header {
    pub a: Slot,
    pub b: Slot,
}

impl Header {
    /// What gates and slots say; None exactly where the magic doesn't stand, or the bytes are fewer than a header has. No other
    /// byte is looked at, nor any behind the header.
    pub fn read(bytes: &[u8]) -> Option<Header>
        ensures read { IfSome result (λ header. IsHeader header bytes.now) }
        ensures magic { IfSome result (λ header. Stands bytes.now magic × (header_size ≤ length bytes.now)) }
        ensures none { IsNone result → Stands bytes.now magic → header_size ≤ length bytes.now → ⊥ }
    {
        if !has_magic(bytes) || bytes.len() < HEADER_SIZE as usize {
            return None;
        }
        let a = read_slot(bytes, Side::A);
        let b = read_slot(bytes, Side::B);
        Some(Header { a, b })
    }

    /// What it says of a side.
    pub fn slot(&self, side: Side) -> Slot
        ensures { (file : List ℕ) → IsHeader self.now file → IsSlot side result file }
    {
        match side {
            Side::A => self.a,
            Side::B => self.b,
        }
    }
}

/// Whether a file begins with the magic.
pub fn has_magic(bytes: &[u8]) -> bool
    ensures { IsTrue result ↔ Stands bytes.now magic }
{
    bytes.starts_with(b"NESTSEG1")
}

/// What the header says of a side.
fn read_slot(bytes: &[u8], side: Side) -> Slot
    requires { header_size ≤ length bytes.now }
    ensures { IsSlot side result bytes.now }
{
    let own = bytes.split_at(side.slot_at() as usize).1;
    Slot {
        is_open: bytes[side.gate_at() as usize] == OPEN_BYTE,
        generation: first_u64(own),
        at: first_u64(own.split_at(8).1),
        len: first_u64(own.split_at(16).1),
    }
}

/// The header of a new store: the magic, and behind it zeros alone, so that both gates are closed.
pub fn header_bytes() -> [u8; 2_048]
    ensures size { length result ≡ header_size }
    ensures magic { Stands result magic }
    ensures zeros { (place : ℕ) → length magic.bytes ≤ place → slice_index_or result place 0 ≡ 0 }
    ensures closed { (side : Side) → is_open side result ≡ false }
{
    let mut bytes = [0; 2_048];
    bytes[..8].copy_from_slice(b"NESTSEG1");
    bytes
}

/// The 24 bytes of a slot of either side, which stand at the place `Side::slot_at` gives.
pub fn slot_bytes(generation: u64, at: u64, len: u64) -> [u8; 24]
    ensures { (side : Side) → result ≡ (slot side generation at len).bytes }
{
    let mut bytes = [0; 24];
    bytes[..8].copy_from_slice(&generation.to_le_bytes());
    bytes[8..16].copy_from_slice(&at.to_le_bytes());
    bytes[16..].copy_from_slice(&len.to_le_bytes());
    bytes
}
