//! Putting fields: each is appended whole, or nothing is.
ghost use Rattle.std.specs.Prelude.{◌≡◌, ◌+◌, ◌<◌, ◌≤◌, ◌^◌, ◌++◌, length, OnOk, OnErr, vec_len, vec_capacity};
ghost use Rattle.byte_fields.specs.Fields.{spelled_u8, spelled_u32, spelled_u64, spelled_bytes};

use std::alloc::{AllocError, AllocFailed};

/// There was no memory for the bytes that a call would have written.
#[derive(Clone, Copy, Debug, PartialEq, Eq)]
pub struct NoMemory;

impl From<AllocError> for NoMemory {
    fn from(_: AllocError) -> Self {
        NoMemory
    }
}

/// Appends one byte. After NoMemory nothing has been written.
pub fn put_u8(into: &mut Vec<u8>, value: u8) -> Result<(), NoMemory>
    ensures ok { OnOk result (into.new.items ≡ into.old.items ++ spelled_u8 value) }
    ensures unchanged { OnErr result (into.new.items ≡ into.old.items) }
    ensures room_stays { vec_capacity into.old ≤ vec_capacity into.new }
    ensures only_without_room { OnErr result (vec_capacity into.old < vec_len into.old + 1) }
{
    Ok(into.extend_from_slice(&[value])?)
}

/// Appends four bytes, the lowest first. After NoMemory nothing has been written.
pub fn put_u32(into: &mut Vec<u8>, value: u32) -> Result<(), NoMemory>
    ensures ok { OnOk result (into.new.items ≡ into.old.items ++ spelled_u32 value) }
    ensures unchanged { OnErr result (into.new.items ≡ into.old.items) }
    ensures room_stays { vec_capacity into.old ≤ vec_capacity into.new }
    ensures only_without_room { OnErr result (vec_capacity into.old < vec_len into.old + 4) }
{
    Ok(into.extend_from_slice(&u32::to_le_bytes(value))?)
}

/// Appends eight bytes, the lowest first. After NoMemory nothing has been written.
pub fn put_u64(into: &mut Vec<u8>, value: u64) -> Result<(), NoMemory>
    ensures ok { OnOk result (into.new.items ≡ into.old.items ++ spelled_u64 value) }
    ensures unchanged { OnErr result (into.new.items ≡ into.old.items) }
    ensures room_stays { vec_capacity into.old ≤ vec_capacity into.new }
    ensures only_without_room { OnErr result (vec_capacity into.old < vec_len into.old + 8) }
{
    Ok(into.extend_from_slice(&u64::to_le_bytes(value))?)
}

/// Appends the length of the bytes as a u32, and then the bytes. After NoMemory nothing has been written.
pub fn put_bytes(into: &mut Vec<u8>, value: &[u8]) -> Result<(), NoMemory>
    requires { length value.now < 2 ^ 32 }
    ensures ok { OnOk result (into.new.items ≡ into.old.items ++ spelled_bytes value.now) }
    ensures unchanged { OnErr result (into.new.items ≡ into.old.items) }
    ensures room_stays { vec_capacity into.old ≤ vec_capacity into.new }
    ensures only_without_room { OnErr result (vec_capacity into.old < vec_len into.old + (4 + length value.now)) }
{
    let length = value.len();
    into.reserve(4 + length)?;
    put_u32(into, length as u32)?;
    into.extend_from_slice(value)?;
    Ok(())
}
