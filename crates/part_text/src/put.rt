//! Texts appended to bytes. After NoMemory nothing has been appended.

ghost use Rattle.std.specs.Prelude.{◌≡◌, ◌+◌, ◌<◌, ◌≤◌, ◌^◌, ◌++◌, length, OnOk, OnErr, vec_len, vec_capacity};
ghost use Rattle.part_text.specs.Text.{u32_text, u64_text, i64_text, string_text};

use crate::NoMemory;

/// Appends a number of four bytes.
#[tactic(auto, unfolding(crate::specs::Text::u32_text))]
pub fn put_u32(into: &mut Vec<u8>, number: u32) -> Result<(), NoMemory>
    ensures put { OnOk result (into.new.items ≡ into.old.items ++ u32_text number) }
    ensures unchanged { OnErr result (into.new.items ≡ into.old.items) }
    ensures room { OnOk result (vec_len into.new + vec_capacity into.old ≤ vec_len into.old + 4 + vec_capacity into.new) }
{
    Ok(into.extend_from_slice(&number.to_le_bytes())?)
}

/// Appends a number of eight bytes.
#[tactic(auto, unfolding(crate::specs::Text::u64_text))]
pub fn put_u64(into: &mut Vec<u8>, number: u64) -> Result<(), NoMemory>
    ensures put { OnOk result (into.new.items ≡ into.old.items ++ u64_text number) }
    ensures unchanged { OnErr result (into.new.items ≡ into.old.items) }
{
    Ok(into.extend_from_slice(&number.to_le_bytes())?)
}

/// Appends a signed number of eight bytes.
#[tactic(auto, unfolding(crate::specs::Text::i64_text))]
pub fn put_i64(into: &mut Vec<u8>, number: i64) -> Result<(), NoMemory>
    ensures put { OnOk result (into.new.items ≡ into.old.items ++ i64_text number) }
    ensures unchanged { OnErr result (into.new.items ≡ into.old.items) }
{
    put_u64(into, number.cast_unsigned())
}

/// Appends bytes behind their number.
#[tactic(auto, using(crate::specs::Reads::number_lengths))]
pub fn put_string(into: &mut Vec<u8>, bytes: &[u8]) -> Result<(), NoMemory>
    requires { length bytes.now < 2 ^ 32 }
    ensures put { OnOk result (into.new.items ≡ into.old.items ++ string_text bytes.now) }
    ensures unchanged { OnErr result (into.new.items ≡ into.old.items) }
{
    let count = bytes.len();
    into.reserve(4 + count)?;
    put_u32(into, count as u32)?;
    into.extend_from_slice(bytes)?;
    Ok(())
}
