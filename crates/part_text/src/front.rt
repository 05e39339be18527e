//! Numbers at the front of bytes that are known to stand there.

ghost use Rattle.std.specs.Prelude.{◌≡◌, ◌≤◌, length};
ghost use Rattle.part_text.specs.Front.{first_u32, first_u64, first_i64};

/// The number of the first four bytes.
#[tactic(auto, unfolding(crate::specs::Front::first_u32))]
pub fn first_u32(bytes: &[u8]) -> u32
    requires { 4 ≤ length bytes.now }
    ensures { result ≡ first_u32 bytes.now }
{
    u32::from_le_bytes([bytes[0], bytes[1], bytes[2], bytes[3]])
}

/// The number of the first eight bytes.
#[tactic(auto, unfolding(crate::specs::Front::first_u64))]
pub fn first_u64(bytes: &[u8]) -> u64
    requires { 8 ≤ length bytes.now }
    ensures { result ≡ first_u64 bytes.now }
{
    u64::from_le_bytes([
        bytes[0], bytes[1], bytes[2], bytes[3], bytes[4], bytes[5], bytes[6], bytes[7],
    ])
}

/// The signed number of the first eight bytes.
#[tactic(auto, unfolding(crate::specs::Front::first_i64))]
pub fn first_i64(bytes: &[u8]) -> i64
    requires { 8 ≤ length bytes.now }
    ensures { result ≡ first_i64 bytes.now }
{
    first_u64(bytes).cast_signed()
}
