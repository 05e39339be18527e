//! Numbers in decimal.
ghost use Rattle.std.specs.Prelude.{◌≡◌, ◌≤◌, ◌++◌, ◌+◌, length, decimal};
ghost use Rattle.std.specs.Fmt.{signed_decimal};
ghost use Rattle.tree_json.specs.Output.{room_of};

use crate::out_text::OutText;
use itoa::Buffer;

/// The number of digits, with the sign of a negative number.
pub fn whole_len(number: i64) -> u64
    ensures { result ≡ length (signed_decimal number) }
{
    if number >= 0 {
        return count_len(number.unsigned_abs());
    }
    Buffer::new().format(number).len() as u64
}

/// Appends the digits of the number, with the sign of a negative one.
pub fn put_whole(number: i64, into: &mut OutText)
    requires { length (signed_decimal number) ≤ into.old.spare }
    ensures bytes { into.new.bytes ≡ into.old.bytes ++ signed_decimal number }
    ensures spare { into.old.spare ≤ into.new.spare + length (signed_decimal number) }
    ensures room { room_of into.old ≤ room_of into.new }
{
    into.push_spare(Buffer::new().format(number).as_bytes());
}

/// The number of digits of a number without a sign, such as a sequence number or a count.
pub fn count_len(number: u64) -> u64
    ensures { result ≡ length (decimal number) }
{
    match number {
        0..=9 => 1,
        10..=99 => 2,
        100..=999 => 3,
        1_000..=9_999 => 4,
        _ => Buffer::new().format(number).len() as u64,
    }
}

/// Appends the digits of a number without a sign.
pub fn put_count(number: u64, into: &mut OutText)
    requires { length (decimal number) ≤ into.old.spare }
    ensures bytes { into.new.bytes ≡ into.old.bytes ++ decimal number }
    ensures spare { into.old.spare ≤ into.new.spare + length (decimal number) }
    ensures room { room_of into.old ≤ room_of into.new }
{
    into.push_spare(Buffer::new().format(number).as_bytes());
}
