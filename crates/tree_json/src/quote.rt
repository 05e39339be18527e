//! Texts between quotation marks (RFC 8259, section 7).
ghost use Rattle.std.specs.Prelude.{◌≡◌, ◌-◌, ◌≤◌, ◌<◌, ◌^◌, ◌++◌, ◌+◌, ◌*◌, min, length, take, drop, ◌∷◌, [], false};
ghost use Rattle.std.specs.Char.{digit_char};
ghost use Rattle.json.specs.Print.{escape, escape_byte, escape_letter};
ghost use Rattle.tree_json.specs.Output.{room_of};
ghost use Rattle.tree_json.specs.Text.{quoted};

use crate::out_text::OutText;

/// The most bytes of a text that is written byte by byte: in a longer one runs are looked for.
const SHORT_TEXT: usize = 16;

/// The length of the quoted text, in bytes, or the greatest u64 where it is greater than that.
#[tactic(auto, unfolding(crate::specs::Text::quoted))]
pub fn quoted_len(text: &[u8]) -> u64
    ensures { result ≡ min (length (quoted text.now)) (2 ^ 64 - 1) }
{
    let (plain, back) = text.split_at(plain_len(text));
    (plain.len() as u64)
        .saturating_add(escaped_len(back))
        .saturating_add(2)
}

fn escaped_len(text: &[u8]) -> u64
    ensures { result ≡ min (length (escape text.now)) (2 ^ 64 - 1) }
{
    let mut total: u64 = 0;
    'bytes: for byte in text {
        total = total.saturating_add(escape_len(*byte));
    }
    total
}

#[tactic(auto, using(crate::proofs::Escapes::cases))]
fn escape_len(byte: u8) -> u64
    ensures { result ≡ length (escape_byte byte) }
{
    if escape_letter_of(byte) > 0 {
        2
    } else if byte < 32 {
        6
    } else {
        1
    }
}

/// Appends the quoted text, for which there is room.
#[tactic(auto, unfolding(crate::specs::Text::quoted))]
pub fn put_quoted(text: &[u8], into: &mut OutText)
    requires { length (quoted text.now) ≤ into.old.spare }
    ensures bytes { into.new.bytes ≡ into.old.bytes ++ quoted text.now }
    ensures spare { into.old.spare ≤ into.new.spare + length (quoted text.now) }
    ensures room { room_of into.old ≤ room_of into.new }
{
    into.push_byte(b'"');
    if text.len() <= SHORT_TEXT {
        put_each(text, into);
    } else {
        put_escaped(text, into);
    }
    into.push_byte(b'"');
}

// Each byte is written by itself.
fn put_each(text: &[u8], into: &mut OutText)
    requires { length (escape text.now) ≤ into.old.spare }
    ensures bytes { into.new.bytes ≡ into.old.bytes ++ escape text.now }
    ensures spare { into.old.spare ≤ into.new.spare + length (escape text.now) }
{
    'bytes: for byte in text {
        if is_escaped(*byte) {
            put_escape(*byte, into);
        } else {
            into.push_byte(*byte);
        }
    }
}

// Runs of bytes that stand for themselves are copied whole.
fn put_escaped(text: &[u8], into: &mut OutText)
    requires { length (escape text.now) ≤ into.old.spare }
    ensures bytes { into.new.bytes ≡ into.old.bytes ++ escape text.now }
    ensures spare { into.old.spare ≤ into.new.spare + length (escape text.now) }
{
    let mut rest = text;
    'runs: while !rest.is_empty() {
        let (plain, back) = rest.split_at(plain_len(rest));
        into.push_spare(plain);
        rest = match back {
            [] => back,
            [byte, more @ ..] => {
                put_escape(*byte, into);
                more
            }
        };
    }
}

// How many bytes at the front stand for themselves.
#[tactic(auto, using(crate::proofs::Escapes::plain_more))]
fn plain_len(text: &[u8]) -> usize
    ensures within { result ≤ length text.now }
    ensures plain { escape text.now ≡ take result text.now ++ escape (drop result text.now) }
{
    let mut len = 0;
    'bytes: for byte in text {
        if is_escaped(*byte) {
            return len;
        }
        len += 1;
    }
    len
}

// Whether a byte may have to be escaped. Most stand behind the reverse solidus, which one test tells.
#[tactic(auto, using(crate::proofs::Escapes::cases))]
fn is_escaped(byte: u8) -> bool
    ensures { result ≡ false → escape_byte byte ≡ byte ∷ [] }
{
    byte <= b'\\' && (byte < 32 || byte == b'"' || byte == b'\\')
}

#[tactic(auto, using(crate::proofs::Escapes::cases))]
fn put_escape(byte: u8, into: &mut OutText)
    requires { length (escape_byte byte) ≤ into.old.spare }
    ensures bytes { into.new.bytes ≡ into.old.bytes ++ escape_byte byte }
    ensures spare { into.old.spare ≤ into.new.spare + length (escape_byte byte) }
{
    let letter = escape_letter_of(byte);
    if letter > 0 {
        into.push_spare(&[b'\\', letter]);
    } else if byte < 32 {
        into.push_spare(&[
            b'\\',
            b'u',
            b'0',
            b'0',
            hex_digit(byte / 16),
            hex_digit(byte % 16),
        ]);
    } else {
        into.push_byte(byte);
    }
}

// The letter of the short escape, or 0 where the byte has none.
fn escape_letter_of(byte: u8) -> u8
    ensures { result ≡ escape_letter byte }
{
    match byte {
        b'"' | b'\\' => byte,
        8 => b'b',
        12 => b'f',
        b'\n' => b'n',
        b'\r' => b'r',
        b'\t' => b't',
        _ => 0,
    }
}

fn hex_digit(digit: u8) -> u8
    requires { digit < 16 }
    ensures { result ≡ digit_char digit }
{
    if digit < 10 {
        b'0' + digit
    } else {
        b'a' - 10 + digit
    }
}
