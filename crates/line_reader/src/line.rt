//! Lines as a request takes them.

ghost use Rattle.std.specs.Prelude.{◌≡◌, nat_eq, drop, length, codes};
ghost use Rattle.std.specs.List.{starts_with, list_all};
ghost use Rattle.line_reader.specs.Line.{is_blank_byte, past_blanks};
ghost use Rattle.line_reader.specs.Request.{takes_source as is_action, begins_with, names_action, opens_action};

/// The first line of a request.
#[derive(Clone, Copy, Debug)]
pub enum FirstLine<'a> {
    /// The line without its newline.
    Whole(&'a [u8]),
    /// It has more than 1,048,576 bytes.
    TooLong,
}

/// The source line of a request.
#[derive(Clone, Copy, Debug)]
pub enum SourceLine<'a> {
    /// The first line takes none.
    NotTaken,
    /// The input ended before it.
    Missing,
    /// The line without its newline.
    Whole(&'a [u8]),
    /// It has more than 1,048,576 bytes.
    TooLong,
}

/// Whether a line takes the next one as its source line: it begins with `{`, one of `"index"`, `"create"` and
/// `"update"`, and `:`, with blanks before and between (Elasticsearch reference, bulk API). Nothing behind the colon
/// is looked at.
#[tactic(auto, unfolding(crate::specs::Request::takes_source))]
pub fn takes_source(line: &[u8]) -> bool
    ensures { result ≡ is_action line.now }
{
    opens(behind_blanks(line))
}

fn opens(bytes: &[u8]) -> bool
    ensures { result ≡ opens_action bytes.now }
{
    bytes.starts_with(b"{") && names(behind_blanks(bytes.split_at(1).1))
}

fn names(bytes: &[u8]) -> bool
    ensures { result ≡ names_action bytes.now }
{
    begins(b"\"index\"", bytes) || begins(b"\"create\"", bytes) || begins(b"\"update\"", bytes)
}

// Whether the bytes begin with a name, and behind blanks a colon.
fn begins(name: &[u8], bytes: &[u8]) -> bool
    ensures { result ≡ begins_with name.now bytes.now }
{
    bytes.starts_with(name) && behind_blanks(bytes.split_at(name.len()).1).starts_with(b":")
}

// What is left behind the blanks at the front.
fn behind_blanks(bytes: &[u8]) -> &[u8]
    ensures { result.now ≡ past_blanks bytes.now }
{
    let mut at = 0;
    'blanks: while at < bytes.len() && is_blank(bytes[at]) {
        at += 1;
    }
    bytes.split_at(at).1
}

// A space, a tab or a carriage return.
fn is_blank(byte: u8) -> bool
    ensures { result ≡ is_blank_byte byte }
{
    byte == b' ' || byte == b'\t' || byte == b'\r'
}

/// Whether all bytes are blanks.
pub(crate) fn are_blanks(bytes: &[u8]) -> bool
    ensures { result ≡ list_all is_blank_byte bytes.now }
{
    bytes.iter().all(|byte| is_blank(*byte))
}
