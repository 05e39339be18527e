//! Walkers over the text of terms with their postings. Each gives what the text is known by, and the bytes behind it.

ghost use Rattle.std.specs.Prelude.{◌≡◌, length, nat_lt};
ghost use Rattle.std.specs.Option.{option_map};
ghost use Rattle.part_text.specs.Reading.{Gives, GivesKey, follows};
ghost use Rattle.term_table.specs.Reading.{ascending_at, positions_at, posting_at, postings_at, some_postings_at, is_term_before, term_at, row_at};

use part_text::{string_at, u32_at};

/// Whether a number may stand behind another.
pub(crate) fn follows(before: Option<u32>, number: u32) -> bool
    ensures { result ≡ follows nat_lt before number }
{
    match before {
        None => true,
        Some(before) => before < number,
    }
}

/// A number that is greater than the one before it.
fn ascending_at(before: Option<u32>, bytes: &[u8]) -> Option<(u32, &[u8])>
    ensures { Gives (λ x. (x.0, x.1.now)) result (ascending_at before bytes.now) }
{
    let (number, rest) = u32_at(bytes)?;
    if follows(before, number) {
        Some((number, rest))
    } else {
        None
    }
}

/// The positions of a posting: their number.
#[tactic(auto, unfolding(part_text::specs::Reading::counted_at))]
fn positions_at(bytes: &[u8]) -> Option<(u32, &[u8])>
    ensures { GivesKey length (λ x. x.0) (λ x. x.1.now) result (positions_at bytes.now) }
{
    let (count, mut rest) = u32_at(bytes)?;
    let mut before = None;
    'positions: for _ in 0..count {
        let (position, after) = ascending_at(before, rest)?;
        before = Some(position);
        rest = after;
    }
    Some((count, rest))
}

/// A posting whose document is greater than the one before it: its document.
#[tactic(auto, unfolding(crate::specs::Reading::posting_at))]
fn posting_at(before: Option<u32>, bytes: &[u8]) -> Option<(u32, &[u8])>
    ensures { GivesKey (λ posting. posting.0) (λ x. x.0) (λ x. x.1.now) result (posting_at before bytes.now) }
{
    let (document, rest) = ascending_at(before, bytes)?;
    let (_, rest) = positions_at(rest)?;
    Some((document, rest))
}

/// The postings of a term: their number.
#[tactic(auto, unfolding(part_text::specs::Reading::counted_at))]
fn postings_at(bytes: &[u8]) -> Option<(u32, &[u8])>
    ensures { GivesKey length (λ x. x.0) (λ x. x.1.now) result (postings_at bytes.now) }
{
    let (count, mut rest) = u32_at(bytes)?;
    let mut before = None;
    'postings: for _ in 0..count {
        let (document, after) = posting_at(before, rest)?;
        before = Some(document);
        rest = after;
    }
    Some((count, rest))
}

/// The postings of a term, at least one: their number.
#[tactic(auto, unfolding(crate::specs::Reading::some_postings_at))]
fn some_postings_at(bytes: &[u8]) -> Option<(u32, &[u8])>
    ensures { GivesKey length (λ x. x.0) (λ x. x.1.now) result (some_postings_at bytes.now) }
{
    let (count, rest) = postings_at(bytes)?;
    if 0 < count { Some((count, rest)) } else { None }
}

/// Whether a term may stand behind another.
pub(crate) fn term_follows(before: Option<(u32, &[u8])>, term: (u32, &[u8])) -> bool
    ensures { result ≡ follows is_term_before (option_map (λ t. (t.0, t.1.now)) before.entry) (term.entry.0, term.entry.1.now) }
{
    match before {
        None => true,
        Some(before) => before.0.cmp(&term.0).then(before.1.cmp(term.1)).is_lt(),
    }
}

/// A term that comes after the one before it.
#[tactic(auto, unfolding(crate::specs::Reading::term_at))]
fn term_at<'a>(before: Option<(u32, &[u8])>, bytes: &'a [u8]) -> Option<((u32, &'a [u8]), &'a [u8])>
    ensures { Gives (λ x. ((x.0.0, x.0.1.now), x.1.now)) result (term_at (option_map (λ t. (t.0, t.1.now)) before.entry) bytes.now) }
{
    let (field, rest) = u32_at(bytes)?;
    let (own, rest) = string_at(rest)?;
    if term_follows(before, (field, own)) {
        Some(((field, own), rest))
    } else {
        None
    }
}

/// A term that comes after the one before it, with its postings: the term.
#[tactic(auto, unfolding(crate::specs::Reading::row_at))]
pub(crate) fn row_at<'a>(
    before: Option<(u32, &[u8])>,
    bytes: &'a [u8],
) -> Option<((u32, &'a [u8]), &'a [u8])>
    ensures { GivesKey (λ row. row.term) (λ x. (x.0.0, x.0.1.now)) (λ x. x.1.now) result (row_at (option_map (λ t. (t.0, t.1.now)) before.entry) bytes.now) }
{
    let (term, rest) = term_at(before, bytes)?;
    let (_, rest) = some_postings_at(rest)?;
    Some((term, rest))
}
