//! A term among terms that stand in order.

ghost use Rattle.std.specs.Prelude.{◌≡◌, ◌<◌, ◌≤◌, length, nat_lt, slice_get, Contains, IsTrue, Some};
ghost use Rattle.std.specs.Ordering.{is_gt};
ghost use Rattle.term_table.specs.Terms.{AreAscending, term_cmp};
ghost use Rattle.segment_builder.specs.Columns.{ordinal_of, terms_lent, IsFieldRange, IsFieldStart};

use std::cmp::Ordering;

/// So many keywords have a slot of their own.
const SLOTS: usize = 64;

/// Where keywords of a field were found last, each in a slot that its bytes give. It says where to look first: what stands
/// there counts only where it is the keyword that is sought. Many documents have one of a few keywords.
#[derive(Drop)]
pub(crate) struct KnownTerms {
    places: [usize; 64],
}

impl KnownTerms {
    /// None yet.
    pub(crate) fn new() -> KnownTerms {
        KnownTerms { places: [0; 64] }
    }

    /// The place of a term that is there, looked for first where one of its slot was found last.
    pub(crate) fn find(
        &mut self,
        terms: &[(u32, &[u8])],
        from: usize,
        end: usize,
        field: u32,
        bytes: &[u8],
    ) -> usize
        requires ascending { AreAscending (terms_lent terms.now) }
        requires range { IsFieldRange (terms_lent terms.now) field from end }
        requires there { Contains (terms_lent terms.now) (field, bytes.now) }
        ensures { result ≡ ordinal_of (terms_lent terms.now) (field, bytes.now) }
    {
        let slot = slot_of(bytes);
        let known = self.places[slot];
        if stands_at(terms, known, field, bytes) {
            return known;
        }
        let place = find(terms, from, end, field, bytes);
        self.places[slot] = place;
        place
    }
}

/// The slot of a keyword: by its length, its first byte and its last.
fn slot_of(bytes: &[u8]) -> usize
    ensures { result < 64 }
{
    let len = bytes.len();
    if len == 0 {
        return 0;
    }
    let first = bytes[0] as usize;
    let last = bytes[len - 1] as usize;
    (len % SLOTS + 5 * first + 11 * last) % SLOTS
}

/// Whether a term stands at a place.
fn stands_at(terms: &[(u32, &[u8])], place: usize, field: u32, bytes: &[u8]) -> bool
    ensures { IsTrue result → slice_get (terms_lent terms.now) place ≡ Some (field, bytes.now) }
{
    if place < terms.len() {
        return is_same(&terms[place], field, bytes);
    }
    false
}

/// Whether a term is of a field and has these bytes.
#[tactic(auto, using(crate::proofs::Onced::same_bytes))]
fn is_same(term: &(u32, &[u8]), field: u32, bytes: &[u8]) -> bool
    ensures { IsTrue result → (term.now.0 ≡ field) × (term.now.1.now ≡ bytes.now) }
{
    let (own, text) = term;
    *own == field && *text == bytes
}

/// The places from which on and before which the terms of a field stand.
pub(crate) fn field_range(terms: &[(u32, &[u8])], field: u32) -> (usize, usize)
    requires { AreAscending (terms_lent terms.now) }
    ensures { IsFieldRange (terms_lent terms.now) field result.0 result.1 }
{
    let from = field_start(terms, field as u64);
    let end = field_start(terms, field as u64 + 1);
    (from, end)
}

/// How many terms are of smaller fields.
fn field_start(terms: &[(u32, &[u8])], field: u64) -> usize
    requires { AreAscending (terms_lent terms.now) }
    ensures start { IsFieldStart (terms_lent terms.now) field result result }
    ensures within { result ≤ length terms.now }
{
    let mut low = 0;
    let mut high = terms.len();
    'places: while low < high {
        let middle = low + (high - low) / 2;
        if is_before(&terms[middle], field) {
            low = middle + 1;
        } else {
            high = middle;
        }
    }
    low
}

/// Whether a term is of a smaller field.
fn is_before(term: &(u32, &[u8]), field: u64) -> bool
    ensures { result ≡ nat_lt term.now.0 field }
{
    (term.0 as u64) < field
}

/// The place of a term that is there, looked for among the terms of its field alone.
fn find(terms: &[(u32, &[u8])], from: usize, end: usize, field: u32, bytes: &[u8]) -> usize
    requires ascending { AreAscending (terms_lent terms.now) }
    requires range { IsFieldRange (terms_lent terms.now) field from end }
    requires there { Contains (terms_lent terms.now) (field, bytes.now) }
    ensures { result ≡ ordinal_of (terms_lent terms.now) (field, bytes.now) }
{
    let mut low = from;
    let mut high = end;
    'places: while high - low > 1 {
        let middle = low + (high - low) / 2;
        if is_after(&terms[middle], field, bytes) {
            high = middle;
        } else {
            low = middle;
        }
    }
    low
}

/// Whether a term comes after another.
fn is_after(term: &(u32, &[u8]), field: u32, bytes: &[u8]) -> bool
    ensures { result ≡ is_gt (term_cmp (term.now.0, term.now.1.now) (field, bytes.now)) }
{
    let (own, text) = term;
    match own.cmp(&field) {
        Ordering::Less => false,
        Ordering::Equal => (*text).cmp(bytes).is_gt(),
        Ordering::Greater => true,
    }
}
