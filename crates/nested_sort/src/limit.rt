//! A limit among the numbers of a field, before which the hits of a page are likely to stand. Nothing but speed rests on it.
ghost use Rattle.std.specs.Prelude.{◌≡◌, ◌<◌, ◌≤◌, false, length, option_map, IfSome};
ghost use Rattle.hit_order.specs.Reach.{first_of_row};
ghost use Rattle.nested_sort.specs.Near.{IsSuited};
ghost use Rattle.query_ast.specs.declared.sort.Key.{Key as RowKey};

use crate::asked::Asked;
use crate::inside::scope_documents;
use crate::modes::is_of_one;
use crate::near::Reach;
use crate::reached::NumberClause;
use crate::sample::count_about;
use block_bits::BitSet;
use block_join::Scored;
use postings::PostingsTable;
use query_ast::{Direction, Key, KeyRow, Missing};
use segment::Segment;
use segment_view::Entry;
use term_table::{Edge, TermTable, number_key, number_of};

/// A set of so many documents is marked and passed over in about the time in which the number of one hit is read.
const PASSED: u32 = 8192;

/// What a page of so many rows can show, where the first clause is on the least or the greatest number of each hit, what has
/// none stands last, and few numbers have to be looked at.
pub(crate) fn reach_of(
    entries: &[Entry],
    found: &[Scored],
    clause: &NumberClause<'_>,
    direction: Direction,
    after: Option<&KeyRow>,
    most: usize,
) -> Option<Reach>
    ensures suited { IfSome result (λ reach. IsSuited clause.now) }
    ensures direction { IfSome result (λ reach. reach.direction ≡ direction) }
    ensures null { IfSome result (λ reach. direction.null_first ≡ false) }
    ensures after { IfSome result (λ reach. option_map RowKey.Number reach.after ≡ option_map (λ row. first_of_row row.now) after.entry) }
{
    let asked = suited(clause)?;
    if direction.null_first {
        return None;
    }
    let after = match after {
        None => None,
        Some(row) => Some(first_number(row)?),
    };
    let limit = limit_of(entries, found, asked, direction.descending, after, most)?;
    Some(Reach {
        direction,
        after,
        limit,
    })
}

/// What a clause asks whose key is one of the numbers that it asks for, and null where there is none.
fn suited<'a, 'b>(clause: &'a NumberClause<'b>) -> Option<&'a Asked<'b>>
    ensures { IfSome result (λ asked. IsSuited clause.now) }
{
    match clause {
        NumberClause::Score => None,
        NumberClause::Field(asked) => {
            if !is_of_one(asked.mode) {
                return None;
            }
            match asked.missing {
                Missing::Last => Some(asked),
                Missing::First => None,
                Missing::Given(_) => None,
            }
        }
    }
}

/// The number that a row begins with, if it does.
fn first_number(row: &KeyRow) -> Option<i64>
    ensures { IfSome result (λ number. first_of_row row.now ≡ RowKey.Number number) }
{
    match row.keys.as_slice() {
        [Key::Number(number), ..] => Some(*number),
        _ => None,
    }
}

/// Of the limits that single entries have, the first in order: so many hits stand before it as before that one.
fn limit_of(
    entries: &[Entry],
    found: &[Scored],
    asked: &Asked<'_>,
    descending: bool,
    after: Option<i64>,
    most: usize,
) -> Option<i64> {
    let mut limit = None;
    'entries: for at in 0..found.len() {
        if let Some(entry) = entries.get(at) {
            let hits = found[at].set();
            let own = limit_in(entry.segment(), at, hits, asked, descending, after, most);
            limit = nearer(descending, limit, own);
        }
    }
    limit
}

/// The one of two limits that comes first in order.
fn nearer(descending: bool, one: Option<i64>, other: Option<i64>) -> Option<i64> {
    match (one, other) {
        (Some(one), Some(other)) => {
            if descending {
                Some(one.max(other))
            } else {
                Some(one.min(other))
            }
        }
        (Some(one), None) => Some(one),
        (None, other) => other,
    }
}

/// The number before which as many hits of a segment stand as a page wants, if few documents have to be looked at.
fn limit_in(
    segment: &Segment,
    place: usize,
    hits: &BitSet,
    asked: &Asked<'_>,
    descending: bool,
    after: Option<i64>,
    most: usize,
) -> Option<i64> {
    let way = way_of(segment, place, asked)?;
    let terms = segment.terms();
    let postings = segment.postings();
    let (first, end) = terms_behind(&terms, asked.field, descending, after);
    let mut room = count_about(hits).saturating_sub(hits.len() / PASSED);
    let mut found = 0;
    'terms: for step in 0..end - first {
        let ordinal = if descending {
            end - 1 - step
        } else {
            first + step
        };
        if found >= most {
            return number_of(terms.term(ordinal).1);
        }
        room = room.checked_sub(postings.documents(ordinal))?;
        found = found.saturating_add(hits_of_term(&postings, ordinal, &way, hits));
    }
    None
}

/// The terms of a field behind that of a number, if it is named: the ordinal of the first, and the one past the last.
fn terms_behind(
    terms: &TermTable<'_>,
    field: u32,
    descending: bool,
    after: Option<i64>,
) -> (u64, u64)
    ensures ordered { result.0 ≤ result.1 }
    ensures within { result.1 ≤ length terms.now }
{
    let Some(after) = after else {
        return terms.field_range(field);
    };
    let key = number_key(after);
    let edge = Edge::Past(key.as_slice());
    if descending {
        terms.range(field, Edge::Unbounded, edge)
    } else {
        terms.range(field, edge, Edge::Unbounded)
    }
}

/// Which document the numbers of one are asked for by.
#[derive(Drop)]
enum Way<'a> {
    /// The document itself.
    Itself,
    /// If it is of the first set, the next of the second.
    Above(&'a BitSet, &'a BitSet),
}

impl Way<'_> {
    /// Whether a document's numbers are asked for by one of a set.
    fn leads_into(&self, doc: u32, hits: &BitSet) -> bool {
        match self {
            Way::Itself => is_in(hits, doc),
            Way::Above(passing, parents) => {
                if !is_in(passing, doc) {
                    return false;
                }
                match parents.next_set(doc) {
                    Some(parent) => is_in(hits, parent),
                    None => false,
                }
            }
        }
    }
}

/// Whether a document is in a set.
fn is_in(set: &BitSet, doc: u32) -> bool {
    doc < set.len() && set.has(doc)
}

/// The way up a chain of at most one step, in the entry at a place.
fn way_of<'a>(segment: &'a Segment, place: usize, asked: &Asked<'a>) -> Option<Way<'a>> {
    match asked.chain {
        [] => Some(Way::Itself),
        [step] => {
            let passing = if step.filter.is_some() {
                asked.filters.first()?.as_slice().get(place)?.set()
            } else {
                scope_documents(segment, step.scope)?
            };
            Some(Way::Above(passing, scope_documents(segment, asked.scope)?))
        }
        _ => None,
    }
}

/// How many of the hits a term has.
fn hits_of_term(postings: &PostingsTable<'_>, ordinal: u64, way: &Way<'_>, hits: &BitSet) -> usize
    requires { ordinal < length postings.now }
{
    let mut cursor = postings.cursor(ordinal);
    let mut next = cursor.doc();
    let mut count = 0usize;
    'postings: for _ in 0..postings.documents(ordinal) {
        if let Some(doc) = next {
            if way.leads_into(doc, hits) {
                count = count.saturating_add(1);
            }
        }
        next = cursor.next();
    }
    count
}
