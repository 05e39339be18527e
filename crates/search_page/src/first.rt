//! The rows of the first hits, where hits stand in order as they are found.
ghost use Rattle.std.specs.Prelude.{◌≡◌, ◌≤◌, ◌++◌, [], drop, length, map, pos, replicate, take, IfOk, IfSome, IsTrue, None, OnOk, Some, is_some};
ghost use Rattle.query_ast.specs.declared.search.SearchBody.{SearchBody as Body};
ghost use Rattle.score_math.specs.declared.score.TheConstants.{SCORE_CAP};
ghost use Rattle.search_page.specs.Hits.{AreShared, IsByScore, place_of, places_of, plain_row};
ghost use Rattle.segment_parts.specs.Text.{marked_places};

use crate::NoMemory;
use block_bits::BitSet;
use block_join::{Matches, Scored};
use hit_order::{Column, ColumnKeys, KeyRows, NumberKeys, RowPlace};
use query_ast::{Direction, SearchBody, Sort, SortKey};
use std::alloc::Global;

/// The one score of all hits, where it alone orders them and no row is named to go on behind: then they stand in order.
pub(crate) fn only_score(search: &SearchBody, matched: &Matches) -> Option<u64>
    ensures only { IfSome result (λ score. (search.now.after ≡ None) × IsByScore search.now.sort × AreShared score matched.now) }
    ensures capped { IfSome result (λ score. score ≤ SCORE_CAP) }
{
    if let Some(_) = &search.after {
        return None;
    }
    if !is_by_score(search.sort.as_slice()) {
        return None;
    }
    let found = matched.as_slice();
    let score = first_score(found)?;
    if have_score(found, score) {
        Some(score)
    } else {
        None
    }
}

/// The one score of the hits of the first entry.
fn first_score(found: &[Scored]) -> Option<u64>
    ensures { IfSome result (λ score. score ≤ SCORE_CAP) }
{
    match found {
        [] => None,
        [first, ..] => first.shared(),
    }
}

/// Whether rows are ordered by their scores alone.
fn is_by_score(sorts: &[Sort]) -> bool
    ensures { IsTrue result → IsByScore sorts.now }
{
    match sorts {
        [sort] => match &sort.key {
            SortKey::Score => true,
            SortKey::Field { .. } => false,
        },
        _ => false,
    }
}

/// Whether all hits of entries are known to have this score.
fn have_score(found: &[Scored], score: u64) -> bool
    ensures { IsTrue result → AreShared score found.now }
{
    'entries: for at in 0..found.len() {
        let Some(own) = found[at].shared() else {
            return false;
        };
        if own != score {
            return false;
        }
    }
    true
}

/// The rows of hits with one score as they are found, without the first `from` of them, and of the rest the first `size`. The
/// numbers of their trees are left out.
pub(crate) fn first_rows(
    alloc: Global,
    matched: &Matches,
    from: u32,
    size: u32,
    score: u64,
) -> Result<KeyRows, NoMemory>
    requires { score ≤ SCORE_CAP }
    ensures { IfOk result (λ rows. rows.rows ≡ map (plain_row score) (take size (drop from (places_of 0 matched.now)))) }
{
    let from = from as usize;
    let places = first_places(alloc, matched.as_slice(), from + size as usize)?;
    let page = places.as_slice().split_at(from.min(places.len())).1;
    let keys = score_keys(alloc, score, page.len())?;
    let direction = Direction {
        descending: true,
        null_first: false,
    };
    let mut columns = Vec::new(alloc);
    columns.push(Column {
        direction,
        keys: ColumnKeys::Numbers(keys),
    })?;
    Ok(KeyRows::of(columns, Vec::from_slice(alloc, page)?))
}

/// So many keys that are this score.
#[tactic(auto, using(crate::proofs::Front::replicate_more))]
fn score_keys(alloc: Global, score: u64, count: usize) -> Result<NumberKeys, NoMemory>
    requires { score ≤ SCORE_CAP }
    ensures { IfOk result (λ keys. keys ≡ replicate count (Some (pos score))) }
{
    let mut keys = NumberKeys::empty(alloc);
    'rows: for _ in 0..count {
        keys.push(Some(score as i64))?;
    }
    Ok(keys)
}

/// Where the first hits stand, so many at most.
fn first_places(alloc: Global, found: &[Scored], most: usize) -> Result<Vec<RowPlace>, NoMemory>
    ensures { IfOk result (λ places. places.items ≡ take most (places_of 0 found.now)) }
{
    let mut places = Vec::new(alloc);
    'entries: for at in 0..found.len() {
        add_places(found[at].set(), at as u64, most, &mut places)?;
    }
    Ok(places)
}

/// Adds those of the entry at a place, up to so many in all.
fn add_places(
    set: &BitSet,
    place: u64,
    most: usize,
    places: &mut Vec<RowPlace>,
) -> Result<(), NoMemory>
    requires { length places.old.items ≤ most }
    ensures { OnOk result (places.new.items ≡ take most (places.old.items ++ map (place_of place) (marked_places 0 set.now))) }
{
    let mut walk = set.walk();
    'documents: while let Some(doc) = walk.next() {
        if places.len() >= most {
            return Ok(());
        }
        places.push(RowPlace {
            place,
            doc,
            number: 0,
        })?;
    }
    Ok(())
}
