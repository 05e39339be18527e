//! Segments of a commit that is prepared are offered a place nearer to the front.

ghost use Rattle.std.specs.Prelude.{◌≡◌, ◌≤◌, IfOk};
ghost use Rattle.commit_store.specs.Moving.{SaysAsMuch};
ghost use Rattle.commit_store.specs.Preparing.{IsPreparedBy};
ghost use Rattle.store_compact.specs.Moves.{AllStayBelow, AreMoved, IsLastFrom, later_candidate};

use commit_store::{NoMemory, Prepared, Store};
use extent_pool::{Extent, order_makes_no_difference};

/// A segment that may be moved: its place in the view, and the extent that it has in the last commit.
#[derive(Clone, Copy)]
pub(crate) struct Candidate {
    pub(crate) place: u64,
    pub(crate) extent: Extent,
}

/// Offers a place nearer to the front to so many segments at most that the last commit names, by descending place, and gives how
/// many were moved. It looks through all segments for each.
#[tactic(auto, using(crate::proofs::Offering::offering))]
pub(crate) fn offer_last(store: &Store, prepared: &mut Prepared, most: u64) -> Result<u64, NoMemory>
    requires by { IsPreparedBy store.now prepared.old }
    requires stay { AllStayBelow prepared.old.limit prepared.old.segments }
    ensures moved { IfOk result (λ count. AreMoved most count prepared.old prepared.new) }
    ensures by { IfOk result (λ count. IsPreparedBy store.now prepared.new) }
    ensures says { IfOk result (λ count. SaysAsMuch store.now prepared.old prepared.new) }
{
    order_makes_no_difference();
    let mut at = store.limit();
    let mut left = most;
    let mut count = 0;
    'offers: while left > 0 {
        let Some(last) = last_before(prepared, at) else {
            return Ok(count);
        };
        if prepared.offer(store, last.place)? {
            count += 1;
        }
        at = last.extent.at;
        left -= 1;
    }
    Ok(count)
}

/// The segment whose extent in the last commit begins last among those before a place.
#[tactic(auto, using(crate::proofs::Candidates::candidates))]
fn last_before(prepared: &Prepared, at: u64) -> Option<Candidate>
    ensures { IsLastFrom 0 prepared.now.segments at result }
{
    let mut place = prepared.segment_count();
    let mut last = None;
    'places: while place > 0 {
        place -= 1;
        if let Some(extent) = prepared.extent(place) {
            last = later(last, Candidate { place, extent }, at);
        }
    }
    last
}

/// The one that begins later of those of the two that begin before a place.
fn later(last: Option<Candidate>, it: Candidate, at: u64) -> Option<Candidate>
    ensures { result ≡ later_candidate at it last }
{
    if it.extent.at >= at {
        return last;
    }
    match last {
        Some(best) => {
            if best.extent.at < it.extent.at {
                Some(it)
            } else {
                Some(best)
            }
        }
        None => Some(it),
    }
}
