//! The roots in the order of their ids, so that those of one id are found by halves.

ghost use Rattle.std.specs.Prelude.{◌≡◌, ◌↔◌, ◌<◌, ℕ, nat_lt, length, map, Contains, IfOk};
ghost use Rattle.std.specs.List.{All, range_with_len};
ghost use Rattle.std.specs.Ordering.{ordering_index};
ghost use Rattle.stored_sources.specs.Roots.{root_of};
ghost use Rattle.segment.specs.Ids.{AreById, AreUpTo, bound, id_of};

use crate::NoMemory;
use std::alloc::Global;
use std::cmp::Ordering;
use stored_sources::StoredSources;

/// A root with its id.
#[derive(Clone, Copy, Drop)]
struct Named<'a> {
    id: &'a [u8],
    root: u32,
}

/// The roots in the order of their ids' bytes.
pub(crate) fn roots_by_id(alloc: Global, sources: &StoredSources) -> Result<Vec<u32>, NoMemory>
    ensures { IfOk result (λ order. AreById sources.now order.items) }
{
    let mut named = named_roots(alloc, sources)?;
    named.sort_by(|one, other| one.id.cmp(other.id))?;
    Ok(roots_of(alloc, named.as_slice())?)
}

/// The roots with their ids.
fn named_roots<'a>(alloc: Global, sources: &StoredSources<'a>) -> Result<Vec<Named<'a>>, NoMemory>
    ensures roots { IfOk result (λ named. map (λ one. one.root) named.items ≡ range_with_len 0 (length sources.now)) }
    ensures ids { IfOk result (λ named. All (λ one. one.id.now ≡ id_of sources.now one.root) named.items) }
{
    let mut named = Vec::with_capacity(alloc, sources.count() as usize)?;
    'roots: for root in 0..sources.count() {
        named.push(Named {
            id: sources.id(root),
            root,
        })?;
    }
    Ok(named)
}

fn roots_of(alloc: Global, named: &[Named]) -> Result<Vec<u32>, NoMemory>
    ensures { IfOk result (λ roots. roots.items ≡ map (λ one. one.root) named.now) }
{
    let mut roots = Vec::with_capacity(alloc, named.len())?;
    'named: for one in named {
        roots.push(one.root)?;
    }
    Ok(roots)
}

/// The roots that have an id.
pub(crate) fn roots_of_id<'a>(order: &'a [u32], sources: &StoredSources, id: &[u8]) -> &'a [u32]
    requires { AreById sources.now order.now }
    ensures { (root : ℕ) → Contains result.now root ↔ ((root < length sources.now) × ((root_of sources.now root).id ≡ id.now)) }
{
    let first = roots_up_to(order, sources, id, false);
    let end = roots_up_to(order, sources, id, true);
    &order[first..end]
}

/// How many roots come before those with an id, or up to and with them.
fn roots_up_to(order: &[u32], sources: &StoredSources, id: &[u8], through: bool) -> usize
    requires { AreById sources.now order.now }
    ensures { AreUpTo sources.now order.now id.now through result }
{
    let mut low = 0;
    let mut high = order.len();
    'halves: while low < high {
        let middle = low + (high - low) / 2;
        let compared = sources.id(order[middle]).cmp(id);
        if comes_before(compared, through) {
            low = middle + 1;
        } else {
            high = middle;
        }
    }
    low
}

/// Whether an id that compares so to the one that is asked for comes before it, or is it.
fn comes_before(compared: Ordering, through: bool) -> bool
    ensures { result ≡ nat_lt (ordering_index compared) (bound through) }
{
    match compared {
        Ordering::Less => true,
        Ordering::Equal => through,
        Ordering::Greater => false,
    }
}
