//! The documents of each scope.

ghost use Rattle.std.specs.Prelude.{◌≡◌, ◌+◌, ◌-◌, ◌<◌, ◌≤◌, ◌^◌, ◌⊎◌, length, map, Contains, IfOk};
ghost use Rattle.std.specs.List.{All, range_with_len};
ghost use Rattle.block_bits.specs.Blocks.{documents_of};
ghost use Rattle.segment_builder.specs.Marks.{marked_to};

use crate::NoMemory;
use block_bits::{BitList, BitSet};
use std::alloc::Global;

/// The documents of each scope up to the greatest one.
pub fn scope_sets(alloc: Global, scopes: &[u32]) -> Result<BitList, NoMemory>
    requires below { All (λ scope. scope + 1 < 2 ^ 32) scopes.now }
    requires few { length scopes.now < 2 ^ 32 }
    ensures sets { IfOk result (λ sets. sets ≡ map (documents_of scopes.now) (range_with_len 0 (length sets))) }
    ensures within { IfOk result (λ sets. All (λ scope. scope < length sets) scopes.now) }
    ensures greatest { IfOk result (λ sets. 0 < length scopes.now → Contains scopes.now (length sets - 1)) }
    ensures fewer { IfOk result (λ sets. length sets < 2 ^ 32) }
{
    let count = scope_count(scopes);
    let mut sets = empty_sets(alloc, scopes, count)?;
    mark(scopes, &mut sets);
    Ok(BitList::of(sets))
}

/// One more than the greatest scope.
fn scope_count(scopes: &[u32]) -> u32
    requires { All (λ scope. scope + 1 < 2 ^ 32) scopes.now }
    ensures within { All (λ scope. scope < result) scopes.now }
    ensures greatest { 0 < length scopes.now → Contains scopes.now (result - 1) }
    ensures fewer { result < 2 ^ 32 }
{
    let mut count = 0;
    'scopes: for scope in scopes {
        count = count_with(count, *scope);
    }
    count
}

/// A count that is more than a scope too.
fn count_with(count: u32, scope: u32) -> u32
    requires { scope + 1 < 2 ^ 32 }
    ensures within { scope < result }
    ensures more { count ≤ result }
    ensures which { (result ≡ count) ⊎ (result ≡ scope + 1) }
{
    if scope < count { count } else { scope + 1 }
}

/// So many sets of none of the documents of scopes.
fn empty_sets(alloc: Global, scopes: &[u32], count: u32) -> Result<Vec<BitSet>, NoMemory>
    requires { length scopes.now < 2 ^ 32 }
    ensures { IfOk result (λ sets. sets.items ≡ map (marked_to scopes.now 0) (range_with_len 0 count)) }
{
    let mut sets = Vec::new(alloc);
    'scopes: for _scope in 0..count {
        sets.push(BitSet::empty(alloc, scopes.len() as u32)?)?;
    }
    Ok(sets)
}

/// Puts each document into the set of its scope.
fn mark(scopes: &[u32], sets: &mut Vec<BitSet>)
    requires few { length scopes.now < 2 ^ 32 }
    requires within { All (λ scope. scope < length sets.old.items) scopes.now }
    requires empty { sets.old.items ≡ map (marked_to scopes.now 0) (range_with_len 0 (length sets.old.items)) }
    ensures { sets.new.items ≡ map (documents_of scopes.now) (range_with_len 0 (length sets.old.items)) }
{
    'docs: for doc in 0..scopes.len() {
        let set = &mut sets[scopes[doc] as usize];
        set.set(doc as u32);
    }
}
