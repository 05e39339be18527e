//! Numbers for the ids that were met: one for equal ids, in the order in which ids were first met.
//!
//! Equal ids are brought together by sorting. A hash goes before the bytes, so that few ids are compared byte by byte; ids that
//! were chosen to have one hash cost what any sort of them does, and no more.

ghost use Rattle.std.specs.Prelude.{◌≡◌, ◌+◌, ◌<◌, ◌≤◌, ℕ, length, IfOk};
ghost use Rattle.std.specs.Str.{bytes_eq};
ghost use Rattle.join_ordinals.specs.Numbers.{AreMet, AreGrouped, AreHeads, AreNumbers, IsHead, IsFirst, hash_of};

use crate::NoMemory;
use crate::ids::Ids;
use std::alloc::Global;
use std::hash::{FoldHasher, Hasher};

/// An id with a hash of its bytes, and its place among the ids that were met.
#[derive(Clone, Copy, Drop, PartialEq, Eq, PartialOrd, Ord)]
struct Met<'a> {
    hash: u64,
    id: &'a [u8],
    place: u32,
}

/// The numbers of ids, in the order in which these were met, and how many numbers there are.
#[derive(Drop)]
pub(crate) struct Numbers {
    pub(crate) count: usize,
    pub(crate) numbers: Vec<u32>,
}

/// The numbers of ids.
pub(crate) fn numbers_of(alloc: Global, ids: &Ids) -> Result<Numbers, NoMemory>
    ensures { IfOk result (λ made. AreNumbers ids.now made.numbers.items made.count) }
{
    let mut met = met_of(alloc, ids)?;
    met.sort_unstable();
    let firsts = firsts_of(alloc, met.as_slice())?;
    Ok(numbered(alloc, ids, firsts.as_slice())?)
}

/// A hash of an id's bytes.
fn hash_of(id: &[u8]) -> u64
    ensures { result ≡ hash_of id.now }
{
    let mut hasher = FoldHasher::default();
    hasher.write(id);
    hasher.finish()
}

/// The ids with their hashes and places.
fn met_of<'a>(alloc: Global, ids: &Ids<'a>) -> Result<Vec<Met<'a>>, NoMemory>
    ensures { IfOk result (λ met. AreMet ids.now met.items) }
{
    let all = ids.as_slice();
    let Ok(count) = u32::try_from(all.len()) else {
        return Err(NoMemory);
    };
    let mut met = Vec::with_capacity(alloc, all.len())?;
    'ids: for place in 0..count {
        let id = all[place as usize];
        met.push(Met {
            hash: hash_of(id),
            id,
            place,
        })?;
    }
    Ok(met)
}

/// For each place the first place of the same id, from ids that stand together.
fn firsts_of(alloc: Global, met: &[Met]) -> Result<Vec<u32>, NoMemory>
    requires { AreGrouped met.now }
    ensures long { IfOk result (λ firsts. length firsts.items ≡ length met.now) }
    ensures firsts { IfOk result (λ firsts. (at : ℕ) → at < length met.now → IsFirst met.now firsts.items at) }
{
    let mut firsts = vec![in alloc; 0; met.len()]?;
    let mut head = 0;
    'met: for at in 0..met.len() {
        head = head_at(met, head, at);
        firsts[met[at].place as usize] = met[head].place;
    }
    Ok(firsts)
}

/// The index of the first of those with the id at an index, from the like for the index before.
fn head_at(met: &[Met], head: usize, at: usize) -> usize
    requires grouped { AreGrouped met.now }
    requires within { (head ≤ at) × (at < length met.now) }
    requires head { (before : ℕ) → before + 1 ≡ at → IsHead met.now before head }
    ensures { IsHead met.now at result }
{
    if is_same(&met[head], &met[at]) {
        head
    } else {
        at
    }
}

/// Whether two have one id.
fn is_same(one: &Met, other: &Met) -> bool
    requires one { one.now.hash ≡ hash_of one.now.id.now }
    requires other { other.now.hash ≡ hash_of other.now.id.now }
    ensures { result ≡ bytes_eq one.now.id.now other.now.id.now }
{
    one.hash == other.hash && one.id == other.id
}

/// The numbers of ids, from the first place of each.
fn numbered(alloc: Global, ids: &Ids, firsts: &[u32]) -> Result<Numbers, NoMemory>
    requires { AreHeads ids.now firsts.now }
    ensures { IfOk result (λ made. AreNumbers ids.now made.numbers.items made.count) }
{
    let _ = ids;
    let mut numbers = Vec::with_capacity(alloc, firsts.len())?;
    let mut count = 0;
    'firsts: for first in firsts {
        if (*first as usize) < numbers.len() {
            numbers.push(numbers[*first as usize])?;
        } else {
            numbers.push(count as u32)?;
            count += 1;
        }
    }
    Ok(Numbers { count, numbers })
}
