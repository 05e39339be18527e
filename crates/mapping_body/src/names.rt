//! Names in byte order, and the paths that names make.
ghost use Rattle.std.specs.Prelude.{◌≡◌, ℕ, List, ◌<◌, ◌≤◌, ◌^◌, ◌++◌, ◌∷◌, length, map, codes, IfOk, OnOk, IfSome, ◌||◌};
ghost use Rattle.std.specs.Cmp.Lexicographic.{slice_cmp};
ghost use Rattle.std.specs.Ordering.{nat_cmp};
ghost use Rattle.std.specs.List.{All};
ghost use Rattle.mapping_body.specs.Order.{IsOrderFrom, name_at};
ghost use Rattle.mapping_body.specs.Names.{dot_count, AreAscending, dot, joined, lies_above, goes_on, has_dot, is_name, is_property_name, place_of, put};

use crate::refusal::{MOST_NAME_BYTES, NoMemory};
use std::alloc::Global;
use std::cmp::Ordering;

const DOT: u8 = b'.';

/// What has a name that it can be found by.
pub trait Named {
    ghost name: { Self → List ℕ };

    fn name(&self) -> &[u8]
        ensures { result.now ≡ name self.now };
}

/// A name that is looked for among items.
pub trait Sought {
    ghost sought: { Self → List ℕ };

    /// How another name stands to this one in byte order.
    fn order_of(&self, other: &[u8]) -> Ordering
        ensures { result ≡ slice_cmp nat_cmp other.now (sought self.now) };
}

/// A name that is looked for as it is.
#[derive(Clone, Copy)]
pub struct Whole<'a> {
    pub name: &'a [u8],
}

impl Sought for Whole<'_> {
    ghost sought = { λ s. s.name.now };

    fn order_of(&self, other: &[u8]) -> Ordering {
        other.cmp(self.name)
    }
}

/// The path of a name below a path, looked for without being joined.
#[derive(Clone, Copy)]
pub struct Below<'a> {
    pub path: &'a [u8],
    pub name: &'a [u8],
}

impl Sought for Below<'_> {
    ghost use Rattle.mapping_body.specs.Names.{joined};

    ghost sought = { λ s. joined s.path.now s.name.now };

    fn order_of(&self, other: &[u8]) -> Ordering {
        if self.path.is_empty() {
            other.cmp(self.name)
        } else {
            order_below(other, self.path, self.name)
        }
    }
}

/// How a path stands to a name below another path, in byte order.
#[tactic(auto, using(crate::proofs::Orders::orders))]
fn order_below(other: &[u8], path: &[u8], name: &[u8]) -> Ordering
    ensures { result ≡ slice_cmp nat_cmp other.now (path.now ++ (dot ∷ name.now)) }
{
    if other.len() <= path.len() {
        other.cmp(path.split_at(other.len()).0).then(Ordering::Less)
    } else {
        let (front, back) = other.split_at(path.len());
        front.cmp(path).then(order_behind(back, name))
    }
}

/// How the rest of a path stands to a dot and a name, in byte order.
fn order_behind(rest: &[u8], name: &[u8]) -> Ordering
    ensures { result ≡ slice_cmp nat_cmp rest.now (dot ∷ name.now) }
{
    match rest {
        [] => Ordering::Less,
        [byte, more @ ..] => byte.cmp(&DOT).then(more.cmp(name)),
    }
}

/// The place of a name, found in about log2 of their number comparisons.
pub fn place_of<T: Named, S: Sought>(items: &[T], sought: &S) -> Option<usize>
    requires { AreAscending (map T.name items.now) }
    ensures place { result ≡ place_of (S.sought sought.now) (map T.name items.now) }
    ensures bound { IfSome result (λ place. place < length items.now) }
{
    items
        .binary_search_by(|item| sought.order_of(item.name()))
        .ok()
}

/// The name of an item by its number, and the empty name past the end.
fn name_at<T: Named>(items: &[T], number: u32) -> &[u8]
    ensures { result.now ≡ name_at (map T.name items.now) number }
{
    match items.get(number as usize) {
        Some(item) => item.name(),
        None => b"",
    }
}

/// The number of a name among items, by their numbers in byte order of the names.
pub fn number_among<T: Named, S: Sought>(items: &[T], order: &[u32], sought: &S) -> Option<u32>
    requires { IsOrderFrom 0 (map T.name items.now) order.now }
    ensures place { result ≡ place_of (S.sought sought.now) (map T.name items.now) }
    ensures bound { IfSome result (λ number. number < length items.now) }
{
    match order.binary_search_by(|number| sought.order_of(name_at(items, *number))) {
        Ok(place) => Some(order[place]),
        Err(_) => None,
    }
}

/// Puts an item at its place in the byte order of names. Where its name is there already, nothing changes.
pub fn put<T: Named + Drop>(items: &mut Vec<T>, item: T) -> Result<(), NoMemory>
    requires { AreAscending (map T.name items.old.items) }
    ensures put { OnOk result (items.new.items ≡ put T.name item items.old.items) }
    ensures ascending { OnOk result (AreAscending (map T.name items.new.items)) }
{
    match items.binary_search_by(|other| other.name().cmp(item.name())) {
        Ok(_) => Ok(()),
        Err(place) => {
            items.insert(place, item)?;
            Ok(())
        }
    }
}

/// The path of a name below a path: a dot joins them, and the root's path is empty.
pub fn joined(alloc: Global, path: &[u8], name: &[u8]) -> Result<Vec<u8>, NoMemory>
    ensures { IfOk result (λ v. v.items ≡ joined path.now name.now) }
{
    let mut whole = Vec::new(alloc);
    if !path.is_empty() {
        whole.extend_from_slice(path)?;
        whole.push(DOT)?;
    }
    whole.extend_from_slice(name)?;
    Ok(whole)
}

/// Whether the names of the first path are a proper prefix of the names of the second.
pub fn lies_above(above: &[u8], path: &[u8]) -> bool
    ensures { result ≡ lies_above above.now path.now }
{
    if above.is_empty() {
        !path.is_empty()
    } else {
        goes_on(above, path)
    }
}

/// Whether the second path is the first with a further name behind a dot.
#[tactic(auto, using(crate::proofs::Ranks::goes_on_short))]
fn goes_on(above: &[u8], path: &[u8]) -> bool
    ensures { result ≡ goes_on above.now path.now }
{
    if path.len() <= above.len() {
        return false;
    }
    'bytes: for (at, byte) in above.iter().enumerate() {
        if path[at] != *byte {
            return false;
        }
    }
    path[above.len()] == DOT
}

/// Whether a name has 1 to `MOST_NAME_BYTES` bytes.
pub fn is_name(name: &[u8]) -> bool
    ensures { result ≡ is_name name.now }
{
    !name.is_empty() && name.len() <= MOST_NAME_BYTES
}

/// Whether a name has a dot.
pub fn has_dot(name: &[u8]) -> bool
    ensures { result ≡ has_dot name.now }
{
    name.iter().any(|byte| *byte == DOT)
}

/// How many dots a path has.
pub fn dot_count(path: &[u8]) -> usize
    ensures { result ≡ dot_count path.now }
{
    path.iter().filter(|byte| **byte == DOT).count()
}

/// Whether a name may be a property's: 1 to `MOST_NAME_BYTES` bytes and no dot.
pub fn is_property_name(name: &[u8]) -> bool
    ensures { result ≡ is_property_name name.now }
{
    is_name(name) && !has_dot(name)
}
