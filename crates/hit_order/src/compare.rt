//! How keys of one clause compare.
ghost use Rattle.std.specs.Prelude.{◌≡◌, IfOk, if◌then◌else◌};
ghost use Rattle.std.specs.declared.cmp.Ordering.TheVariants.{Less, Greater};
ghost use Rattle.query_ast.specs.Page.{first_key, key_cmp, later_keys};
ghost use Rattle.hit_order.specs.Shown.{key_shown};

use crate::NoMemory;
use query_ast::{Direction, Key};
use std::alloc::Global;
use std::cmp::Ordering;
use tree_objects::Bytes;

/// A key that is looked at where it stands.
#[derive(Clone, Copy)]
pub(crate) enum KeyRef<'a> {
    Null,
    Number(i64),
    Written(&'a [u8]),
}

impl KeyRef<'_> {
    /// The key itself.
    pub(crate) fn owned(self, alloc: Global) -> Result<Key, NoMemory>
        ensures { IfOk result (λ key. key ≡ key_shown self.entry) }
    {
        Ok(match self {
            KeyRef::Null => Key::Null,
            KeyRef::Number(number) => Key::Number(number),
            KeyRef::Written(text) => Key::Written(Bytes::of(Vec::from_slice(alloc, text)?)),
        })
    }
}

/// The key, where it stands.
fn key_ref(key: &Key) -> KeyRef<'_>
    ensures { key_shown result ≡ key.now }
{
    match key {
        Key::Null => KeyRef::Null,
        Key::Number(number) => KeyRef::Number(*number),
        Key::Written(text) => KeyRef::Written(text.as_slice()),
    }
}

/// The first of keys; of none it is null.
pub(crate) fn first_key(keys: &[Key]) -> KeyRef<'_>
    ensures { key_shown result ≡ first_key keys.now }
{
    match keys {
        [] => KeyRef::Null,
        [first, ..] => key_ref(first),
    }
}

/// The keys but for the first.
pub(crate) fn later_keys(keys: &[Key]) -> &[Key]
    ensures { result.now ≡ later_keys keys.now }
{
    match keys {
        [] => keys,
        [_, later @ ..] => later,
    }
}

/// How two keys of a clause compare.
pub(crate) fn compared(direction: Direction, one: KeyRef<'_>, other: KeyRef<'_>) -> Ordering
    ensures { result ≡ key_cmp direction (key_shown one.entry) (key_shown other.entry) }
{
    match one {
        KeyRef::Null => match other {
            KeyRef::Null => Ordering::Equal,
            KeyRef::Number(_) => null_cmp(direction),
            KeyRef::Written(_) => null_cmp(direction),
        },
        KeyRef::Number(one) => number_cmp(direction, one, other),
        KeyRef::Written(one) => text_cmp(direction, one, other),
    }
}

/// How null compares with a key.
fn null_cmp(direction: Direction) -> Ordering
    ensures { result ≡ (if direction.null_first then Less else Greater) }
{
    if direction.null_first {
        Ordering::Less
    } else {
        Ordering::Greater
    }
}

/// How a number compares with a key.
fn number_cmp(direction: Direction, one: i64, other: KeyRef<'_>) -> Ordering
    ensures { result ≡ key_cmp direction (Key.Number one) (key_shown other.entry) }
{
    match other {
        KeyRef::Null => null_cmp(direction).reverse(),
        KeyRef::Number(other) => {
            if direction.descending {
                other.cmp(&one)
            } else {
                one.cmp(&other)
            }
        }
        KeyRef::Written(_) => {
            if direction.descending {
                Ordering::Greater
            } else {
                Ordering::Less
            }
        }
    }
}

/// How a text compares with a key.
fn text_cmp(direction: Direction, one: &[u8], other: KeyRef<'_>) -> Ordering
    ensures { result ≡ key_cmp direction (Key.Written one.now) (key_shown other.entry) }
{
    match other {
        KeyRef::Null => null_cmp(direction).reverse(),
        KeyRef::Number(_) => {
            if direction.descending {
                Ordering::Less
            } else {
                Ordering::Greater
            }
        }
        KeyRef::Written(other) => {
            if direction.descending {
                other.cmp(one)
            } else {
                one.cmp(other)
            }
        }
    }
}
