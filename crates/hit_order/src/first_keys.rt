//! The first keys that the rows of a page can have.
ghost use Rattle.std.specs.Prelude.{◌≡◌, ◌++◌, ◌∷◌, ◌-◌, ◌≤◌, [], List, None, Bool, map, true, false, length, slice_get, vec_capacity, IfOk, IfSome, OnOk, option_map};
ghost use Rattle.std.specs.List.{AllByRecursion, count_by};
ghost use Rattle.query_ast.specs.declared.sort.Key.{Key as RowKey};
ghost use Rattle.hit_order.specs.Reach.{AreMet, IsNarrower, first_of_row, is_late, is_near, is_next, is_within, key_before};
ghost use Rattle.hit_order.specs.Shown.{key_shown};
ghost use Rattle.hit_order.specs.Table.{number_or_null};

use crate::NoMemory;
use crate::compare::{KeyRef, compared, first_key};
use query_ast::{Direction, Key, KeyRow, rows_stand_in_order};
use std::alloc::Global;
use std::marker::Model;
use std::mem::swap;

/// Which first keys the rows of a page can have, where these are numbers or null, by the keys that were met so far.
///
/// It keeps at most twice as many keys as the page has rows, and has room for as many, in which those are put that are
/// left when the keys are cut.
#[derive(Drop)]
pub struct FirstKeys<'a> {
    direction: Direction,
    after: Option<KeyRef<'a>>,
    most: usize,
    bound: Option<Option<i64>>,
    keys: Vec<Option<i64>>,
    room: Vec<Option<i64>>,
}

impl<'a> Model for FirstKeys<'a> {
    ghost use Rattle.std.specs.Prelude.{◌≡◌, ◌≤◌, [], true, map, length, option_map, vec_capacity};
    ghost use Rattle.std.specs.List.{AllByRecursion};
    ghost use Rattle.hit_order.specs.Reach.{Met, met_code, is_near};
    ghost use Rattle.hit_order.specs.Shown.{key_shown};
    ghost use Rattle.hit_order.specs.Table.{number_or_null};

    ghost Value = { Met };

    ghost coded = { met_code };

    ghost view = { λ it. record { direction = it.direction; after = option_map key_shown it.after; most = it.most; bound = option_map number_or_null it.bound; keys = map number_or_null it.keys.items } };

    ghost invariant = { λ it. AllByRecursion (λ key. is_near it.direction (option_map number_or_null it.bound) (number_or_null key) ≡ true) it.keys.items × (it.room.items ≡ []) × (length it.keys.items ≤ vec_capacity it.room) };
}

impl<'a> FirstKeys<'a> {
    /// Those of a page of so many rows behind one, if it is named, before any is met. Takes no memory.
    pub fn of(
        alloc: Global,
        direction: Direction,
        after: Option<&'a KeyRow>,
        most: usize,
    ) -> FirstKeys<'a>
        ensures { result ≡ record { direction = direction; after = option_map (λ row. first_of_row row.now) after.entry; most = most; bound = None; keys = [] } }
    {
        FirstKeys {
            direction,
            after: match after {
                Some(row) => Some(first_key(row.keys.as_slice())),
                None => None,
            },
            most,
            bound: None,
            keys: Vec::new(alloc),
            room: Vec::new(alloc),
        }
    }

    /// Whether a row with this first key can be on the page, as far as is known.
    pub fn is_within(&self, key: Option<i64>) -> bool
        ensures { result ≡ is_within self.now.direction self.now.after self.now.bound (number_or_null key) }
    {
        self.is_late(key) && self.is_near(key)
    }

    /// Whether a row with this first key can be on the page. It is met: of the keys behind it, fewer may be within reach then.
    pub fn offer(&mut self, key: Option<i64>) -> Result<bool, NoMemory>
        ensures within { IfOk result (λ within. within ≡ is_within self.old.direction self.old.after self.old.bound (number_or_null key)) }
        ensures narrower { OnOk result (IsNarrower self.old self.new) }
        ensures met { OnOk result ((all : List RowKey) → AreMet all self.old → AreMet (all ++ number_or_null key ∷ []) self.new) }
    {
        if !self.is_within(key) {
            return Ok(false);
        }
        if self.is_next(key) {
            self.keep(key)?;
        }
        Ok(true)
    }

    /// Narrows what is within reach to the keys that were met so far.
    pub fn narrow(&mut self)
        ensures narrower { IsNarrower self.old self.new }
        ensures met { (all : List RowKey) → AreMet all self.old → AreMet all self.new }
    {
        rows_stand_in_order::<Key>();
        if self.keys.len() < self.most {
            return;
        }
        let last = cut(self.direction, self.most, &mut self.keys, &mut self.room);
        if let Some(last) = last {
            self.bound = Some(last);
        }
    }

    /// Whether a key doesn't stand before that of the row to go on behind.
    fn is_late(&self, key: Option<i64>) -> bool
        ensures { result ≡ is_late self.now.direction self.now.after (number_or_null key) }
    {
        match self.after {
            None => true,
            Some(after) => !compared(self.direction, number_ref(key), after).is_lt(),
        }
    }

    /// Whether it stands strictly behind that.
    fn is_next(&self, key: Option<i64>) -> bool
        ensures { result ≡ is_next self.now.direction self.now.after (number_or_null key) }
    {
        match self.after {
            None => true,
            Some(after) => compared(self.direction, after, number_ref(key)).is_lt(),
        }
    }

    /// Whether it doesn't stand behind the bound of what is within reach, where there is one.
    pub fn is_near(&self, key: Option<i64>) -> bool
        ensures { result ≡ is_near self.now.direction self.now.bound (number_or_null key) }
    {
        match self.bound {
            None => true,
            Some(bound) => !compared(self.direction, number_ref(bound), number_ref(key)).is_lt(),
        }
    }

    /// Keeps a key that is within reach and behind that of the row to go on behind.
    fn keep(&mut self, key: Option<i64>) -> Result<(), NoMemory>
        requires near { is_near self.old.direction self.old.bound (number_or_null key) ≡ true }
        requires next { is_next self.old.direction self.old.after (number_or_null key) ≡ true }
        ensures narrower { OnOk result (IsNarrower self.old self.new) }
        ensures met { OnOk result ((all : List RowKey) → AreMet all self.old → AreMet (all ++ number_or_null key ∷ []) self.new) }
    {
        self.room.reserve(self.keys.len() + 1)?;
        self.keys.push(key)?;
        if self.keys.len() / 2 < self.most {
            return Ok(());
        }
        self.narrow();
        Ok(())
    }
}

/// Keeps the first so many keys, in no order but that the last of them comes last. It gives that one, and takes no memory.
fn cut(
    direction: Direction,
    most: usize,
    keys: &mut Vec<Option<i64>>,
    room: &mut Vec<Option<i64>>,
) -> Option<Option<i64>>
    requires enough { most ≤ length keys.old.items }
    requires empty { room.old.items ≡ [] }
    requires fits { length keys.old.items ≤ vec_capacity room.old }
    ensures counted { (test : RowKey → Bool) → count_by test (map number_or_null keys.new.items) ≤ count_by test (map number_or_null keys.old.items) }
    ensures all { (test : RowKey → Bool) → AllByRecursion (λ key. test (number_or_null key) ≡ true) keys.old.items → AllByRecursion (λ key. test (number_or_null key) ≡ true) keys.new.items }
    ensures long { length keys.new.items ≡ most }
    ensures last { result ≡ slice_get keys.new.items (length keys.new.items - 1) }
    ensures least { IfSome result (λ bound. AllByRecursion (λ key. key_before direction (number_or_null bound) (number_or_null key) ≡ false) keys.new.items) }
    ensures empty { room.new.items ≡ [] }
    ensures fits { length keys.new.items ≤ vec_capacity room.new }
{
    rows_stand_in_order::<Option<i64>>();
    let Some(place) = most.checked_sub(1) else {
        keys.clear();
        return None;
    };
    let (front, last, _) = keys.select_nth_unstable_by(place, |one, other| {
        compared(direction, number_ref(*one), number_ref(*other))
    });
    let last = *last;
    room.extend_from_slice(front).unwrap();
    room.push(last).unwrap();
    swap(keys, room);
    room.clear();
    Some(last)
}

/// A number where it stands; None is null.
fn number_ref<'a>(number: Option<i64>) -> KeyRef<'a>
    ensures { key_shown result ≡ number_or_null number }
{
    match number {
        Some(number) => KeyRef::Number(number),
        None => KeyRef::Null,
    }
}
