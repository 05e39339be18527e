//! Where the rows of a part stand in the bytes of a segment.

ghost use Rattle.std.specs.Prelude.{◌≡◌, ◌+◌, ◌<◌, [], ◌∷◌, ◌++◌, length, IfOk, OnOk, OnErr};
ghost use Rattle.part_text.specs.Places.{row, ArePlaces};

use crate::NoMemory;
use std::alloc::Global;
use std::marker::Model;

/// The place of each row in bytes, counted from their front, and behind them the end of the last row.
#[derive(Drop)]
pub struct PlaceList {
    places: Vec<u64>,
}

impl Model for PlaceList {
    ghost use Rattle.std.specs.Prelude.{ℕ, List};

    ghost Value = { List ℕ };

    ghost view = { λ list. list.places.items };
}

impl PlaceList {
    /// The places of no rows: the first would stand at this place.
    pub fn beginning_at(alloc: Global, place: u64) -> Result<PlaceList, NoMemory>
        ensures { IfOk result (λ list. list ≡ place ∷ []) }
    {
        let mut places = Vec::new(alloc);
        places.push(place)?;
        Ok(PlaceList { places })
    }

    /// Makes room for so many more rows, and for no more than these. After NoMemory the list is as it was.
    pub fn reserve(&mut self, rows: usize) -> Result<(), NoMemory>
        ensures { self.new ≡ self.old }
    {
        Ok(self.places.reserve_exact(rows)?)
    }

    /// Appends the end of one more row. After NoMemory the list is as it was.
    pub fn push(&mut self, end: u64) -> Result<(), NoMemory>
        ensures pushed { OnOk result (self.new ≡ self.old ++ end ∷ []) }
        ensures unchanged { OnErr result (self.new ≡ self.old) }
    {
        Ok(self.places.push(end)?)
    }

    /// The places, in order.
    pub fn as_slice(&self) -> &[u64]
        ensures { result.now ≡ self.now }
    {
        self.places.as_slice()
    }
}

/// The bytes of row `at`: from its place up to the next.
pub fn row<'a>(places: &[u64], bytes: &'a [u8], at: usize) -> &'a [u8]
    requires places { ArePlaces places.now (length bytes.now) }
    requires below { at + 1 < length places.now }
    ensures { result.now ≡ row places.now bytes.now at }
{
    &bytes[places[at] as usize..places[at + 1] as usize]
}
