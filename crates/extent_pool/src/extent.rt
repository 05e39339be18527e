//! Extents of a file in whole units, and lists of them.
ghost use Rattle.std.specs.Prelude.{◌≡◌, ◌+◌, ◌≤◌, ◌<◌, ◌^◌, [], ◌∷◌, ◌++◌, length, insert, remove, slice_set, OnOk, nat_le};
ghost use Rattle.extent_pool.specs.Extents.{end_of, room_of};

use std::alloc::AllocError;
use std::marker::Model;

/// How many bytes a unit has. Extents begin at a multiple of it, and keep whole units.
pub const UNIT: u64 = 64;

/// A part of a file: `len` bytes from `at` on.
#[derive(Clone, Copy, Debug, PartialEq, Eq)]
pub struct Extent {
    pub at: u64,
    pub len: u64,
}

impl Extent {
    /// The first byte past its units.
    pub(crate) fn end(&self) -> u64
        requires { end_of self.now < 2 ^ 64 }
        ensures { result ≡ end_of self.now }
    {
        self.at + self.len.next_multiple_of(UNIT)
    }

    /// Whether its units end at the limit or before. It counts in units, so that no length is too long to be rounded.
    pub(crate) fn is_within(&self, limit: u64) -> bool
        ensures { result ≡ nat_le (end_of self.now) limit }
    {
        self.at <= limit && self.len.div_ceil(UNIT) <= (limit - self.at) / UNIT
    }
}

/// Extents of a file, or holes between them.
#[derive(Drop)]
pub struct ExtentList {
    extents: Vec<Extent>,
}

impl Model for ExtentList {
    ghost use Rattle.std.specs.Prelude.{◌-◌, vec_len, vec_capacity};
    ghost use Rattle.extent_pool.specs.Extents.{Extents};

    ghost Value = { Extents };

    ghost view = { λ l. record { extents = l.extents.items; spare = vec_capacity l.extents - vec_len l.extents } };
}

impl ExtentList {
    /// The list of these extents. Takes no memory.
    pub fn of(extents: Vec<Extent>) -> ExtentList
        ensures { result.extents ≡ extents.items }
    {
        ExtentList { extents }
    }

    /// The vector again. Takes no memory.
    pub fn into_vec(self) -> Vec<Extent>
        ensures { result.items ≡ self.extents }
    {
        let ExtentList { extents } = self;
        extents
    }

    /// The extents, in order.
    pub fn as_slice(&self) -> &[Extent]
        ensures { result.now ≡ self.now.extents }
    {
        self.extents.as_slice()
    }

    /// Makes room for so many more.
    pub(crate) fn reserve(&mut self, more: usize) -> Result<(), AllocError>
        ensures extents { self.new.extents ≡ self.old.extents }
        ensures room_stays { self.old.spare ≤ self.new.spare }
        ensures ok { OnOk result (more ≤ self.new.spare) }
    {
        self.extents.reserve(more)
    }

    pub(crate) fn put(&mut self, place: usize, extent: Extent)
        requires place { place ≤ length self.old.extents }
        requires room { 1 ≤ self.old.spare }
        ensures extents { self.new.extents ≡ insert self.old.extents place extent }
        ensures room { room_of self.new ≡ room_of self.old }
    {
        self.extents.insert(place, extent).unwrap()
    }

    pub(crate) fn push(&mut self, extent: Extent)
        requires { 1 ≤ self.old.spare }
        ensures extents { self.new.extents ≡ self.old.extents ++ extent ∷ [] }
        ensures spare { self.new.spare + 1 ≡ self.old.spare }
    {
        self.extents.push_reserved(extent)
    }

    pub(crate) fn remove(&mut self, place: usize)
        requires { place < length self.old.extents }
        ensures extents { self.new.extents ≡ remove self.old.extents place }
        ensures room { room_of self.new ≡ room_of self.old }
    {
        self.extents.remove(place);
    }

    pub(crate) fn set(&mut self, place: usize, extent: Extent)
        requires { place < length self.old.extents }
        ensures extents { self.new.extents ≡ slice_set self.old.extents place extent }
        ensures room { room_of self.new ≡ room_of self.old }
    {
        self.extents[place] = extent;
    }
}
