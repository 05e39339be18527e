//! The store: what it knows of its last commit, and the calls that change its file.

ghost use Rattle.std.specs.Prelude.{◌≡◌, ◌≤◌, ◌^◌, ℕ};
ghost use Rattle.commit_store.specs.Saying.{AreExtents};
ghost use Rattle.commit_store.specs.Known.{IsStore};
ghost use Rattle.commit_store.specs.Preparing.{end_named, idle_side};

use crate::known::KnownSegment;
use extent_pool::{Extent, ExtentList};
use std::alloc::Global;
use std::marker::Model;
use store_text::{HEADER_SIZE, Side};

/// What is known of a store's file between two calls: its last commit, the greatest generation, and the gate that may be open.
#[derive(Drop)]
pub struct Store {
    pub(crate) alloc: Global,
    pub(crate) limit: u64,
    pub(crate) side: Option<Side>,
    pub(crate) known: Vec<KnownSegment>,
    pub(crate) named: ExtentList,
    pub(crate) tried: u64,
    pub(crate) closed: bool,
}

impl Model for Store {
    ghost use Rattle.commit_store.specs.Known.{StoreState, IsStore};

    ghost Value = { StoreState };

    ghost view = { λ it. record { limit = it.limit; side = it.side; known = it.known.items; named = it.named.extents; tried = it.tried; closed = it.closed } };

    ghost invariant = { λ it. IsStore (record { limit = it.limit; side = it.side; known = it.known.items; named = it.named.extents; tried = it.tried; closed = it.closed }) };
}

impl Store {
    /// The store that opening found: of at most `limit` bytes, with its last commit in this slot, or none, which names these
    /// extents and has these segments; `tried` is the greatest generation in an open slot, and `closed` says whether the gate of
    /// the idle slot was read as closed. Takes no memory.
    pub fn over(
        alloc: Global,
        limit: u64,
        side: Option<Side>,
        known: Vec<KnownSegment>,
        named: ExtentList,
        tried: u64,
        closed: bool,
    ) -> Store
        requires { IsStore (record { limit = limit; side = side; known = known.items; named = named.extents; tried = tried; closed = closed }) }
        ensures { result ≡ record { limit = limit; side = side; known = known.items; named = named.extents; tried = tried; closed = closed } }
    {
        Store {
            alloc,
            limit,
            side,
            known,
            named,
            tried,
            closed,
        }
    }

    /// The greatest length of the store's file, in bytes. Takes no memory.
    pub fn limit(&self) -> u64
        ensures limit { result ≡ self.now.limit }
        ensures store { IsStore self.now }
    {
        self.limit
    }

    /// The end of the last extent that the last commit names, in bytes; that of the header where there is none. Takes no memory.
    pub fn named_end(&self) -> u64
        ensures end { result ≡ end_named self.now.named }
        ensures store { IsStore self.now }
    {
        end_of(self.named.as_slice())
    }
}

/// The slot that the next commit takes.
pub(crate) fn idle_slot(side: Option<Side>) -> Side
    ensures { result ≡ idle_side side }
{
    match side {
        Some(side) => side.other(),
        None => Side::A,
    }
}

/// The greatest end of these extents, in bytes, and no less than that of the header.
#[tactic(auto, using(crate::proofs::Sizes::named_behind))]
fn end_of(extents: &[Extent]) -> u64
    requires { (limit : ℕ) × AreExtents limit extents.now × (limit ≤ 2 ^ 38) }
    ensures { result ≡ end_named extents.now }
{
    let mut end = HEADER_SIZE;
    for extent in extents {
        end = end.max(extent.at + extent.len);
    }
    end
}
