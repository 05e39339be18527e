//! The counter of stored sources that were read.
//!
//! A search may read the sources of the hits that it prints and of the joined trees among their inner hits, an update the live
//! one, and nothing else reads any. `Steps` counts these reads: a call that reads a stored source ticks it once, and each
//! contract says by how much the count may rise.
//! The counter takes no bytes and no time when the program runs. It stands on `std` alone.
#![tactic(auto)]

ghost use Rattle.std.specs.Prelude.{◌≡◌, ◌+◌, ◌<◌};

use std::marker::Model;
use std::sync::ledger::{Blank, Book, Ledger, Share};

/// How many stored sources were read. It takes no bytes, and only `tick` changes it.
///
/// The ledger `L` is the name under which a caller counts, so that two counters are not mixed up.
#[derive(Drop)]
pub struct Steps<L: Ledger> {
    book: Book<L>,
    share: Share<L>,
}

impl<L: Ledger> Model for Steps<L> {
    ghost use Rattle.std.specs.Prelude.{ℕ, ◌<◌};

    ghost Value = { ℕ };

    ghost view = { λ steps. steps.book.total };

    ghost invariant = { λ steps. 0 < steps.share.parts };
}

impl<L: Ledger> Steps<L> {
    /// A counter at 0.
    pub fn start(blank: Blank) -> Self
        requires name { L.name ≡ blank.name }
        requires parts { L.parts ≡ blank.parts }
        requires some { 0 < blank.parts }
        ensures { result ≡ 0 }
    {
        let (book, share) = blank.open();
        Steps { book, share }
    }

    /// Counts one read of a stored source.
    pub fn tick(&mut self)
        ensures { self.new ≡ self.old + 1 }
    {
        self.book.add(&mut self.share, 1);
    }
}
