//! The numbers of a disk's calls.

ghost use Rattle.std.specs.Prelude.{◌≡◌};
ghost use Rattle.io_edges.specs.Calls.{is_listed};
ghost use Rattle.disk.specs.Record.{counted_call};

use io_edges::CallList;
use std::marker::Model;

/// Numbers the calls from 0, and knows which of them are to fail and how many of these were made.
#[derive(Drop)]
pub(crate) struct CallCounter {
    fails: CallList,
    call: u64,
    failed: u64,
}

impl Model for CallCounter {
    ghost use Rattle.disk.specs.Record.{CallCount};

    ghost Value = { CallCount };

    ghost view = { λ c. record { fails = c.fails; call = c.call; failed = c.failed } };
}

impl CallCounter {
    /// The next call has the number 0.
    pub(crate) fn over(fails: CallList) -> CallCounter
        ensures { result ≡ record { fails = fails; call = 0; failed = 0 } }
    {
        CallCounter {
            fails,
            call: 0,
            failed: 0,
        }
    }

    /// Counts a call, and answers whether it is to fail.
    pub(crate) fn next(&mut self) -> bool
        ensures listed { result ≡ is_listed self.old.fails self.old.call }
        ensures counted { self.new ≡ counted_call self.old }
    {
        let call = self.call;
        self.call = call.saturating_add(1);
        if !self.fails.lists(call) {
            return false;
        }
        self.failed = self.failed.saturating_add(1);
        true
    }
}
