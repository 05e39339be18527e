//! A sink in memory.

ghost use Rattle.std.specs.Prelude.{◌≡◌, ◌≤◌, ◌<◌, ◌+◌, ◌⊎◌, [], ◌++◌, true, length, Some, Ok, IfOk, OnOk, OnErr, IsErr};
ghost use Rattle.std.specs.Io.KnownBytes.{WriteAppends};
ghost use Rattle.io_edges.specs.Faults.{HasCause, Rose};
ghost use Rattle.io_edges.specs.Calls.{is_listed, one_more};
ghost use Rattle.io_edges.specs.Memory.{sink_after_fault};

use crate::calls::{CallList, counted};
use crate::edges::{Failed, NoMemory, Sink};
use std::alloc::Global;
use std::marker::Model;

/// A sink that keeps what it takes. A write takes the whole piece. It fails where its number is in the list, and else
/// only where the bytes don't fit what is reserved and there is no memory for more, which `no_room` counts apart.
#[derive(Drop)]
pub struct MemSink {
    taken: Vec<u8>,
    fails: CallList,
    call: u64,
    failed: u64,
    no_room: u64,
}

impl Model for MemSink {
    ghost use Rattle.std.specs.Vec.{vec_capacity};
    ghost use Rattle.io_edges.specs.Memory.{SinkState};

    ghost Value = { SinkState };

    ghost view = { λ s. record { taken = s.taken.items; reserved = vec_capacity s.taken; fails = s.fails; call = s.call; faults = s.failed; no_room = s.no_room } };
}

impl MemSink {
    /// A sink that has taken nothing, whose first write has the number 0. NoMemory: there was none for the sink.
    pub fn over(alloc: Global, fails: CallList) -> Result<MemSink, NoMemory>
        ensures { IfOk result (λ s. s ≡ record { taken = []; reserved = 0; fails = fails; call = 0; faults = 0; no_room = 0 }) }
    {
        Ok(MemSink {
            taken: Vec::new(alloc),
            fails,
            call: 0,
            failed: 0,
            no_room: 0,
        })
    }

    /// The bytes taken so far, in order.
    pub fn taken(&self) -> &[u8]
        ensures { result.now ≡ self.now.taken }
    {
        self.taken.as_slice()
    }

    /// How many writes failed for want of memory, a count that stays at 2^64 - 1.
    pub fn no_room(&self) -> u64
        ensures { result ≡ self.now.no_room }
    {
        self.no_room
    }
}

impl Sink for MemSink {
    ghost use Rattle.std.specs.Prelude.{Some};

    ghost taken = { λ s. Some s.taken };

    ghost faults = { λ s. s.faults };

    fn write(&mut self, piece: &[u8]) -> Result<usize, Failed>
        ensures bound { IfOk result (λ count. count ≤ length piece.now) }
        ensures some { result ≡ Ok 0 → length piece.now ≡ 0 }
        ensures bytes { WriteAppends (Some self.old.taken) (Some self.new.taken) result piece.now }
        ensures cause { HasCause self.old.faults self.new.faults result }
        ensures all { IfOk result (λ count. count ≡ length piece.now) }
        ensures listed { is_listed self.old.fails self.old.call ≡ true → IsErr result }
        ensures room { OnErr result ((is_listed self.old.fails self.old.call ≡ true) ⊎ (Rose self.old.no_room self.new.no_room × (self.old.reserved < length self.old.taken + length piece.now))) }
        ensures ok { OnOk result (self.new ≡ record self.old { taken = self.old.taken ++ piece.now; reserved = self.new.reserved; call = one_more self.old.call }) }
        ensures reserved { self.old.reserved ≤ self.new.reserved }
        ensures err { OnErr result (self.new ≡ record (sink_after_fault self.old) { reserved = self.new.reserved }) }
    {
        let call = self.call;
        self.call = counted(call);
        if self.fails.lists(call) {
            self.failed = counted(self.failed);
            return Err(Failed);
        }
        if self.taken.extend_from_slice(piece).is_err() {
            self.failed = counted(self.failed);
            self.no_room = counted(self.no_room);
            return Err(Failed);
        }
        Ok(piece.len())
    }
}
