//! A source in memory.

ghost use Rattle.std.specs.Prelude.{◌≡◌, ◌≤◌, ◌↔◌, true, length, min, drop, Some, IfOk, OnErr, IsErr, MatchResult};
ghost use Rattle.std.specs.Io.KnownBytes.{ReadConsumes};
ghost use Rattle.io_edges.specs.Faults.{HasCause};
ghost use Rattle.io_edges.specs.Calls.{is_listed, one_more};
ghost use Rattle.io_edges.specs.Memory.{source_after_fault};

use crate::calls::{CallList, counted};
use crate::edges::{Failed, NoMemory, Source};
use std::alloc::Global;
use std::marker::Model;

/// A source over bytes in memory. A read gives as many bytes as fit the piece and are left, and fails exactly where
/// its number is in the list.
#[derive(Drop)]
pub struct MemSource {
    bytes: Vec<u8>,
    at: usize,
    fails: CallList,
    call: u64,
    failed: u64,
}

impl Model for MemSource {
    ghost use Rattle.std.specs.Prelude.{◌≤◌, drop, length};
    ghost use Rattle.io_edges.specs.Memory.{SourceState};

    ghost Value = { SourceState };

    ghost view = { λ s. record { left = drop s.at s.bytes.items; fails = s.fails; call = s.call; faults = s.failed } };

    ghost invariant = { λ s. s.at ≤ length s.bytes.items };
}

impl MemSource {
    /// A source of these bytes, whose first read has the number 0. NoMemory: there was none for the source.
    pub fn over(_alloc: Global, bytes: Vec<u8>, fails: CallList) -> Result<MemSource, NoMemory>
        ensures { IfOk result (λ s. s ≡ record { left = bytes.items; fails = fails; call = 0; faults = 0 }) }
    {
        Ok(MemSource {
            bytes,
            at: 0,
            fails,
            call: 0,
            failed: 0,
        })
    }
}

impl Source for MemSource {
    ghost use Rattle.std.specs.Prelude.{Some};

    ghost left = { λ s. Some s.left };

    ghost faults = { λ s. s.faults };

    fn read(&mut self, into: &mut [u8]) -> Result<usize, Failed>
        ensures bound { IfOk result (λ count. count ≤ length into.new) }
        ensures bytes { ReadConsumes (Some self.old.left) (Some self.new.left) result into.new }
        ensures cause { HasCause self.old.faults self.new.faults result }
        ensures listed { IsErr result ↔ (is_listed self.old.fails self.old.call ≡ true) }
        ensures most { IfOk result (λ count. count ≡ min (length into.old) (length self.old.left)) }
        ensures rest { MatchResult result (λ count. drop count into.new ≡ drop count into.old) (λ _. into.new ≡ into.old) }
        ensures ok { IfOk result (λ count. self.new ≡ record self.old { left = drop count self.old.left; call = one_more self.old.call }) }
        ensures err { OnErr result (self.new ≡ source_after_fault self.old) }
    {
        let call = self.call;
        self.call = counted(call);
        if self.fails.lists(call) {
            self.failed = counted(self.failed);
            return Err(Failed);
        }
        let rest = self.bytes.split_at(self.at).1;
        let count = rest.len().min(into.len());
        into.split_at_mut(count)
            .0
            .copy_from_slice(rest.split_at(count).0);
        self.at += count;
        Ok(count)
    }
}
