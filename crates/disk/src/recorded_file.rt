//! A file in memory with the record of the calls on it.

ghost use Rattle.std.specs.Prelude.{◌≡◌, ◌≤◌, ◌<◌, ◌-◌, ◌^◌, [], true, cond, length, min, take, drop, IfOk, OnOk, OnErr};
ghost use Rattle.disk.specs.Record.{content_of, with_call};
ghost use Rattle.disk.specs.declared.disk_call.DiskCall.TheVariants.{Look, Write, Cut, Sync};

use crate::bytes::Bytes;
use crate::disk_call::DiskCall;
use io_edges::NoMemory;
use std::alloc::Global;
use std::marker::Model;

/// A file, its bytes before the first call, and the calls in order.
#[derive(Drop)]
pub(crate) struct RecordedFile {
    alloc: Global,
    first: Vec<u8>,
    bytes: Vec<u8>,
    calls: Vec<DiskCall>,
}

impl Model for RecordedFile {
    ghost use Rattle.std.specs.Prelude.{◌≡◌};
    ghost use Rattle.disk.specs.Record.{FileRecord, content_after};

    ghost Value = { FileRecord };

    ghost view = { λ f. record { first = f.first.items; calls = f.calls.items } };

    ghost invariant = { λ f. f.bytes.items ≡ content_after f.calls.items f.first.items };
}

impl RecordedFile {
    /// A file with these bytes and no call.
    pub(crate) fn over(alloc: Global, bytes: Vec<u8>) -> Result<RecordedFile, NoMemory>
        ensures { IfOk result (λ file. file ≡ record { first = bytes.items; calls = [] }) }
    {
        Ok(RecordedFile {
            alloc,
            first: Vec::from_slice(alloc, bytes.as_slice())?,
            bytes,
            calls: Vec::new(alloc),
        })
    }

    /// The length of the file.
    pub(crate) fn len(&self) -> u64
        ensures { result ≡ length (content_of self.now) }
    {
        self.bytes.len() as u64
    }

    /// Reads from an offset on: as many bytes as fit the piece and are left.
    pub(crate) fn read(&self, at: u64, into: &mut [u8]) -> usize
        ensures most { result ≡ min (length into.old) (length (content_of self.now) - at) }
        ensures bytes { take result into.new ≡ take result (drop at (content_of self.now)) }
        ensures rest { drop result into.new ≡ drop result into.old }
    {
        let from = self.bytes.len().min(at as usize);
        let rest = self.bytes.as_slice().split_at(from).1;
        let count = rest.len().min(into.len());
        into.split_at_mut(count)
            .0
            .copy_from_slice(rest.split_at(count).0);
        count
    }

    /// Enters a call that only looked.
    pub(crate) fn look(&mut self) -> Result<(), NoMemory>
        ensures ok { OnOk result (self.new ≡ with_call Look self.old) }
        ensures err { OnErr result (self.new ≡ self.old) }
        ensures few { OnOk result (length self.new.calls < 2 ^ 64) }
    {
        self.enter(DiskCall::Look)
    }

    /// Does a write and enters it; one that is to fail is only entered.
    pub(crate) fn write(&mut self, at: u64, bytes: &[u8], done: bool) -> Result<(), NoMemory>
        ensures ok { OnOk result (self.new ≡ with_call (Write at bytes.now done) self.old) }
        ensures err { OnErr result (self.new ≡ self.old) }
        ensures few { OnOk result (length self.new.calls < 2 ^ 64) }
    {
        let copy = Vec::from_slice(self.alloc, bytes)?;
        self.enter(DiskCall::Write {
            at,
            bytes: Bytes::of(copy),
            done,
        })
    }

    /// Does a cut and enters it; one that is to fail is only entered.
    pub(crate) fn cut(&mut self, len: u64, done: bool) -> Result<(), NoMemory>
        ensures ok { OnOk result (self.new ≡ with_call (Cut len done) self.old) }
        ensures err { OnErr result (self.new ≡ self.old) }
        ensures few { OnOk result (length self.new.calls < 2 ^ 64) }
    {
        self.enter(DiskCall::Cut { len, done })
    }

    /// Enters a sync; one that is to fail only looked.
    pub(crate) fn sync(&mut self, done: bool) -> Result<(), NoMemory>
        ensures ok { OnOk result (self.new ≡ with_call (cond done Sync Look) self.old) }
        ensures err { OnErr result (self.new ≡ self.old) }
        ensures few { OnOk result (length self.new.calls < 2 ^ 64) }
    {
        self.enter(if done { DiskCall::Sync } else { DiskCall::Look })
    }

    /// The calls, in order.
    pub(crate) fn calls(&self) -> &[DiskCall]
        ensures { result.now ≡ self.now.calls }
    {
        self.calls.as_slice()
    }

    /// The file before the first call.
    pub(crate) fn first(&self) -> &[u8]
        ensures { result.now ≡ self.now.first }
    {
        self.first.as_slice()
    }

    // Does a call to the file and enters it.
    #[tactic(auto, using(crate::specs::Replay::content_push))]
    fn enter(&mut self, call: DiskCall) -> Result<(), NoMemory>
        ensures ok { OnOk result (self.new ≡ with_call call self.old) }
        ensures err { OnErr result (self.new ≡ self.old) }
        ensures few { OnOk result (length self.new.calls < 2 ^ 64) }
    {
        self.calls.reserve(1)?;
        call.apply(&mut self.bytes)?;
        self.calls.push(call).unwrap();
        Ok(())
    }
}
