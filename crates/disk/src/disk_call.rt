//! What a disk in memory keeps of a call.

ghost use Rattle.std.specs.Prelude.{◌≡◌, ◌<◌, ◌≤◌, length, IfOk, OnOk, OnErr};
ghost use Rattle.disk.specs.Record.{content_step, content_after};
ghost use Rattle.disk.specs.Choices.{is_sync, settled, unsettled, pending_at, pending_of};

use crate::bytes::Bytes;
use crate::file_bytes::put;
use crate::pending::Pending;
use io_edges::NoMemory;
use std::alloc::Global;

/// A call on a disk, as its record keeps it.
#[derive(Drop)]
pub(crate) enum DiskCall {
    /// A call that left the file and what a stop may leave as they were: for the length, a read, or a sync that failed.
    Look,
    /// A write of these bytes at an offset. One that wasn't done left the file as it was, and may have torn it all the same.
    Write { at: u64, bytes: Bytes, done: bool },
    /// A cut to a length. One that wasn't done left the file as it was, and may have cut it all the same.
    Cut { len: u64, done: bool },
    /// A sync that succeeded.
    Sync,
}

impl DiskCall {
    /// Does the call to the file. NoMemory: the file is as it was.
    pub(crate) fn apply(&self, file: &mut Vec<u8>) -> Result<(), NoMemory>
        ensures ok { OnOk result (file.new.items ≡ content_step self.now file.old.items) }
        ensures err { OnErr result (file.new.items ≡ file.old.items) }
    {
        match self {
            DiskCall::Write { at, bytes, done } => {
                if *done {
                    put(file, *at as usize, bytes.as_slice())?;
                }
                Ok(())
            }
            DiskCall::Cut { len, done } => {
                if *done {
                    file.truncate(*len as usize);
                }
                Ok(())
            }
            DiskCall::Look | DiskCall::Sync => Ok(()),
        }
    }

    // Whether it is a sync that succeeded.
    fn is_sync(&self) -> bool
        ensures { result ≡ is_sync self.now }
    {
        matches!(self, DiskCall::Sync)
    }

    /// What the call leaves pending.
    fn pending(&self) -> Option<Pending>
        ensures { result ≡ pending_at self.now }
    {
        match self {
            DiskCall::Write { at, bytes, .. } => Some(Pending::Written {
                at: *at,
                len: bytes.as_slice().len() as u64,
            }),
            DiskCall::Cut { len, .. } => Some(Pending::Cut { len: *len }),
            DiskCall::Look | DiskCall::Sync => None,
        }
    }
}

// Does the calls to the file. NoMemory: the file is some other one.
pub(crate) fn replay(calls: &[DiskCall], file: &mut Vec<u8>) -> Result<(), NoMemory>
    ensures { OnOk result (file.new.items ≡ content_after calls.now file.old.items) }
{
    'calls: for call in calls {
        call.apply(file)?;
    }
    Ok(())
}

// How many calls there are up to the last sync that succeeded.
pub(crate) fn settled(calls: &[DiskCall]) -> usize
    ensures count { result ≡ settled calls.now }
    ensures within { result ≤ length calls.now }
{
    let mut count = 0;
    'calls: for (index, call) in calls.iter().enumerate() {
        if call.is_sync() {
            count = index + 1;
        }
    }
    count
}

// The calls behind the last sync before this one, and this one.
pub(crate) fn unsettled(calls: &[DiskCall], call: usize) -> &[DiskCall]
    requires { call < length calls.now }
    ensures { result.now ≡ unsettled calls.now call }
{
    let settled = settled(calls.split_at(call).0);
    calls.split_at(call + 1).0.split_at(settled).1
}

// What is pending after these calls, where nothing was before them.
pub(crate) fn pending_of(alloc: Global, calls: &[DiskCall]) -> Result<Vec<Pending>, NoMemory>
    ensures { IfOk result (λ pending. pending.items ≡ pending_of calls.now) }
{
    let mut pending = Vec::new(alloc);
    'calls: for call in calls {
        if let Some(it) = call.pending() {
            pending.push(it)?;
        }
    }
    Ok(pending)
}
