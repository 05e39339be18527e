//! A disk in memory.

ghost use Rattle.std.specs.Prelude.{◌≡◌, ◌≤◌, ◌<◌, ◌+◌, ◌-◌, ◌⊎◌, [], true, false, length, min, take, drop, IfOk, OnOk, OnErr, IsOk, IsErr, MatchResult};
ghost use Rattle.io_edges.specs.Calls.{one_more};
ghost use Rattle.io_edges.specs.Faults.{HasCause};
ghost use Rattle.disk.specs.Stops.{IsTold, GivesLen, GivesBytes, Stays, TakesAll, CutsAll, Torn, Cut as MayCut, Follows, Allows, Within, Only, Passes, Lasts};
ghost use Rattle.disk.specs.Record.{Turns, content_of, content_told, ImageTold, moment_of, SinceTold, faults_of, ImageSince, after_calls};
ghost use Rattle.disk.specs.Choices.{fits, pending_in, chosen_image};
ghost use Rattle.disk.specs.declared.disk_call.DiskCall.TheVariants.{Look, Write, Cut, Sync};

use crate::call_counter::CallCounter;
use crate::choice::{PieceChoice, choose_all};
use crate::device::Disk;
use crate::disk_call::{pending_of, replay, settled, unsettled};
use crate::pending::PendingList;
use crate::recorded_file::RecordedFile;
use io_edges::{CallList, Failed, NoMemory};
use std::alloc::Global;
use std::marker::Model;

/// A disk whose file is in memory, with a record of all its calls. A call fails where its number is in the list, and else only
/// where there is no memory for its bytes or for its entry in the record, which `no_room` counts. A call that failed left what
/// a read gives as it was; a failed write or cut that is in the record may have torn the file all the same. Once a call found no
/// memory the disk tells nothing any more.
#[derive(Drop)]
pub struct MemDisk {
    file: RecordedFile,
    count: CallCounter,
    no_room: u64,
}

impl Model for MemDisk {
    ghost use Rattle.std.specs.Prelude.{◌≡◌, length};
    ghost use Rattle.disk.specs.Record.{DiskState};

    ghost Value = { DiskState };

    ghost view = { λ d. record { file = d.file; count = d.count; no_room = d.no_room } };

    ghost invariant = { λ d. d.no_room ≡ 0 → length d.file.calls ≡ d.count.call };
}

impl MemDisk {
    /// A disk whose file has these bytes, with nothing pending, and whose first call has the number 0. NoMemory: there was none
    /// for the disk.
    pub fn over(alloc: Global, bytes: Vec<u8>, fails: CallList) -> Result<MemDisk, NoMemory>
        ensures { IfOk result (λ d. d ≡ record { file = record { first = bytes.items; calls = [] }; count = record { fails = fails; call = 0; failed = 0 }; no_room = 0 }) }
    {
        Ok(MemDisk {
            file: RecordedFile::over(alloc, bytes)?,
            count: CallCounter::over(fails),
            no_room: 0,
        })
    }

    /// How many calls found no memory, a count that stays at 2^64 - 1.
    pub fn no_room(&self) -> u64
        ensures { result ≡ self.now.no_room }
    {
        self.no_room
    }

    /// How many calls are in the record; where each call found memory, those of the numbers below it.
    pub fn calls(&self) -> u64
        ensures count { result ≡ length self.now.file.calls }
        ensures numbers { self.now.no_room ≡ 0 → result ≡ self.now.count.call }
    {
        self.file.calls().len() as u64
    }

    /// What is pending in a call of the record: the writes and cuts since the last sync before it that succeeded, in order, and
    /// the call itself where it is one. An image of a stop in that call has a choice for each. NoMemory: there was none for the list.
    pub fn pending(&self, alloc: Global, call: u64) -> Result<PendingList, NoMemory>
        requires { call < length self.now.file.calls }
        ensures { IfOk result (λ pending. pending ≡ pending_in self.now.file.calls call) }
    {
        let calls = unsettled(self.file.calls(), call as usize);
        Ok(PendingList::of(pending_of(alloc, calls)?))
    }

    /// The image of a stop in a call of the record: the file as the last sync before that call kept it, with what was chosen of
    /// each write and cut since, in order, the call itself with them. NoMemory: there was none for the image.
    pub fn image(&self, alloc: Global, call: u64, kept: &PieceChoice) -> Result<Vec<u8>, NoMemory>
        requires in_record { call < length self.now.file.calls }
        requires fits { fits kept.now (pending_in self.now.file.calls call) ≡ true }
        ensures chosen { IfOk result (λ image. image.items ≡ chosen_image kept.now self.now.file call) }

        // It is one of the images since that call began, as they were when it ended.
        ensures stop { IfOk result (λ image. ImageSince (after_calls (call + 1) self.now.file) call image.items) }
    {
        let calls = self.file.calls();
        let unsettled = unsettled(calls, call as usize);
        let settled = calls.split_at(settled(calls.split_at(call as usize).0)).0;
        let mut image = Vec::from_slice(alloc, self.file.first())?;
        replay(settled, &mut image)?;
        choose_all(kept.as_slice(), unsettled, &mut image)?;
        Ok(image)
    }

    // A call that only looks; it gives the value where it didn't fail.
    fn looked<T: Drop>(&mut self, value: T) -> Result<T, Failed>
        ensures turn { Turns Look Look self.old self.new result }
        ensures value { IfOk result (λ it. it ≡ value) }
    {
        let listed = self.count.next();
        let entered = self.file.look();
        ended(listed, entered, value, &mut self.no_room)
    }

    fn wrote(&mut self, at: u64, bytes: &[u8]) -> Result<(), Failed>
        ensures { Turns (Write at bytes.now true) (Write at bytes.now false) self.old self.new result }
    {
        let listed = self.count.next();
        let entered = self.file.write(at, bytes, !listed);
        ended(listed, entered, (), &mut self.no_room)
    }

    fn cut_short(&mut self, len: u64) -> Result<(), Failed>
        ensures { Turns (Cut len true) (Cut len false) self.old self.new result }
    {
        let listed = self.count.next();
        let entered = self.file.cut(len, !listed);
        ended(listed, entered, (), &mut self.no_room)
    }

    fn synced(&mut self) -> Result<(), Failed>
        ensures { Turns Sync Look self.old self.new result }
    {
        let listed = self.count.next();
        let entered = self.file.sync(!listed);
        ended(listed, entered, (), &mut self.no_room)
    }
}

impl Disk for MemDisk {
    ghost use Rattle.disk.specs.Record.{content_told, ImageTold, moment_of, SinceTold, faults_of};
    ghost use Rattle.disk.specs.Replay.{gives_image, counts_now, only_now};

    ghost content = { content_told };

    ghost image = { ImageTold };

    ghost moment = { moment_of };

    ghost image_since = { SinceTold };

    ghost faults = { faults_of };

    fn len(&mut self) -> Result<u64, Failed>
        ensures len { GivesLen (content_told self.old) result }
        ensures told { IsTold (content_told self.new) → IsTold (content_told self.old) }
        ensures time { Passes (moment_of self.old) (moment_of self.new) (SinceTold self.old) (SinceTold self.new) (ImageTold self.new) }
        ensures lasts { IsTold (content_told self.new) → Lasts (moment_of self.old) (SinceTold self.old) (SinceTold self.new) }
        ensures cause { HasCause (faults_of self.old) (faults_of self.new) result }
        ensures content { Stays (content_told self.old) (content_told self.new) result }
        ensures images { Within (ImageTold self.new) (ImageTold self.old) }
        ensures allowed { IsTold (content_told self.new) → Within (ImageTold self.old) (ImageTold self.new) }
        ensures length { IfOk result (λ len. len ≡ length (content_of self.old.file)) }
        ensures turn { Turns Look Look self.old self.new result }
    {
        let len = self.file.len();
        self.looked(len)
    }

    fn read(&mut self, at: u64, into: &mut [u8]) -> Result<usize, Failed>
        ensures bound { IfOk result (λ count. count ≤ length into.new) }
        ensures bytes { GivesBytes (content_told self.old) at result into.new }
        ensures told { IsTold (content_told self.new) → IsTold (content_told self.old) }
        ensures time { Passes (moment_of self.old) (moment_of self.new) (SinceTold self.old) (SinceTold self.new) (ImageTold self.new) }
        ensures lasts { IsTold (content_told self.new) → Lasts (moment_of self.old) (SinceTold self.old) (SinceTold self.new) }
        ensures cause { HasCause (faults_of self.old) (faults_of self.new) result }
        ensures content { Stays (content_told self.old) (content_told self.new) result }
        ensures images { Within (ImageTold self.new) (ImageTold self.old) }
        ensures allowed { IsTold (content_told self.new) → Within (ImageTold self.old) (ImageTold self.new) }
        ensures most { IfOk result (λ count. count ≡ min (length into.old) (length (content_of self.old.file) - at)) }
        ensures front { IfOk result (λ count. take count into.new ≡ take count (drop at (content_of self.old.file))) }
        ensures rest { MatchResult result (λ count. drop count into.new ≡ drop count into.old) (λ _. into.new ≡ into.old) }
        ensures turn { Turns Look Look self.old self.new result }
    {
        match self.looked(()) {
            Ok(()) => {}
            Err(Failed) => return Err(Failed),
        }
        Ok(self.file.read(at, into))
    }

    fn write_at(&mut self, at: u64, bytes: &[u8]) -> Result<(), Failed>
        ensures content { OnOk result (TakesAll at bytes.now (content_told self.old) (content_told self.new)) }
        ensures told { IsTold (content_told self.new) → IsTold (content_told self.old) }
        ensures time { Passes (moment_of self.old) (moment_of self.new) (SinceTold self.old) (SinceTold self.new) (ImageTold self.new) }
        ensures lasts { IsTold (content_told self.new) → Lasts (moment_of self.old) (SinceTold self.old) (SinceTold self.new) }
        ensures cause { HasCause (faults_of self.old) (faults_of self.new) result }
        ensures images { Follows (Torn at (length bytes.now)) (ImageTold self.old) (ImageTold self.new) }
        ensures allowed { IsTold (content_told self.new) → Allows (Torn at (length bytes.now)) (ImageTold self.old) (ImageTold self.new) }
        ensures turn { Turns (Write at bytes.now true) (Write at bytes.now false) self.old self.new result }
    {
        self.wrote(at, bytes)
    }

    fn sync(&mut self) -> Result<(), Failed>
        ensures content { OnOk result (content_told self.new ≡ content_told self.old) }
        ensures only { OnOk result (Only (content_told self.new) (ImageTold self.new)) }
        ensures told { IsTold (content_told self.new) → IsTold (content_told self.old) }
        ensures time { Passes (moment_of self.old) (moment_of self.new) (SinceTold self.old) (SinceTold self.new) (ImageTold self.new) }
        ensures lasts { IsTold (content_told self.new) → Lasts (moment_of self.old) (SinceTold self.old) (SinceTold self.new) }
        ensures cause { HasCause (faults_of self.old) (faults_of self.new) result }
        ensures images { Within (ImageTold self.new) (ImageTold self.old) }
        ensures allowed { OnErr result (IsTold (content_told self.new) → Within (ImageTold self.old) (ImageTold self.new)) }
        ensures turn { Turns Sync Look self.old self.new result }
    {
        self.synced()
    }

    fn cut(&mut self, len: u64) -> Result<(), Failed>
        ensures content { OnOk result (CutsAll len (content_told self.old) (content_told self.new)) }
        ensures told { IsTold (content_told self.new) → IsTold (content_told self.old) }
        ensures time { Passes (moment_of self.old) (moment_of self.new) (SinceTold self.old) (SinceTold self.new) (ImageTold self.new) }
        ensures lasts { IsTold (content_told self.new) → Lasts (moment_of self.old) (SinceTold self.old) (SinceTold self.new) }
        ensures cause { HasCause (faults_of self.old) (faults_of self.new) result }
        ensures images { Follows (MayCut len) (ImageTold self.old) (ImageTold self.new) }
        ensures allowed { IsTold (content_told self.new) → Allows (MayCut len) (ImageTold self.old) (ImageTold self.new) }
        ensures turn { Turns (Cut len true) (Cut len false) self.old self.new result }
    {
        self.cut_short(len)
    }

    ghost gives_image = { λ disk bytes told. gives_image disk bytes told };

    ghost counts_now = { λ disk since bytes before is. counts_now disk since bytes before is };

    ghost only_now = { λ disk bytes since. only_now disk bytes since };
}

// How a call ends that found memory, or didn't: it failed where it was listed, and where it found none, which is counted.
fn ended<T: Drop>(
    listed: bool,
    entered: Result<(), NoMemory>,
    value: T,
    no_room: &mut u64,
) -> Result<T, Failed>
    ensures ok { OnOk result ((listed ≡ false) × IsOk entered) }
    ensures err { OnErr result ((listed ≡ true) ⊎ IsErr entered) }
    ensures value { IfOk result (λ it. it ≡ value) }
    ensures room { MatchResult entered (λ _. no_room.new ≡ no_room.old) (λ _. no_room.new ≡ one_more no_room.old) }
{
    if entered.is_err() {
        *no_room = no_room.saturating_add(1);
        return Err(Failed);
    }
    if listed { Err(Failed) } else { Ok(value) }
}
