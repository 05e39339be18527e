//! Stops: a store that a stop in a call of the disk left is opened again, and asked for what it has.

ghost use Rattle.std.specs.Prelude.{◌≡◌};

use crate::run::{Setup, disk_of, run_over};
use anyhow::{Result, bail, ensure};
use disk::{Bytes, Choice, MemDisk, Pending, PieceChoice};
use io_edges::NoMemory;
use scenario_cases::{Case, Failing};
use std::alloc::Global;

/// The most writes and cuts that may be pending in a call whose images are tried.
const MOST_PENDING: usize = 6;

/// Runs a case, stops it in each call of the disk under its requests from one on to another, and asks each store that a stop may leave:
/// each range that was written since the last sync as it was, as it was written, or with bytes 255 throughout. A line on the first that
/// answers what the case doesn't allow; None too where the case has no probe.
pub fn first_bad_stop(
    alloc: Global,
    case: &Case<'_>,
    setup: Setup<'_>,
    from_request: usize,
    until_request: usize,
    runs: &mut u64,
) -> Result<Option<String>> {
    let Some(probe) = case.settings.probe else {
        return Ok(None);
    };
    let stopped = Stopped {
        alloc,
        case,
        setup,
        probe,
    };
    let mut from = None;
    for count in from_request..until_request.saturating_add(1) {
        let mut disk = disk_of(alloc, setup)?;
        let words = case.settings.words.as_slice();
        let input = case.input_of(alloc, count)?;
        let ended = run_over(alloc, words, input, None, setup, &mut disk, runs)?;
        if let Some(from) = from {
            let found = stopped.first_bad_call(disk.record(), from, ended.calls, count, runs)?;
            if found.is_some() {
                return Ok(found);
            }
        }
        from = Some(ended.calls);
    }
    Ok(None)
}

/// A case that is stopped.
#[derive(Clone, Copy)]
struct Stopped<'a, 'b, 'c> {
    alloc: Global,
    case: &'a Case<'b>,
    setup: Setup<'c>,
    // the request that a store gets which a stop left
    probe: &'b str,
}

impl Stopped<'_, '_, '_> {
    // The same for the calls from one on to another, which are those of the last of so many requests.
    fn first_bad_call(
        &self,
        disk: &MemDisk,
        from: u64,
        until: u64,
        count: usize,
        runs: &mut u64,
    ) -> Result<Option<String>> {
        let mut before = Vec::new(self.alloc);
        let mut seen = Vec::new(self.alloc);
        for call in from..until {
            let Ok(pending) = pending_in(self.alloc, disk, call) else {
                bail!("no memory for what is pending");
            };
            ensure!(pending.len() <= MOST_PENDING, "too much is pending");
            let is_as_before = call > from && pending == before;
            before = pending;
            if is_as_before {
                continue;
            }
            let ways = ways_of(before.len());
            let found = self.first_bad_image(disk, call, ways, count, &mut seen, runs)?;
            if found.is_some() {
                return Ok(found);
            }
        }
        Ok(None)
    }

    // The same for a call that so many ways lead through, but for the images that were seen under this request.
    fn first_bad_image(
        &self,
        disk: &MemDisk,
        call: u64,
        ways: u64,
        count: usize,
        seen: &mut Vec<Vec<u8>>,
        runs: &mut u64,
    ) -> Result<Option<String>> {
        for way in 0..ways {
            let Ok(image) = image_of(self.alloc, disk, call, way) else {
                bail!("no memory for an image");
            };
            let Some(image) = image else {
                continue;
            };
            if is_among(seen.as_slice(), image.as_slice()) {
                continue;
            }
            let (status, reply) = self.asked(image.as_slice(), runs)?;
            let reply = reply.as_slice();
            let allowed = self.case.allows(count.saturating_sub(1), reply)
                || self.case.allows(count, reply);
            if status != 0 || !allowed {
                let reply = String::from_utf8_lossy(self.alloc, reply)?;
                return Ok(Some(format!(in self.alloc;
                    "a stop in call {call} leaves, in way {way}, status {status} and {reply}"
                )?));
            }
            seen.push(image)?;
        }
        Ok(None)
    }

    // The status and the reply of a session with the probe over a store with this file.
    fn asked(&self, image: &[u8], runs: &mut u64) -> Result<(u8, Vec<u8>)> {
        let setup = Setup {
            pieces: self.setup.pieces,
            most: self.setup.most,
            failing: Failing::default(),
            limits: self.setup.limits,
            file: image,
        };
        let mut disk = disk_of(self.alloc, setup)?;
        let words = self.case.settings.words.as_slice();
        let input = Vec::from_slice(self.alloc, self.probe.as_bytes())?;
        let ended = run_over(self.alloc, words, input, None, setup, &mut disk, runs)?;
        Ok((ended.status, ended.output))
    }
}

// How many ways there are where so many writes and cuts are pending: three for each.
fn ways_of(pending: usize) -> u64 {
    let mut ways: u64 = 1;
    for _ in 0..pending {
        ways = ways.saturating_mul(3);
    }
    ways
}

// Whether an image is one of these.
fn is_among(images: &[Vec<u8>], image: &[u8]) -> bool {
    for it in images {
        if it.as_slice() == image {
            return true;
        }
    }
    false
}

// What is pending in a call; nothing where the call isn't in the record.
fn pending_in(alloc: Global, disk: &MemDisk, call: u64) -> Result<Vec<Pending>, NoMemory> {
    if call >= disk.calls() {
        return Ok(Vec::new(alloc));
    }
    let pending = disk.pending(alloc, call)?;
    Ok(Vec::from_slice(alloc, pending.as_slice())?)
}

// The image of a stop in a call, by the number of the way; None where the call isn't in the record, or a cut has no such way.
fn image_of(
    alloc: Global,
    disk: &MemDisk,
    call: u64,
    way: u64,
) -> Result<Option<Vec<u8>>, NoMemory> {
    if call >= disk.calls() {
        return Ok(None);
    }
    let pending = disk.pending(alloc, call)?;
    let kept = choices_of(alloc, pending.as_slice(), way)?;
    if !kept.fits(&pending) {
        return Ok(None);
    }
    Ok(Some(disk.image(alloc, call, &kept)?))
}

// The choices of a way, whose number has a digit of three for each that is pending: as it was, as it was written, bytes 255.
fn choices_of(alloc: Global, pending: &[Pending], way: u64) -> Result<PieceChoice, NoMemory> {
    let mut choices = Vec::new(alloc);
    let mut rest = way;
    for it in pending {
        let choice = match rest % 3 {
            0 => Choice::Old,
            1 => Choice::New,
            _ => given(alloc, *it)?,
        };
        choices.push(choice)?;
        rest /= 3;
    }
    Ok(PieceChoice::of(choices))
}

// Bytes 255 throughout a range; nothing for a cut.
fn given(alloc: Global, pending: Pending) -> Result<Choice, NoMemory> {
    let mut bytes = Vec::new(alloc);
    if let Pending::Written { len, .. } = pending {
        bytes.resize(len as usize, 255)?;
    }
    Ok(Choice::Given(Bytes::of(bytes)))
}
