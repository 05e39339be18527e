//! Runs of a case, and what differs from what the case says.

ghost use Rattle.std.specs.Prelude.{IsTrue};
ghost use Rattle.machine.specs.Limit.{AreLimits};

use crate::bodies;
use crate::damaged_files::first_bad_file;
use crate::stops::first_bad_stop;
use anyhow::{Result, bail};
use io_edges::{NoMemory, Word};
use line_engine::{Limits, Status, run, serve};
use scenario_cases::{
    Case, CountedDisk, Dialogue, Failing, GivenLimits, PieceSink, PieceSource, Rose, Settings,
    Sweep, Turn, with_pieces,
};
use std::alloc::{AllocError, Global};
use std::fmt;

/// The most runs of a sweep.
const MOST_STEPS: u64 = 1_000_000;

/// The reply to a request under which a call of the disk failed.
const DISK_FAILURE: &[u8] = b"{\"error\":{\"number\":35,\"reason\":\"disk_failure\"}}\n";

/// How a case is run once.
#[derive(Clone, Copy)]
pub struct Setup<'a> {
    pub pieces: &'a [usize],
    pub most: usize,
    pub failing: Failing,
    pub limits: Option<Limits>,
    /// The file of the store before the run.
    pub file: &'a [u8],
}

impl fmt::Display for Setup<'_> {
    fn fmt<W: fmt::Write>(&self, f: &mut fmt::Formatter<W>) -> fmt::Result {
        let pieces = self.pieces;
        let most = self.most;
        let failing = self.failing;
        let limits = self.limits;
        write!(
            f,
            "reads {pieces:?}, writes {most}, {failing:?}, {limits:?}"
        )
    }
}

/// How a run ended, or is to end.
#[derive(Drop)]
pub struct Ended {
    pub output: Vec<u8>,
    pub status: u8,
    rose: Rose,
    /// How many calls the disk got.
    pub calls: u64,
    // how many bytes of the input were read
    given: usize,
    // the file that the store has afterwards, or its length alone; None where a case doesn't say it
    file: Option<Vec<u8>>,
    length: Option<usize>,
}

/// Runs a case in every way that its settings ask for, up to the first run that differs from what the case says. A line
/// on what differs there; `runs` counts the runs. The case finds the file that the one before left, and leaves its own.
pub fn first_difference(
    alloc: Global,
    case: &Case<'_>,
    kept: &mut Vec<u8>,
    runs: &mut u64,
) -> Result<Option<String>> {
    let file = case.settings.file(alloc, kept.as_slice())?;
    if case.settings.bodies {
        *runs = runs.saturating_add(1);
        return bodies::first_difference(alloc, case);
    }
    for pieces in case.settings.reads.as_slice() {
        for most in case.settings.writes.as_slice() {
            let setup = Setup {
                pieces: pieces.as_slice(),
                most: *most,
                failing: case.settings.failing,
                limits: limits_of(case.settings.limits),
                file: file.as_slice(),
            };
            let found = first_of_setup(alloc, case, setup, kept, runs)?;
            if found.is_some() {
                return Ok(found);
            }
        }
    }
    Ok(None)
}

// The same with reads and writes of one kind.
fn first_of_setup(
    alloc: Global,
    case: &Case<'_>,
    setup: Setup<'_>,
    kept: &mut Vec<u8>,
    runs: &mut u64,
) -> Result<Option<String>> {
    let ended = run_once(alloc, case, setup, runs)?;
    let wanted = whole(alloc, case, setup.file)?;
    let found = difference(alloc, setup, &wanted, &ended)?;
    if found.is_some() {
        return Ok(found);
    }
    let Ended { file, .. } = ended;
    if let Some(file) = file {
        *kept = file;
    }
    let found = first_bad_stop(alloc, case, setup, 0, case.exchanges.len(), runs)?;
    if found.is_some() {
        return Ok(found);
    }
    let found = first_bad_file(alloc, case, setup, runs)?;
    if found.is_some() {
        return Ok(found);
    }
    for sweep in case.settings.sweeps.as_slice() {
        let found = first_of_sweep(alloc, case, setup, *sweep, runs)?;
        if found.is_some() {
            return Ok(found);
        }
    }
    Ok(None)
}

// The same for a sweep.
fn first_of_sweep(
    alloc: Global,
    case: &Case<'_>,
    plain: Setup<'_>,
    sweep: Sweep,
    runs: &mut u64,
) -> Result<Option<String>> {
    let length = case.input(alloc)?.len() as u64;
    for step in 0..MOST_STEPS {
        let setup = step_of(plain, sweep, step);
        let ended = run_once(alloc, case, setup, runs)?;
        let is_last = match sweep {
            Sweep::SourceCalls => !ended.rose.source,
            Sweep::SinkCalls => !ended.rose.sink,
            Sweep::DiskCalls => !ended.rose.disk,
            Sweep::SessionLimits => step >= length,
        };
        let found = match case.answered_so(ended.output.as_slice(), DISK_FAILURE) {
            Some(twice) => first_of_second_try(alloc, case, setup, twice, runs)?,
            None => {
                let wanted = wanted_of(alloc, case, setup, sweep, step, &ended)?;
                difference(alloc, setup, &wanted, &ended)?
            }
        };
        if found.is_some() || is_last {
            return Ok(found);
        }
    }
    bail!("a sweep has no end")
}

// The same where a call of the disk failed under a request, which is then sent again.
fn first_of_second_try(
    alloc: Global,
    case: &Case<'_>,
    setup: Setup<'_>,
    twice: usize,
    runs: &mut u64,
) -> Result<Option<String>> {
    let (exchanges, stops) = case.sent_again(alloc, twice, DISK_FAILURE)?;
    let mut settings = Settings::usual(alloc)?;
    settings.rose.disk = true;
    settings.probe = case.settings.probe;
    let again = Case {
        name: case.name,
        settings,
        exchanges,
        stops,
    };
    let ended = run_once(alloc, &again, setup, runs)?;
    let wanted = whole(alloc, &again, setup.file)?;
    let found = difference(alloc, setup, &wanted, &ended)?;
    if found.is_some() {
        return Ok(found);
    }
    first_bad_stop(alloc, &again, setup, twice, twice.saturating_add(2), runs)
}

// How the case is run at a step of a sweep.
fn step_of<'a>(plain: Setup<'a>, sweep: Sweep, step: u64) -> Setup<'a> {
    let mut failing = plain.failing;
    let mut limits = plain.limits;
    match sweep {
        Sweep::SourceCalls => failing.source = Some(step),
        Sweep::SinkCalls => failing.sink = Some(step),
        Sweep::DiskCalls => failing.disk = Some(step),
        Sweep::SessionLimits => {
            let mut shorter = limits.unwrap_or(Limits::standard());
            shorter.session_bytes = step.saturating_add(1);
            limits = Some(shorter);
        }
    }
    Setup {
        pieces: plain.pieces,
        most: plain.most,
        failing,
        limits,
        file: plain.file,
    }
}

// How the run at a step of a sweep is to end, by the case's requests and replies.
fn wanted_of(
    alloc: Global,
    case: &Case<'_>,
    setup: Setup<'_>,
    sweep: Sweep,
    step: u64,
    ended: &Ended,
) -> Result<Ended> {
    let mut wanted = whole(alloc, case, setup.file)?;
    let given = ended.given;
    match sweep {
        Sweep::DiskCalls => {
            if ended.rose.disk {
                wanted.output.clear();
                wanted.status = Status::DiskFault.code();
                wanted.rose.disk = true;
                wanted.file = None;
                wanted.length = None;
            }
        }
        Sweep::SourceCalls => {
            if ended.rose.source {
                wanted.output.truncate(case.replied_within(given));
                wanted.status = Status::ReadFault.code();
                wanted.rose.source = true;
            }
        }
        Sweep::SinkCalls => {
            if ended.rose.sink {
                wanted.output.truncate(case.written_after(step, setup.most));
                wanted.status = Status::WriteFault.code();
                wanted.rose.sink = true;
            }
        }
        Sweep::SessionLimits => {
            let limit = step.saturating_add(1) as usize;
            if limit < case.input(alloc)?.len() {
                wanted.output.truncate(case.replied_within(limit));
                wanted.status = Status::SessionLimit.code();
            }
        }
    }
    Ok(wanted)
}

// How the case ends, as it says itself, over a store with this file.
fn whole(alloc: Global, case: &Case<'_>, file: &[u8]) -> Result<Ended, AllocError> {
    let left = &case.settings.left;
    let mut after = None;
    if left.same {
        after = Some(Vec::from_slice(alloc, file)?);
    } else if !left.pieces.is_empty() {
        after = Some(with_pieces(alloc, b"".as_slice(), left.pieces.as_slice())?);
    }
    Ok(Ended {
        output: case.output(alloc)?,
        status: case.settings.status,
        rose: case.settings.rose,
        calls: 0,
        given: 0,
        file: after,
        length: left.length,
    })
}

// Runs the case once.
fn run_once(alloc: Global, case: &Case<'_>, setup: Setup<'_>, runs: &mut u64) -> Result<Ended> {
    let mut disk = disk_of(alloc, setup)?;
    let dialogue = if case.settings.dialogue {
        Some(case.turns(alloc)?)
    } else {
        None
    };
    let words = case.settings.words.as_slice();
    let input = case.input(alloc)?;
    run_over(alloc, words, input, dialogue, setup, &mut disk, runs)
}

/// The disk of a run.
pub fn disk_of(alloc: Global, setup: Setup<'_>) -> Result<CountedDisk> {
    let file = Vec::from_slice(alloc, setup.file)?;
    match CountedDisk::over(alloc, file, setup.failing) {
        Ok(disk) => Ok(disk),
        Err(NoMemory) => bail!("no memory for a disk"),
    }
}

/// Runs an input once over a disk, as a dialogue where turns are given.
pub fn run_over(
    alloc: Global,
    words: &[&str],
    input: Vec<u8>,
    dialogue: Option<Vec<Turn>>,
    setup: Setup<'_>,
    disk: &mut CountedDisk,
    runs: &mut u64,
) -> Result<Ended> {
    *runs = runs.saturating_add(1);
    match over_memory(alloc, words, input, dialogue, setup, disk) {
        Ok(Some(ended)) => Ok(ended),
        Ok(None) => bail!("limits that no session may have"),
        Err(NoMemory) => bail!("no memory for a run"),
    }
}

// How the run ends over a source, a sink and a disk in memory; None where no session may have its limits.
fn over_memory(
    alloc: Global,
    words: &[&str],
    input: Vec<u8>,
    dialogue: Option<Vec<Turn>>,
    setup: Setup<'_>,
    disk: &mut CountedDisk,
) -> Result<Option<Ended>, NoMemory> {
    let failing = setup.failing;
    let dialogue = match dialogue {
        Some(turns) => Some(Dialogue::over(alloc, turns)?),
        None => None,
    };
    let mut source = PieceSource::over(alloc, input, setup.pieces, failing.source, dialogue)?;
    let mut sink = PieceSink::over(alloc, setup.most, failing.sink, source.shared()?)?;
    let status = match &setup.limits {
        None => {
            let words = words_of(alloc, words)?;
            run(alloc, words.as_slice(), &mut source, &mut sink, disk)
        }
        Some(limits) => {
            if !are_allowed(limits) {
                return Ok(None);
            }
            serve(alloc, limits, &mut source, &mut sink, disk)
        }
    };
    if sink.had_no_room() {
        return Err(NoMemory);
    }
    let rose = Rose {
        source: source.has_failed(),
        sink: sink.has_failed(),
        disk: disk.has_failed(),
    };
    let calls = disk.record().calls();
    let file = disk.file(alloc)?;
    Ok(Some(Ended {
        output: Vec::from_slice(alloc, sink.taken())?,
        status: status.code(),
        rose,
        calls,
        given: source.given(),
        length: Some(file.len()),
        file: Some(file),
    }))
}

fn words_of(alloc: Global, texts: &[&str]) -> Result<Vec<Word>, AllocError> {
    let mut words = Vec::new(alloc);
    for text in texts {
        words.push(Word::of(String::from_str(alloc, text)?))?;
    }
    Ok(words)
}

// The limits of a session; None where all are the program's.
fn limits_of(given: GivenLimits) -> Option<Limits> {
    if given == GivenLimits::default() {
        return None;
    }
    let standard = Limits::standard();
    Some(Limits {
        objects: given.objects.unwrap_or(standard.objects),
        reply_bytes: given.reply_bytes.unwrap_or(standard.reply_bytes),
        store_bytes: given.store_bytes.unwrap_or(standard.store_bytes),
        session_bytes: given.session_bytes.unwrap_or(standard.session_bytes),
    })
}

// Whether a session may have these limits.
fn are_allowed(limits: &Limits) -> bool
    ensures { IsTrue result → AreLimits limits.now }
{
    let standard = Limits::standard();
    1 <= limits.objects
        && limits.objects <= standard.objects
        && 1 <= limits.reply_bytes
        && limits.reply_bytes <= standard.reply_bytes
        && 4_096 <= limits.store_bytes
        && limits.store_bytes <= standard.store_bytes
        && 1 <= limits.session_bytes
        && limits.session_bytes <= standard.session_bytes
}

// A line on what differs between two ends of a run, None where nothing does.
fn difference(
    alloc: Global,
    setup: Setup<'_>,
    wanted: &Ended,
    ended: &Ended,
) -> Result<Option<String>> {
    if wanted.output != ended.output {
        let lines = differing_lines(alloc, wanted.output.as_slice(), ended.output.as_slice())?;
        return Ok(Some(format!(in alloc; "{lines} ({setup})")?));
    }
    if wanted.status != ended.status {
        return Ok(Some(format!(in alloc;
            "status {}, not {} ({setup})",
            ended.status, wanted.status
        )?));
    }
    if wanted.rose != ended.rose {
        return Ok(Some(format!(in alloc; "{:?}, not {:?} ({setup})", ended.rose, wanted.rose)?));
    }
    if wanted.length.is_some() && wanted.length != ended.length {
        return Ok(Some(format!(in alloc;
            "the file has {:?} bytes, not {:?} ({setup})",
            ended.length, wanted.length
        )?));
    }
    file_difference(alloc, setup, wanted, ended)
}

// The same of the files, where one is wanted.
fn file_difference(
    alloc: Global,
    setup: Setup<'_>,
    wanted: &Ended,
    ended: &Ended,
) -> Result<Option<String>> {
    let (Some(file), Some(got)) = (&wanted.file, &ended.file) else {
        return Ok(None);
    };
    if file == got {
        return Ok(None);
    }
    let same = file
        .iter()
        .zip(got)
        .take_while(|(byte, other)| byte == other)
        .count();
    let (length, got_length) = (file.len(), got.len());
    Ok(Some(format!(in alloc;
        "the file has {got_length} bytes, not {length}, and differs from byte {same} on ({setup})"
    )?))
}

// The first lines in which two texts differ.
fn differing_lines(alloc: Global, wanted: &[u8], got: &[u8]) -> Result<String> {
    let same = wanted
        .iter()
        .zip(got)
        .take_while(|(byte, other)| byte == other)
        .count();
    let above = wanted
        .iter()
        .take(same)
        .filter(|byte| **byte == b'\n')
        .count();
    let number = (above as u64).saturating_add(1);
    let line = line_at(alloc, got, above)?;
    let wanted_line = line_at(alloc, wanted, above)?;
    Ok(format!(in alloc; "line {number} is {line}, not {wanted_line}")?)
}

fn line_at(alloc: Global, bytes: &[u8], above: usize) -> Result<String, AllocError> {
    let mut lines = bytes.split(|byte| *byte == b'\n');
    String::from_utf8_lossy(alloc, lines.nth(above).unwrap_or(b"".as_slice()))
}
