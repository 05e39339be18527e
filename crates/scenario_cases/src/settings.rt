//! The settings of a case.

ghost use Rattle.std.specs.Iterator.{IsFinite};

use crate::damage::{DamagedRange, range_of};
use crate::store_file::{Piece, piece_of, with_pieces};
use anyhow::{Context, Result, bail, ensure};
use std::alloc::{AllocError, Global};

/// What a sweep goes through.
#[derive(Clone, Copy, Debug, PartialEq, Eq)]
pub enum Sweep {
    /// Each call of the source fails in turn, until a run makes no such call.
    SourceCalls,
    /// Each call of the sink fails in turn, until a run makes no such call.
    SinkCalls,
    /// Each call of the disk fails in turn, until a run makes no such call.
    DiskCalls,
    /// The session's limit is 1 byte, 2 bytes and so on, to one more than the input has.
    SessionLimits,
}

/// Which call of each object fails, the first one being 0; None where all succeed.
#[derive(Clone, Copy, Debug, Default, PartialEq, Eq)]
pub struct Failing {
    pub source: Option<u64>,
    pub sink: Option<u64>,
    pub disk: Option<u64>,
    /// Of the disk's syncs alone.
    pub sync: Option<u64>,
}

/// The limits that a session is held to; None where one is the program's.
#[derive(Clone, Copy, Debug, Default, PartialEq, Eq)]
pub struct GivenLimits {
    /// The most live objects.
    pub objects: Option<u64>,
    /// The most bytes of a reply.
    pub reply_bytes: Option<u64>,
    /// The most bytes of the store's file.
    pub store_bytes: Option<u64>,
    /// The most bytes that a session reads.
    pub session_bytes: Option<u64>,
}

/// The file that the store has before a run.
#[derive(Drop)]
pub struct Given {
    /// Whether it is the file that the case before left, and not an empty one.
    pub kept: bool,
    /// What is put into it.
    pub pieces: Vec<Piece>,
}

/// The file that the store has behind a run, as far as a case says it.
#[derive(Drop)]
pub struct Left {
    /// Whether it is as it was before.
    pub same: bool,
    /// Its length.
    pub length: Option<usize>,
    /// All that it has, where there is a piece.
    pub pieces: Vec<Piece>,
}

/// Of which objects the count of faults rose.
#[derive(Clone, Copy, Debug, Default, PartialEq, Eq)]
pub struct Rose {
    pub source: bool,
    pub sink: bool,
    pub disk: bool,
}

/// How a case is run, and how it ends.
#[derive(Drop)]
pub struct Settings<'a> {
    /// The words of the command line.
    pub words: Vec<&'a str>,
    /// The limits; where one isn't the program's, the words are not read.
    pub limits: GivenLimits,
    /// The most bytes that a read gives, by turns. The case is run with each of these lists.
    pub reads: Vec<Vec<usize>>,
    /// The most bytes that a write takes. The case is run with each of these.
    pub writes: Vec<usize>,
    /// Whether a read gives one request's bytes, and fails where a reply before it wasn't taken.
    pub dialogue: bool,
    pub failing: Failing,
    pub sweeps: Vec<Sweep>,
    /// How runs over the store's file end once it is damaged, place by place.
    pub damaged: Vec<DamagedRange<'a>>,
    pub status: u8,
    pub rose: Rose,
    pub store: Given,
    pub left: Left,
    /// The request that a store gets which a stop left.
    pub probe: Option<&'a str>,
    /// Whether the bodies of the lines are judged alone, without a run.
    pub bodies: bool,
}

impl<'a> Settings<'a> {
    /// The program's words and limits; whole reads and writes, none of which fails, and the status 0.
    pub fn usual(alloc: Global) -> Result<Settings<'a>, AllocError> {
        let mut reads = Vec::new(alloc);
        reads.push(vec![in alloc; usize::MAX]?)?;
        Ok(Settings {
            words: vec![in alloc; "serve", "store"]?,
            limits: GivenLimits::default(),
            reads,
            writes: vec![in alloc; usize::MAX]?,
            dialogue: false,
            failing: Failing::default(),
            sweeps: Vec::new(alloc),
            damaged: Vec::new(alloc),
            status: 0,
            rose: Rose::default(),
            store: Given {
                kept: false,
                pieces: Vec::new(alloc),
            },
            left: Left {
                same: false,
                length: None,
                pieces: Vec::new(alloc),
            },
            probe: None,
            bodies: false,
        })
    }

    /// Takes a line of settings.
    pub fn set(&mut self, alloc: Global, line: &'a str) -> Result<()> {
        let (name, value) = line.split_once(' ').unwrap_or((line, ""));
        match name {
            "words" => self.words = quoted(alloc, value)?,
            "reads" => self.reads = alternatives(alloc, value)?,
            "writes" => self.writes = numbers(alloc, value.split('|'))?,
            "dialogue" => self.dialogue = true,
            "bodies" => self.bodies = true,
            "limit" => self.set_limit(value)?,
            "fail" => self.set_failing(value)?,
            "each" => self.set_each(value)?,
            "rose" => self.set_rose(value)?,
            "store" => self.set_store(alloc, value)?,
            "left" => self.set_left(alloc, value)?,
            "probe" => self.probe = Some(value),
            "status" => self.status = value.parse().context("a status")?,
            _ => bail!("unknown setting"),
        }
        Ok(())
    }

    fn set_each(&mut self, value: &'a str) -> Result<()> {
        match range_of(value)? {
            Some(range) => self.damaged.push(range)?,
            None => self.sweeps.push(sweep_of(value)?)?,
        }
        Ok(())
    }

    fn set_limit(&mut self, value: &str) -> Result<()> {
        let (name, number) = value.split_once(' ').context("a limit's name and number")?;
        let number = Some(number.parse().context("a limit's number")?);
        match name {
            "objects" => self.limits.objects = number,
            "reply_bytes" => self.limits.reply_bytes = number,
            "store_bytes" => self.limits.store_bytes = number,
            "session_bytes" => self.limits.session_bytes = number,
            _ => bail!("unknown limit"),
        }
        Ok(())
    }

    fn set_failing(&mut self, value: &str) -> Result<()> {
        let (object, call) = value.split_once(' ').context("an object and its call")?;
        let call = Some(call.parse().context("a call's number")?);
        match object {
            "source" => self.failing.source = call,
            "sink" => self.failing.sink = call,
            "disk" => self.failing.disk = call,
            "sync" => self.failing.sync = call,
            _ => bail!("unknown object"),
        }
        Ok(())
    }

    fn set_rose(&mut self, value: &str) -> Result<()> {
        match value {
            "source" => self.rose.source = true,
            "sink" => self.rose.sink = true,
            "disk" => self.rose.disk = true,
            _ => bail!("unknown object"),
        }
        Ok(())
    }

    fn set_store(&mut self, alloc: Global, value: &str) -> Result<()> {
        if value == "kept" || value == "empty" {
            self.store.kept = value == "kept";
            self.store.pieces.clear();
            return Ok(());
        }
        self.store.pieces.push(piece_of(alloc, value)?)?;
        Ok(())
    }

    fn set_left(&mut self, alloc: Global, value: &str) -> Result<()> {
        if value == "same" {
            self.left.same = true;
            return Ok(());
        }
        if let Some(length) = value.strip_prefix("length ") {
            self.left.length = Some(length.parse().context("a file's length")?);
            return Ok(());
        }
        self.left.pieces.push(piece_of(alloc, value)?)?;
        Ok(())
    }

    /// The file before a run, where the case before left this one.
    pub fn file(&self, alloc: Global, kept: &[u8]) -> Result<Vec<u8>, AllocError> {
        let from = if self.store.kept {
            kept
        } else {
            b"".as_slice()
        };
        with_pieces(alloc, from, self.store.pieces.as_slice())
    }

    /// Refuses a sweep of a case that doesn't end well, since what a sweep expects follows from one that does, and a way
    /// to run bodies that are judged alone.
    pub fn check(&self) -> Result<()> {
        let ends_well = self.status == 0 && self.failing == Failing::default();
        let is_once = self.sweeps.is_empty() && self.damaged.is_empty();
        ensure!(is_once || ends_well, "a sweep of a case that fails");
        let is_plain = ends_well && !self.dialogue && self.limits == GivenLimits::default();
        ensure!(
            !self.bodies || (is_plain && is_once),
            "bodies alone aren't run"
        );
        Ok(())
    }
}

fn sweep_of(value: &str) -> Result<Sweep> {
    match value {
        "source call fails" => Ok(Sweep::SourceCalls),
        "sink call fails" => Ok(Sweep::SinkCalls),
        "disk call fails" => Ok(Sweep::DiskCalls),
        "session limit" => Ok(Sweep::SessionLimits),
        _ => bail!("unknown sweep"),
    }
}

// Words in quotes, which stand for themselves.
fn quoted<'a>(alloc: Global, value: &'a str) -> Result<Vec<&'a str>> {
    let mut words = Vec::new(alloc);
    for (index, piece) in value.split('"').enumerate() {
        if index % 2 == 1 {
            words.push(piece)?;
        } else {
            ensure!(piece.trim().is_empty(), "a word outside quotes");
        }
    }
    Ok(words)
}

// Lists of numbers, parted by bars.
fn alternatives(alloc: Global, value: &str) -> Result<Vec<Vec<usize>>> {
    let mut lists = Vec::new(alloc);
    for list in value.split('|') {
        lists.push(numbers(alloc, list.split_whitespace())?)?;
    }
    Ok(lists)
}

// Numbers of bytes, at least one and each at least 1.
fn numbers<'a, I: Iterator<Item = &'a str> + Drop>(alloc: Global, words: I) -> Result<Vec<usize>>
    requires can { I.can_next words }
    requires ends { IsFinite (I.remaining words) }
{
    let mut numbers = Vec::new(alloc);
    for word in words {
        let number: usize = word.trim().parse().context("a number of bytes")?;
        ensure!(number > 0, "0 bytes");
        numbers.push(number)?;
    }
    ensure!(!numbers.is_empty(), "no number of bytes");
    Ok(numbers)
}
