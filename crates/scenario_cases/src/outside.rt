//! Sources, sinks and disks in memory that give and take in small pieces.

ghost use Rattle.std.specs.Prelude.{◌≡◌};
ghost use Rattle.io_edges.specs.Faults.{HasCause};

use crate::case::Turn;
use crate::settings::Failing;
use disk::{Disk, MemDisk};
use io_edges::{CallList, Failed, MemSink, MemSource, NoMemory, Sink, Source};
use std::alloc::Global;
use std::cell::Cell;
use std::rc::Rc;

// No call, or the call of this number.
fn calls(alloc: Global, call: Option<u64>) -> Result<CallList, NoMemory> {
    match call {
        Some(call) => Ok(CallList::of(vec![in alloc; call]?)),
        None => Ok(CallList::of(Vec::new(alloc))),
    }
}

/// The turns of a dialogue, and how many bytes of replies the sink has taken, which source and sink share.
#[derive(Drop)]
pub struct Dialogue {
    turns: Vec<Turn>,
    taken: Rc<Cell<usize>>,
}

impl Dialogue {
    /// A dialogue of these turns, in which nothing was taken.
    pub fn over(alloc: Global, turns: Vec<Turn>) -> Result<Dialogue, NoMemory> {
        Ok(Dialogue {
            turns,
            taken: Rc::new(alloc, Cell::new(0))?,
        })
    }

    // How many bytes the source may give behind the first `given` ones: those of the request there. None where the sink
    // hasn't taken each reply to the requests before.
    fn room_at(&self, given: usize) -> Option<usize> {
        let mut replied: usize = 0;
        for turn in self.turns.as_slice() {
            if given < turn.asked {
                return self.after(replied, turn.asked - given);
            }
            replied = turn.replied;
        }
        self.after(replied, usize::MAX)
    }

    // So much room, once the sink has taken so many bytes.
    fn after(&self, replied: usize, room: usize) -> Option<usize> {
        if self.taken.get() < replied {
            None
        } else {
            Some(room)
        }
    }
}

/// A source in memory that gives its bytes in pieces.
#[derive(Drop)]
pub struct PieceSource<'a> {
    source: MemSource,
    dialogue: Option<Dialogue>,
    pieces: &'a [usize],
    turn: usize,
    given: usize,
    failed: u64,
}

impl<'a> PieceSource<'a> {
    /// A source of these bytes. Each read gives at most so many, by turns, and the call of that number fails. In a
    /// dialogue a read gives bytes of one request, and fails where a reply before it wasn't taken.
    pub fn over(
        alloc: Global,
        bytes: Vec<u8>,
        pieces: &'a [usize],
        fails: Option<u64>,
        dialogue: Option<Dialogue>,
    ) -> Result<PieceSource<'a>, NoMemory> {
        Ok(PieceSource {
            dialogue,
            source: MemSource::over(alloc, bytes, calls(alloc, fails)?)?,
            pieces,
            turn: 0,
            given: 0,
            failed: 0,
        })
    }

    /// The count of bytes taken that a sink in dialogue with it is to raise.
    pub fn shared(&self) -> Result<Option<Rc<Cell<usize>>>, NoMemory> {
        match &self.dialogue {
            Some(dialogue) => Ok(Some(dialogue.taken.clone()?)),
            None => Ok(None),
        }
    }

    /// How many bytes it gave.
    pub fn given(&self) -> usize {
        self.given
    }

    /// Whether a call failed.
    pub fn has_failed(&self) -> bool {
        self.failed > 0
    }
}

impl Source for PieceSource<'_> {
    ghost use Rattle.std.specs.Prelude.{None};

    ghost left = { λ _. None };

    ghost faults = { λ source. source.failed };

    fn read(&mut self, into: &mut [u8]) -> Result<usize, Failed> {
        if self.turn >= self.pieces.len() {
            self.turn = 0;
        }
        let most = self.pieces.get(self.turn).copied().unwrap_or(usize::MAX);
        self.turn = self.turn.saturating_add(1);
        let allowed = match &self.dialogue {
            Some(dialogue) => dialogue.room_at(self.given),
            None => Some(usize::MAX),
        };
        let Some(allowed) = allowed else {
            self.failed = self.failed.saturating_add(1);
            return Err(Failed);
        };
        let room = most.min(into.len()).min(allowed);
        match self.source.read(into.split_at_mut(room).0) {
            Ok(count) => {
                self.given = self.given.saturating_add(count);
                Ok(count)
            }
            Err(Failed) => {
                self.failed = self.failed.saturating_add(1);
                Err(Failed)
            }
        }
    }
}

/// A sink in memory that takes its bytes in pieces.
#[derive(Drop)]
pub struct PieceSink {
    sink: MemSink,
    shared: Option<Rc<Cell<usize>>>,
    most: usize,
    failed: u64,
}

impl PieceSink {
    /// A sink each of whose writes takes at most so many bytes, and whose call of that number fails.
    pub fn over(
        alloc: Global,
        most: usize,
        fails: Option<u64>,
        shared: Option<Rc<Cell<usize>>>,
    ) -> Result<PieceSink, NoMemory> {
        Ok(PieceSink {
            shared,
            sink: MemSink::over(alloc, calls(alloc, fails)?)?,
            most,
            failed: 0,
        })
    }

    /// The bytes taken so far.
    pub fn taken(&self) -> &[u8] {
        self.sink.taken()
    }

    /// Whether a call failed.
    pub fn has_failed(&self) -> bool {
        self.failed > 0
    }

    /// Whether a call failed for want of memory.
    pub fn had_no_room(&self) -> bool {
        self.sink.no_room() > 0
    }
}

impl Sink for PieceSink {
    ghost use Rattle.std.specs.Prelude.{None};

    ghost taken = { λ _. None };

    ghost faults = { λ sink. sink.failed };

    fn write(&mut self, piece: &[u8]) -> Result<usize, Failed> {
        let most = self.most.max(1).min(piece.len());
        match self.sink.write(piece.split_at(most).0) {
            Ok(count) => {
                if let Some(taken) = &self.shared {
                    taken.set(taken.get().saturating_add(count));
                }
                Ok(count)
            }
            Err(Failed) => {
                self.failed = self.failed.saturating_add(1);
                Err(Failed)
            }
        }
    }
}

/// A disk in memory that counts its faults.
#[derive(Drop)]
pub struct CountedDisk {
    disk: MemDisk,
    failing_sync: Option<u64>,
    syncs: u64,
    failed: u64,
}

impl CountedDisk {
    /// A disk with this file, whose call or sync of that number fails.
    pub fn over(alloc: Global, file: Vec<u8>, failing: Failing) -> Result<CountedDisk, NoMemory> {
        Ok(CountedDisk {
            disk: MemDisk::over(alloc, file, calls(alloc, failing.disk)?)?,
            failing_sync: failing.sync,
            syncs: 0,
            failed: 0,
        })
    }

    /// Whether a call failed.
    pub fn has_failed(&self) -> bool {
        self.failed > 0
    }

    /// The disk, with the record of its calls.
    pub fn record(&self) -> &MemDisk {
        &self.disk
    }

    /// The file as it is now. The call that is to fail may be one of those that read it, and is then made again.
    pub fn file(&mut self, alloc: Global) -> Result<Vec<u8>, NoMemory> {
        let mut bytes = Vec::new(alloc);
        for _ in 0..3_u8 {
            let Ok(length) = self.disk.len() else {
                continue;
            };
            bytes.resize(length as usize, 0)?;
            if self.disk.read(0, bytes.as_mut_slice()).is_ok() {
                break;
            }
        }
        Ok(bytes)
    }

    // Counts a call that failed.
    fn count<T>(&mut self, answer: Result<T, Failed>) -> Result<T, Failed>
        ensures answer { result ≡ answer }
        ensures cause { HasCause self.old.failed self.new.failed result }
    {
        if answer.is_err() {
            self.failed = self.failed.saturating_add(1);
        }
        answer
    }
}

impl Disk for CountedDisk {
    ghost use Rattle.std.specs.Prelude.{None};
    ghost use Rattle.disk.specs.Replay.{untold};

    ghost content = { λ _. None };

    ghost image = { λ _ _. ⊥ };

    ghost moment = { λ _. 0 };

    ghost image_since = { λ _ _ _. ⊥ };

    ghost faults = { λ disk. disk.failed };

    fn len(&mut self) -> Result<u64, Failed> {
        let answer = self.disk.len();
        self.count(answer)
    }

    fn read(&mut self, at: u64, into: &mut [u8]) -> Result<usize, Failed> {
        let answer = self.disk.read(at, into);
        self.count(answer)
    }

    fn write_at(&mut self, at: u64, bytes: &[u8]) -> Result<(), Failed> {
        let answer = self.disk.write_at(at, bytes);
        self.count(answer)
    }

    fn sync(&mut self) -> Result<(), Failed> {
        let fails = self.failing_sync == Some(self.syncs);
        self.syncs = self.syncs.saturating_add(1);
        let answer = if fails { Err(Failed) } else { self.disk.sync() };
        self.count(answer)
    }

    fn cut(&mut self, len: u64) -> Result<(), Failed> {
        let answer = self.disk.cut(len);
        self.count(answer)
    }

    ghost gives_image = { λ disk bytes told. untold bytes told };

    ghost counts_now = { λ disk since bytes later is. is };

    ghost only_now = { λ disk bytes is. is };
}
