//! The made input as bytes that are read piece by piece.

ghost use Rattle.std.specs.Prelude.{◌≡◌, ◌≤◌, ◌++◌, [], drop, length, IfOk};
ghost use Rattle.tree_json.specs.Output.{room_of};
ghost use Rattle.line_engine.specs.Made.{bytes_left};
ghost use Rattle.made_load.specs.Lines.{lines_text, made_text};

use io_edges::{Failed, Source};
use made_load::{LONGEST_STEP, MadeInput};
use std::alloc::Global;
use std::marker::Model;
use tree_json::{NoMemory, OutText};

/// The bytes that are made at once, but for the last lines.
const PIECE: u64 = 65_536;

/// The made input of a number and a count. Of its bytes one piece is made at a time; no read fails, and none takes memory.
#[derive(Drop)]
pub(crate) struct MadeSource {
    lines: MadeInput,
    piece: OutText,
    at: usize,
}

impl Model for MadeSource {
    ghost use Rattle.std.specs.Prelude.{◌≤◌, drop, length};
    ghost use Rattle.tree_json.specs.Output.{room_of};
    ghost use Rattle.line_engine.specs.Made.{MadeState};

    ghost Value = { MadeState };

    ghost view = { λ s. record { ready = drop s.at s.piece.bytes; lines = s.lines } };

    ghost invariant = { λ s. (s.at ≤ length s.piece.bytes) × (1024 ≤ room_of s.piece) };
}

impl MadeSource {
    /// All of it.
    pub(crate) fn of(alloc: Global, number: u64, count: u32) -> Result<MadeSource, NoMemory>
        ensures { IfOk result (λ s. bytes_left s ≡ made_text number count) }
    {
        let mut piece = OutText::empty(alloc);
        piece.reserve(PIECE)?;
        Ok(MadeSource {
            lines: MadeInput::of(number, count),
            piece,
            at: 0,
        })
    }

    /// Makes bytes ready where none are, if there are any left.
    #[tactic(auto, using(crate::proofs::MadeBytes::filled))]
    pub(crate) fn fill(&mut self)
        ensures same { bytes_left self.new ≡ bytes_left self.old }
        ensures some { self.new.ready ≡ [] → bytes_left self.new ≡ [] }
    {
        if self.at == self.piece.as_slice().len() {
            self.piece.clear();
            self.at = 0;
            append_lines(&mut self.lines, &mut self.piece);
        }
    }

    /// The bytes that are ready.
    pub(crate) fn ready(&self) -> &[u8]
        ensures { result.now ≡ self.now.ready }
    {
        self.piece.as_slice().split_at(self.at).1
    }

    /// Goes past so many of them.
    pub(crate) fn pass(&mut self, count: usize)
        requires { count ≤ length self.old.ready }
        ensures { self.new ≡ record self.old { ready = drop count self.old.ready } }
    {
        let _len = self.piece.as_slice().len();
        self.at += count;
    }
}

// Appends lines while there is room for more.
#[tactic(auto, using(crate::proofs::MadeBytes::appended))]
fn append_lines(lines: &mut MadeInput, piece: &mut OutText)
    requires { 1024 ≤ room_of piece.old }
    ensures bytes { piece.new.bytes ++ lines_text lines.new ≡ piece.old.bytes ++ lines_text lines.old }
    ensures some { piece.new.bytes ≡ [] → lines.new ≡ [] }
    ensures room { room_of piece.old ≤ room_of piece.new }
{
    'lines: while piece.spare() >= LONGEST_STEP {
        match lines.append_next(piece) {
            Ok(true) => {}
            Ok(false) => return,
            Err(_) => unreachable!(),
        }
    }
}

impl Source for MadeSource {
    ghost use Rattle.std.specs.Prelude.{Some};
    ghost use Rattle.line_engine.specs.Made.{bytes_left};

    ghost left = { λ s. Some (bytes_left s) };

    ghost faults = { λ s. 0 };

    #[tactic(auto, using(crate::proofs::MadeBytes::given))]
    fn read(&mut self, into: &mut [u8]) -> Result<usize, Failed> {
        self.fill();
        let ready = self.ready();
        let count = ready.len().min(into.len());
        into.split_at_mut(count)
            .0
            .copy_from_slice(ready.split_at(count).0);
        self.pass(count);
        Ok(count)
    }
}
