//! A line as it is read.

ghost use Rattle.std.specs.Prelude.{◌≡◌, ◌||◌, ◌<◌, ◌==◌, nat_lt, [], ◌++◌, false, length, take, IfOk};
ghost use Rattle.line_reader.specs.Line.{longest_line};
ghost use Rattle.line_reader.specs.Held.{line_in};
ghost use Rattle.line_reader.specs.Request.{given};
ghost use Rattle.line_reader.specs.View.{first_line_of, source_line_of};

use crate::line::{FirstLine, SourceLine};
use io_edges::NoMemory;
use std::alloc::Global;
use std::marker::Model;

/// The most bytes of a line that are kept.
const LONGEST_LINE: usize = 1_048_576;

/// How a line begins, and whether the line has more bytes than are kept. Its room is reserved once.
#[derive(Drop)]
pub(crate) struct LineBuffer {
    bytes: Vec<u8>,
    long: bool,
}

impl Model for LineBuffer {
    ghost use Rattle.std.specs.Prelude.{◌≤◌, length};
    ghost use Rattle.std.specs.Vec.{vec_capacity, vec_len};
    ghost use Rattle.line_reader.specs.Line.{longest_line};
    ghost use Rattle.line_reader.specs.Held.{LineState};

    ghost Value = { LineState };

    ghost view = { λ line. record { kept = line.bytes.items; long = line.long } };

    ghost invariant = { λ line. (longest_line ≤ vec_capacity line.bytes) × (vec_len line.bytes ≤ longest_line) };
}

impl LineBuffer {
    /// A buffer with an empty line.
    pub(crate) fn new(alloc: Global) -> Result<LineBuffer, NoMemory>
        ensures { IfOk result (λ line. line ≡ record { kept = []; long = false }) }
    {
        Ok(LineBuffer {
            bytes: Vec::with_capacity(alloc, LONGEST_LINE)?,
            long: false,
        })
    }

    /// Begins a new line.
    pub(crate) fn clear(&mut self)
        ensures { self.new ≡ record { kept = []; long = false } }
    {
        self.bytes.clear();
        self.long = false;
    }

    /// Adds the next piece of the line, as far as it is kept.
    #[tactic(auto, using(crate::proofs::Fronts::kept_whole, crate::proofs::Fronts::kept_part))]
    pub(crate) fn add(&mut self, piece: &[u8])
        ensures kept { self.new.kept ≡ take longest_line (self.old.kept ++ piece.now) }
        ensures long { self.new.long ≡ (self.old.long || nat_lt longest_line (length (self.old.kept ++ piece.now))) }
    {
        let room = LONGEST_LINE - self.bytes.len();
        if piece.len() <= room {
            self.bytes.extend_from_slice(piece).unwrap();
        } else {
            self.bytes
                .extend_from_slice(piece.split_at(room).0)
                .unwrap();
            self.long = true;
        }
    }

    /// What is kept of the line.
    pub(crate) fn kept(&self) -> &[u8]
        ensures { result.now ≡ self.now.kept }
    {
        self.bytes.as_slice()
    }

    /// Whether the line has more bytes than are kept.
    pub(crate) fn is_long(&self) -> bool
        ensures { result ≡ self.now.long }
    {
        self.long
    }

    /// Whether the line has no byte.
    pub(crate) fn is_empty(&self) -> bool
        ensures { result ≡ (length self.now.kept == 0) }
    {
        self.bytes.is_empty()
    }

    /// The line as the first of a request.
    pub(crate) fn as_first(&self) -> FirstLine<'_>
        ensures { first_line_of result ≡ line_in self.now }
    {
        if self.long {
            FirstLine::TooLong
        } else {
            FirstLine::Whole(self.bytes.as_slice())
        }
    }

    /// The line as the source line of a request.
    pub(crate) fn as_source(&self) -> SourceLine<'_>
        ensures { source_line_of result ≡ given (line_in self.now) }
    {
        if self.long {
            SourceLine::TooLong
        } else {
            SourceLine::Whole(self.bytes.as_slice())
        }
    }
}
