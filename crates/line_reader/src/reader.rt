//! Requests of the input, one after the other.

ghost use Rattle.std.specs.Prelude.{◌≡◌, ◌<◌, ◌≤◌, ◌^◌, [], false, ℕ, List, Option, length, IfOk, OnOk};
ghost use Rattle.line_reader.specs.Given.{HasGiven, Gives, IsStopCaused, stop_of};
ghost use Rattle.line_reader.specs.Held.{request_in};
ghost use Rattle.line_reader.specs.Reading.{Reads, RequestOf, SourceOf};
ghost use Rattle.line_reader.specs.Request.{Request};
ghost use Rattle.line_reader.specs.Seen.{KnowsEnd, ahead, longest_piece};
ghost use Rattle.line_reader.specs.View.{first_line_of, source_line_of};

use crate::input::Input;
use crate::line::{FirstLine, SourceLine, takes_source};
use crate::line_buffer::LineBuffer;
use crate::lines::next_line;
use crate::stop::Stop;
use io_edges::{NoMemory, Source};
use std::alloc::Global;
use std::marker::Model;

/// Whether a request has a source line.
#[derive(Clone, Copy, Debug, PartialEq, Eq)]
enum SourceKind {
    /// The first line takes none.
    NotTaken,
    /// The input ended before it.
    Missing,
    /// It was read.
    Read,
}

/// Reads requests. All the memory that this takes is taken when the reader is made.
#[derive(Drop)]
pub struct LineReader {
    input: Input,
    first: LineBuffer,
    second: LineBuffer,
    kind: SourceKind,
}

impl Model for LineReader {
    ghost use Rattle.line_reader.specs.Held.{request_in};
    ghost use Rattle.line_reader.specs.Seen.{ReaderState};

    ghost Value = { ReaderState };

    ghost view = { λ reader. record { input = reader.input; request = request_in reader.kind reader.first reader.second reader.input.ended } };
}

impl LineReader {
    /// A reader that has read nothing, and may read so many bytes.
    #[tactic(auto, using(crate::proofs::Giving::given_none))]
    pub fn new(alloc: Global, session_bytes: u64) -> Result<LineReader, NoMemory>
        ensures input { IfOk result (λ reader. reader.input ≡ record { unread = []; allowance = session_bytes; ended = false }) }
        ensures given { IfOk result (λ reader. (start : Option (List ℕ)) → HasGiven session_bytes start start reader.input []) }
    {
        let input = Input::new(alloc, session_bytes)?;
        let first = LineBuffer::new(alloc)?;
        let second = LineBuffer::new(alloc)?;
        Ok(LineReader {
            input,
            first,
            second,
            kind: SourceKind::NotTaken,
        })
    }

    /// Reads the next request, or answers why there is none. It is always the same source that is read.
    pub fn next_request<S: Source>(&mut self, source: &mut S) -> Result<(), Stop>
        requires known { KnowsEnd self.old.input (S.left source.old) }
        ensures gives { (most : ℕ) (start : Option (List ℕ)) (given : List Request) →
            HasGiven most start (S.left source.old) self.old.input given →
            Gives (stop_of result) most start (S.left source.new) self.new.input given self.new.request }
        ensures shorter { OnOk result (ahead self.new.input < ahead self.old.input) }
        ensures known { KnowsEnd self.new.input (S.left source.new) }
        ensures cause { IsStopCaused (stop_of result) (S.faults source.old) (S.faults source.new) }
    {
        self.kind = read_request(source, &mut self.input, &mut self.first, &mut self.second)?;
        Ok(())
    }

    /// The first line of the request that was read last.
    pub fn first_line(&self) -> FirstLine<'_>
        ensures { first_line_of result ≡ self.now.request.first }
    {
        self.first.as_first()
    }

    /// Its source line.
    pub fn source_line(&self) -> SourceLine<'_>
        ensures { source_line_of result ≡ self.now.request.source }
    {
        match self.kind {
            SourceKind::NotTaken => SourceLine::NotTaken,
            SourceKind::Missing => SourceLine::Missing,
            SourceKind::Read => self.second.as_source(),
        }
    }
}

// Reads the next request into the two buffers.
fn read_request<S: Source>(
    source: &mut S,
    input: &mut Input,
    first: &mut LineBuffer,
    second: &mut LineBuffer,
) -> Result<SourceKind, Stop>
    requires known { KnowsEnd input.old (S.left source.old) }
    ensures reads { Reads (stop_of result) input.old input.new (S.left source.old) (S.left source.new) (RequestOf result input.new.ended first.new second.new) }
    ensures near { OnOk result (length input.new.unread < longest_piece) }
    ensures known { KnowsEnd input.new (S.left source.new) }
    ensures cause { IsStopCaused (stop_of result) (S.faults source.old) (S.faults source.new) }
{
    next_line(source, input, first)?;
    if takes_source(first.kept()) {
        read_source(source, input, second)
    } else {
        Ok(SourceKind::NotTaken)
    }
}

// Reads the line that the first one takes as its source line.
fn read_source<S: Source>(
    source: &mut S,
    input: &mut Input,
    line: &mut LineBuffer,
) -> Result<SourceKind, Stop>
    requires known { KnowsEnd input.old (S.left source.old) }
    ensures reads { Reads (stop_of result) input.old input.new (S.left source.old) (S.left source.new) (SourceOf result input.new.ended line.new) }
    ensures near { OnOk result (length input.new.unread < longest_piece) }
    ensures known { KnowsEnd input.new (S.left source.new) }
    ensures cause { IsStopCaused (stop_of result) (S.faults source.old) (S.faults source.new) }
{
    match next_line(source, input, line) {
        Ok(()) => Ok(SourceKind::Read),
        Err(stop) => {
            stop.unless_end()?;
            Ok(SourceKind::Missing)
        }
    }
}
