//! The input: a source read in pieces, up to the session's limit.

ghost use Rattle.std.specs.Prelude.{◌≡◌, ◌≤◌, ◌<◌, [], ◌∷◌, false, length, drop, take, Some, IfOk, OnOk, OnErr};
ghost use Rattle.std.specs.Io.KnownBytes.{Consumes, IsAtEnd};
ghost use Rattle.io_edges.specs.Faults.{HasCause};
ghost use Rattle.line_reader.specs.Given.{IsStopCaused, stop_of};
ghost use Rattle.line_reader.specs.Reading.{Reads};
ghost use Rattle.line_reader.specs.Seen.{KnowsEnd, longest_piece};

use crate::stop::Stop;
use io_edges::{Failed, NoMemory, Source};
use std::alloc::Global;
use std::marker::Model;

/// How many bytes are asked for at once.
const LONGEST_PIECE: usize = 65_536;

/// The bytes that were read and not used yet, and how many more may be read.
#[derive(Drop)]
pub(crate) struct Input {
    chunk: Vec<u8>,
    at: usize,
    end: usize,
    allowance: u64,
    ended: bool,
}

impl Model for Input {
    ghost use Rattle.std.specs.Prelude.{◌≡◌, ◌≤◌, length, take, drop};
    ghost use Rattle.line_reader.specs.Seen.{InputState, longest_piece};

    ghost Value = { InputState };

    ghost view = { λ it. record { unread = drop it.at (take it.end it.chunk.items); allowance = it.allowance; ended = it.ended } };

    ghost invariant = { λ it. (it.at ≤ it.end) × (it.end ≤ length it.chunk.items) × (length it.chunk.items ≡ longest_piece) };
}

impl Input {
    /// An input of which nothing was read, and of which so many bytes may be.
    pub(crate) fn new(alloc: Global, allowance: u64) -> Result<Input, NoMemory>
        ensures { IfOk result (λ it. it ≡ record { unread = []; allowance = allowance; ended = false }) }
    {
        Ok(Input {
            chunk: vec![in alloc; 0; LONGEST_PIECE]?,
            at: 0,
            end: 0,
            allowance,
            ended: false,
        })
    }

    /// The bytes that were read and not used yet.
    pub(crate) fn unread(&self) -> &[u8]
        ensures bytes { result.now ≡ self.now.unread }
        ensures few { length self.now.unread ≤ longest_piece }
    {
        self.chunk.split_at(self.end).0.split_at(self.at).1
    }

    /// Uses the first so many of them.
    pub(crate) fn skip(&mut self, count: usize)
        requires { count ≤ length self.old.unread }
        ensures { self.new ≡ record { unread = drop count self.old.unread; allowance = self.old.allowance; ended = self.old.ended } }
    {
        self.at += count;
    }

    /// Uses all of them.
    pub(crate) fn skip_all(&mut self)
        ensures { self.new ≡ record { unread = []; allowance = self.old.allowance; ended = self.old.ended } }
    {
        self.at = self.end;
    }

    /// Reads more, once all that was read is used. Beyond the limit one byte is asked for, to see whether there is one.
    /// A source that has ended isn't asked again.
    pub(crate) fn fill<S: Source>(&mut self, source: &mut S) -> Result<(), Stop>
        requires used { self.old.unread ≡ [] }
        requires known { KnowsEnd self.old (S.left source.old) }
        ensures reads { Reads (stop_of result) self.old self.new (S.left source.old) (S.left source.new) (λ used. used ≡ []) }
        ensures some { OnOk result (0 < length self.new.unread) }
        ensures known { KnowsEnd self.new (S.left source.new) }
        ensures cause { IsStopCaused (stop_of result) (S.faults source.old) (S.faults source.new) }
    {
        if self.ended {
            return Err(Stop::End);
        }
        if self.allowance == 0 {
            return Err(self.look_further(source));
        }
        self.at = 0;
        self.end = 0;
        let most = self.chunk.len().min(self.allowance as usize);
        match read_some(source, &mut self.chunk, most) {
            Ok(0) => {
                self.ended = true;
                Err(Stop::End)
            }
            Ok(count) => {
                self.end = count;
                self.allowance -= count as u64;
                Ok(())
            }
            Err(Failed) => Err(Stop::Fault),
        }
    }

    // Whether there is a byte beyond the limit.
    fn look_further<S: Source>(&mut self, source: &mut S) -> Stop
        requires used { self.old.unread ≡ [] }
        requires all { self.old.allowance ≡ 0 }
        requires going { self.old.ended ≡ false }
        ensures reads { Reads (Some result) self.old self.new (S.left source.old) (S.left source.new) (λ used. used ≡ []) }
        ensures known { KnowsEnd self.new (S.left source.new) }
        ensures cause { IsStopCaused (Some result) (S.faults source.old) (S.faults source.new) }
    {
        let mut byte = [0];
        match source.read(&mut byte) {
            Ok(0) => {
                self.ended = true;
                Stop::End
            }
            Ok(_) => Stop::Limit,
            Err(Failed) => Stop::Fault,
        }
    }
}

// Reads at most so many bytes, to the beginning of the chunk.
fn read_some<S: Source>(source: &mut S, chunk: &mut Vec<u8>, most: usize) -> Result<usize, Failed>
    requires { most ≤ length chunk.old.items }
    ensures bytes { IfOk result (λ count. Consumes (S.left source.old) (S.left source.new) (take count chunk.new.items) × (count ≤ most) × (count ≡ 0 → 0 < most → IsAtEnd (S.left source.new))) }
    ensures failed { OnErr result (Consumes (S.left source.old) (S.left source.new) []) }
    ensures cause { HasCause (S.faults source.old) (S.faults source.new) result }
    ensures len { length chunk.new.items ≡ length chunk.old.items }
{
    source.read(chunk.as_mut_slice().split_at_mut(most).0)
}
