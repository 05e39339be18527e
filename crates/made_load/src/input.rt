//! The made input, a few lines at a time.
ghost use Rattle.std.specs.Prelude.{◌≡◌, ◌≤◌, ◌↔◌, [], OnErr, IsOk, true, false};
ghost use Rattle.tree_json.specs.Output.{room_of};
ghost use Rattle.made_load.specs.Lines.{made_lines};
ghost use Rattle.made_load.specs.Given.{Gives};

use crate::draws::Draws;
use crate::lines::{put_change, put_commit, put_mapping, put_pauses};
use std::marker::Model;
use tree_json::{NoMemory, OutText};

/// The room, in bytes, in which the lines of each call fit.
pub const LONGEST_STEP: u64 = 1_024;

/// What comes next.
#[derive(Clone, Copy)]
pub(crate) enum Part {
    Mapping,
    Changes,
    Nothing,
}

/// The lines of the made input that weren't handed out yet. Contracts see them as a list of lines without their newlines.
#[derive(Drop)]
pub struct MadeInput {
    part: Part,
    document: u32,
    count: u32,
    draws: Draws,
}

impl Model for MadeInput {
    ghost use Rattle.std.specs.Prelude.{List, ℕ};
    ghost use Rattle.made_load.specs.Left.{lines_left};

    ghost Value = { List (List ℕ) };

    ghost view = { λ input. lines_left input.part input.document input.count input.draws.state };
}

impl MadeInput {
    /// The input of a number, at which the draws begin, with so many changes. Every number and every count is allowed.
    pub fn of(number: u64, count: u32) -> MadeInput
        ensures { result ≡ made_lines number count }
    {
        MadeInput {
            part: Part::Mapping,
            document: 0,
            count,
            draws: Draws { state: number },
        }
    }

    /// Appends the next lines, each with its newline: the mapping, a change with what comes behind it, or the commit. False says
    /// that none are left. After NoMemory nothing was appended and the same lines are left.
    pub fn append_next(&mut self, into: &mut OutText) -> Result<bool, NoMemory>
        ensures given { result ≡ Ok true → Gives self.old self.new into.old.bytes into.new.bytes }
        ensures end { (result ≡ Ok false) ↔ (self.old ≡ []) }
        ensures ended { result ≡ Ok false → (self.new ≡ []) × (into.new.bytes ≡ into.old.bytes) }
        ensures unchanged { OnErr result ((self.new ≡ self.old) × (into.new ≡ into.old)) }
        ensures succeeds { LONGEST_STEP ≤ into.old.spare → IsOk result }
        ensures room { room_of into.old ≤ room_of into.new }
    {
        match self.part {
            Part::Nothing => Ok(false),
            Part::Mapping => {
                into.reserve(LONGEST_STEP)?;
                put_mapping(into);
                self.part = Part::Changes;
                Ok(true)
            }
            Part::Changes => {
                into.reserve(LONGEST_STEP)?;
                if self.document < self.count {
                    put_change(self.document as u64, &mut self.draws, into);
                    put_pauses(self.document as u64, into);
                    self.document += 1;
                } else {
                    put_commit(into);
                    self.part = Part::Nothing;
                }
                Ok(true)
            }
        }
    }
}
