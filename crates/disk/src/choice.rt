//! Which of the things that a stop may leave one is to see.

ghost use Rattle.std.specs.Prelude.{◌≡◌, IfOk, OnOk};
ghost use Rattle.disk.specs.Choices.{fits, fits_one, chosen, write_chosen, chosen_step, choices_behind};

use crate::bytes::Bytes;
use crate::disk_call::DiskCall;
use crate::file_bytes::put;
use crate::pending::{Pending, PendingList};
use io_edges::NoMemory;
use std::marker::Model;

/// What a stop left of one pending write or cut.
#[derive(Drop)]
pub enum Choice {
    /// As if it hadn't been.
    Old,
    /// As if it had been done: a gap before a written range is zeros.
    New,
    /// A written range with these bytes in it, as many as it is long.
    Given(Bytes),
}

/// One choice for each write and cut that is pending, in order.
#[derive(Drop)]
pub struct PieceChoice {
    choices: Vec<Choice>,
}

impl Model for PieceChoice {
    ghost use Rattle.std.specs.Prelude.{List};
    ghost use Rattle.disk.specs.declared.choice.Choice.{Choice};

    ghost Value = { List Choice };

    ghost view = { λ list. list.choices.items };
}

impl PieceChoice {
    /// The list of these. Takes no memory.
    pub fn of(choices: Vec<Choice>) -> PieceChoice
        ensures { result ≡ choices.items }
    {
        PieceChoice { choices }
    }

    /// The choices, in order.
    pub fn as_slice(&self) -> &[Choice]
        ensures { result.now ≡ self.now }
    {
        self.choices.as_slice()
    }

    /// Whether there is one choice for each that is pending, and given bytes are for a written range and as many as it is long.
    pub fn fits(&self, pending: &PendingList) -> bool
        ensures { result ≡ fits self.now pending.now }
    {
        let mut rest = pending.as_slice();
        'choices: for choice in self.choices.as_slice() {
            match rest {
                [it, others @ ..] => {
                    if !choice.fits(*it) {
                        return false;
                    }
                    rest = others;
                }
                [] => return false,
            }
        }
        rest.is_empty()
    }
}

impl Choice {
    // Whether it can be chosen of this.
    fn fits(&self, pending: Pending) -> bool
        ensures { result ≡ fits_one self.now pending }
    {
        match self {
            Choice::Old | Choice::New => true,
            Choice::Given(bytes) => match pending {
                Pending::Written { len, .. } => bytes.as_slice().len() as u64 == len,
                Pending::Cut { .. } => false,
            },
        }
    }
}

// Does to the file what is chosen of each call. NoMemory: the file is some other one.
pub(crate) fn choose_all(
    choices: &[Choice],
    calls: &[DiskCall],
    file: &mut Vec<u8>,
) -> Result<(), NoMemory>
    ensures { OnOk result (file.new.items ≡ chosen choices.now calls.now file.old.items) }
{
    let mut behind = choices;
    'calls: for call in calls {
        behind = choose(behind, call, file)?;
    }
    Ok(())
}

// Does to the file what is chosen of a call, and answers the choices for the calls behind it.
fn choose<'a>(
    choices: &'a [Choice],
    call: &DiskCall,
    file: &mut Vec<u8>,
) -> Result<&'a [Choice], NoMemory>
    ensures file { OnOk result (file.new.items ≡ chosen_step choices.now call.now file.old.items) }
    ensures behind { IfOk result (λ behind. behind.now ≡ choices_behind choices.now call.now) }
{
    let [choice, behind @ ..] = choices else {
        return Ok(choices);
    };
    match call {
        DiskCall::Look | DiskCall::Sync => Ok(choices),
        DiskCall::Write { at, bytes, .. } => {
            write_chosen(choice, *at as usize, bytes.as_slice(), file)?;
            Ok(behind)
        }
        DiskCall::Cut { len, .. } => {
            if let Choice::New = choice {
                file.truncate(*len as usize);
            }
            Ok(behind)
        }
    }
}

// Does to the file what is chosen of a write.
fn write_chosen(
    choice: &Choice,
    at: usize,
    bytes: &[u8],
    file: &mut Vec<u8>,
) -> Result<(), NoMemory>
    ensures { OnOk result (file.new.items ≡ write_chosen choice.now at bytes.now file.old.items) }
{
    match choice {
        Choice::Old => Ok(()),
        Choice::New => put(file, at, bytes),
        Choice::Given(given) => put(file, at, given.as_slice()),
    }
}
