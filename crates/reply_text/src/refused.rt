//! Refusals as lines.
ghost use Rattle.std.specs.Prelude.{◌≡◌, ◌∷◌, [], codes};
ghost use Rattle.reply_text.specs.Object.{entry, object_text};
ghost use Rattle.reply_text.specs.Refusal.{further_entries, told, told_by, told_text};
ghost use Rattle.reply_text.specs.Printed.{Printed};

use crate::field::{Field, Value};
use crate::line::{TextRefusal, print_error};
use crate::refusal::{MappingLimit, Refusal};
use tree_json::OutText;

// What a refusal tells besides its number and its reason.
#[derive(Clone, Copy)]
pub(crate) enum Further<'a> {
    Nothing,
    Field(&'a [u8]),
    Limit(MappingLimit),
    Number(u64),
    NoNumber,
    Merge(u64),
    MergeLeft(u64, u64),
}

fn further_of(why: &Refusal) -> Further<'_>
    ensures { further_entries result ≡ (told_by why.now).further }
{
    match why {
        Refusal::MappingLimit { limit } => Further::Limit(*limit),
        Refusal::WrongType { field }
        | Refusal::TermTooLong { field }
        | Refusal::MappingConflict { field } => Further::Field(field.as_slice()),
        Refusal::VersionConflict { live } => match live {
            None => Further::NoNumber,
            Some(number) => Further::Number(*number),
        },
        Refusal::DocumentExists { live } => Further::Number(*live),
        Refusal::MergeOverlaps { merge } => Further::Merge(*merge),
        Refusal::MergeNotDone { left, merge } => Further::MergeLeft(*left, *merge),
        _ => Further::Nothing,
    }
}

/// Prints a refusal as a line.
pub(crate) fn print_refusal(why: &Refusal, most: u64, into: &mut OutText) -> Result<(), TextRefusal>
    ensures { Printed (object_text (entry (codes "error") (told_text (told_by why.now)) ∷ [])) most into.old into.new result }
{
    let (number, reason) = why.known();
    print_told(number, reason.as_bytes(), further_of(why), most, into)
}

#[tactic(auto, unfolding(crate::specs::Object::object_text, tree_json::specs::Text::quoted, json::specs::Print::escape_byte))]
fn print_told<'a>(
    number: u64,
    reason: &'a [u8],
    further: Further<'a>,
    most: u64,
    into: &mut OutText,
) -> Result<(), TextRefusal>
    ensures { Printed (object_text (entry (codes "error") (told_text (told number reason.now (further_entries further.entry))) ∷ [])) most into.old into.new result }
{
    let number = Field(b"\"number\":", Value::Count(number));
    let reason = Field(b"\"reason\":", Value::Text(reason));
    match further {
        Further::Nothing => print_error(&[number, reason], most, into),
        Further::Field(path) => {
            let field = Field(b"\"field\":", Value::Text(path));
            print_error(&[field, number, reason], most, into)
        }
        Further::Limit(limit) => {
            let limit = Field(b"\"limit\":", Value::Text(limit.word().as_bytes()));
            print_error(&[limit, number, reason], most, into)
        }
        Further::NoNumber => {
            let live = Field(b"\"seq_no\":", Value::Whole(-1));
            print_error(&[number, reason, live], most, into)
        }
        Further::Number(live) => {
            let live = Field(b"\"seq_no\":", Value::Count(live));
            print_error(&[number, reason, live], most, into)
        }
        Further::Merge(id) => {
            let merge = Field(b"\"merge\":", Value::Count(id));
            print_error(&[merge, number, reason], most, into)
        }
        Further::MergeLeft(count, id) => {
            let left = Field(b"\"left\":", Value::Count(count));
            let merge = Field(b"\"merge\":", Value::Count(id));
            print_error(&[left, merge, number, reason], most, into)
        }
    }
}
