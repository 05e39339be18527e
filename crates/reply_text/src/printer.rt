//! From a reply to its line.
ghost use Rattle.std.specs.Prelude.{◌≡◌, ◌≤◌, ◌<◌, ◌++◌, ◌↔◌, ◌∷◌, [], codes, decimal, length, OnOk, OnErr, IsOk};
ghost use Rattle.tree_json.specs.Output.{room_of};
ghost use Rattle.reply_text.specs.Text.{line_of, reply_text};
ghost use Rattle.tree_json.specs.Text.{quoted};
ghost use Rattle.reply_text.specs.Object.{entry, object_text};
ghost use Rattle.reply_text.specs.Printed.{Printed};

use crate::field::{Field, Value};
use crate::found::{print_found, print_layout, print_store};
use crate::line::{TextRefusal, print_error, print_fields};
use crate::refused::print_refusal;
use crate::reply::Reply;
use tree_json::OutText;

/// Appends the text of a reply: compact JSON, names in byte order, and one newline. TooLarge comes exactly where it has
/// more than `most` bytes without the newline. After a refusal nothing was appended; memory never lacks where the text
/// fits the room that is there.
pub fn text(reply: &Reply, most: u64, into: &mut OutText) -> Result<(), TextRefusal>
    ensures ok { OnOk result (into.new.bytes ≡ into.old.bytes ++ reply_text reply.now) }
    ensures too_large { (result ≡ Err TextRefusal.TooLarge) ↔ (most < length (line_of reply.now)) }
    ensures unchanged { OnErr result (into.new ≡ into.old) }
    ensures succeeds { length (line_of reply.now) ≤ most → length (reply_text reply.now) ≤ into.old.spare → IsOk result }
    ensures room { room_of into.old ≤ room_of into.new }
{
    print(reply, most, into)
}

#[tactic(auto, unfolding(crate::specs::Text::line_of, crate::specs::Object::object_text, tree_json::specs::Text::quoted, json::specs::Print::escape_byte))]
fn print(reply: &Reply, most: u64, into: &mut OutText) -> Result<(), TextRefusal>
    ensures { Printed (line_of reply.now) most into.old into.new result }
{
    match reply {
        Reply::Mapped => print_fields(&[Field(b"\"result\":", Value::Text(b"mapped"))], most, into),
        Reply::Refreshed => print_fields(
            &[Field(b"\"result\":", Value::Text(b"refreshed"))],
            most,
            into,
        ),
        Reply::Written { id, number, result } => print_written(
            id.as_slice(),
            *number,
            result.word(),
            most,
            into,
        ),
        Reply::NotFound { id } => print_not_found(id.as_slice(), most, into),
        Reply::Found { page, answers } => print_found(page, answers, most, into),
        Reply::PitOpened { pit } => print_fields(
            &[
                Field(b"\"pit\":", Value::Count(*pit)),
                Field(b"\"result\":", Value::Text(b"opened")),
            ],
            most,
            into,
        ),
        Reply::PitClosed { pit } => print_fields(
            &[
                Field(b"\"pit\":", Value::Count(*pit)),
                Field(b"\"result\":", Value::Text(b"closed")),
            ],
            most,
            into,
        ),
        Reply::MergeStarted { merge, roots } => print_fields(
            &[
                Field(b"\"merge\":", Value::Count(*merge)),
                Field(b"\"roots\":", Value::Count(*roots)),
            ],
            most,
            into,
        ),
        Reply::MergeAdvanced { left, merge } => print_fields(
            &[
                Field(b"\"left\":", Value::Count(*left)),
                Field(b"\"merge\":", Value::Count(*merge)),
            ],
            most,
            into,
        ),
        Reply::MergeFinished { live, merge } => print_fields(
            &[
                Field(b"\"live\":", Value::Count(*live)),
                Field(b"\"merge\":", Value::Count(*merge)),
            ],
            most,
            into,
        ),
        Reply::MergeAborted { merge } => print_fields(
            &[Field(b"\"merge\":", Value::Count(*merge))],
            most,
            into,
        ),
        Reply::ForceMerged { segments } => print_fields(
            &[Field(b"\"segments\":", Value::Count(*segments))],
            most,
            into,
        ),
        Reply::AutoMerge { factor } => print_fields(
            &[Field(b"\"automerge\":", Value::Count(*factor))],
            most,
            into,
        ),
        Reply::Layout { merges, segments } => print_layout(
            merges.as_slice(),
            segments.as_slice(),
            most,
            into,
        ),
        Reply::Committed { next } => print_fields(
            &[Field(b"\"next_seq_no\":", Value::Count(*next))],
            most,
            into,
        ),
        Reply::Compacted { moved, next } => print_fields(
            &[
                Field(b"\"moved\":", Value::Count(*moved)),
                Field(b"\"next_seq_no\":", Value::Count(*next)),
            ],
            most,
            into,
        ),
        Reply::Trimmed { bytes } => print_fields(
            &[Field(b"\"bytes\":", Value::Count(*bytes))],
            most,
            into,
        ),
        Reply::Checked { next, segments } => print_store(*next, segments.as_slice(), most, into),
        Reply::RanMade {
            bytes,
            errors,
            lines,
        } => print_fields(
            &[
                Field(b"\"bytes\":", Value::Count(*bytes)),
                Field(b"\"errors\":", Value::Count(*errors)),
                Field(b"\"lines\":", Value::Count(*lines)),
            ],
            most,
            into,
        ),
        Reply::Refused { why } => print_refusal(why, most, into),
        Reply::OutOfMemory => print_error(
            &[Field(b"\"reason\":", Value::Text(b"out_of_memory"))],
            most,
            into,
        ),
    }
}

#[tactic(auto, unfolding(crate::specs::Text::line_of, crate::specs::Object::object_text, tree_json::specs::Text::quoted, json::specs::Print::escape_byte))]
fn print_written<'a>(
    id: &'a [u8],
    number: u64,
    outcome: &'a str,
    most: u64,
    into: &mut OutText,
) -> Result<(), TextRefusal>
    ensures { Printed (object_text (entry (codes "_id") (quoted id.now) ∷ entry (codes "_seq_no") (decimal number) ∷ entry (codes "result") (quoted outcome.now) ∷ [])) most into.old into.new result }
{
    let fields = [
        Field(b"\"_id\":", Value::Text(id)),
        Field(b"\"_seq_no\":", Value::Count(number)),
        Field(b"\"result\":", Value::Text(outcome.as_bytes())),
    ];
    print_fields(&fields, most, into)
}

#[tactic(auto, unfolding(crate::specs::Text::line_of, crate::specs::Object::object_text, tree_json::specs::Text::quoted, json::specs::Print::escape_byte))]
fn print_not_found(id: &[u8], most: u64, into: &mut OutText) -> Result<(), TextRefusal>
    ensures { Printed (object_text (entry (codes "_id") (quoted id.now) ∷ entry (codes "result") (quoted (codes "not_found")) ∷ [])) most into.old into.new result }
{
    let fields = [
        Field(b"\"_id\":", Value::Text(id)),
        Field(b"\"result\":", Value::Text(b"not_found")),
    ];
    print_fields(&fields, most, into)
}
