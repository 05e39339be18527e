//! Requests: what their lines ask for.
ghost use Rattle.std.specs.Prelude.{◌≡◌, option_map, IfOk, IfErr, IfSome, Some, None, codes, if◌then◌else◌};
ghost use Rattle.tree_json.specs.Reading.{reading};
ghost use Rattle.tree_json.specs.Value.{members_of, member_of, is_object};
ghost use Rattle.tree_json.specs.View.{view, entries};
ghost use Rattle.line_reader.specs.View.{first_line_of, source_line_of};
ghost use Rattle.request_form.specs.Command.{index, create, indexes, updates};
ghost use Rattle.request_form.specs.Asked.{asks, asks_or_bad, asked_of, asked_by, is_value, value_of, operation_of, changes_of, is_at_odds};
ghost use Rattle.request_form.specs.Seen.{target_view, changes_view, operation_view, action_view, command_view, first_there, HasNoValue, IsRefused, IsRefusedFirst, AsksAs};

use crate::action::{Action, Changes, Operation, Target, Write};
use crate::command::{Command, command_of};
use crate::object::{flag_under, has_lines, object_of};
use crate::refusal::FormRefusal;
use crate::table::UPDATE;
use crate::value::is_object;
use line_reader::{FirstLine, SourceLine};
use std::alloc::Global;
use tree_json::{Json, JsonObject, JsonReader, JsonRefusal, JsonText, NoMemory};

/// Why there is no action.
#[derive(Drop)]
pub enum NoAction {
    /// The lines are no request.
    Refused(FormRefusal),
    NoMemory,
}

impl From<JsonRefusal> for NoAction {
    ghost use Rattle.std.specs.Prelude.{◌≡◌};
    ghost use Rattle.request_form.specs.Seen.{no_action_of};

    ghost from_gives = { λ why e. e ≡ no_action_of why };

    fn from(why: JsonRefusal) -> NoAction {
        match why {
            JsonRefusal::BadJson => NoAction::Refused(FormRefusal::BadJson),
            JsonRefusal::FractionNumber => NoAction::Refused(FormRefusal::FractionNumber),
            JsonRefusal::NoMemory => NoAction::NoMemory,
        }
    }
}

impl From<NoMemory> for NoAction {
    ghost use Rattle.std.specs.Prelude.{◌≡◌};
    ghost use Rattle.request_form.specs.declared.request.NoAction.TheVariants.{NoMemory};

    ghost from_gives = { λ _ e. e ≡ NoMemory };

    fn from(_error: tree_json::NoMemory) -> NoAction {
        NoAction::NoMemory
    }
}

/// What a request asks for. The first line's refusals come first.
///
/// Beside a whole first line, `second` is `NotTaken` exactly where that line takes no source line.
#[tactic(auto, unfolding(crate::specs::Asked::asked_of))]
pub fn asked(
    alloc: Global,
    reader: &mut JsonReader,
    first: FirstLine<'_>,
    second: SourceLine<'_>,
) -> Result<Action, NoAction>
    ensures ok { IfOk result (λ a. asked_of (first_line_of first.entry) (source_line_of second.entry) ≡ asks (action_view a)) }
    ensures refused { IfErr result (IsRefused (asked_of (first_line_of first.entry) (source_line_of second.entry))) }
{
    match first {
        FirstLine::TooLong => Err(NoAction::Refused(FormRefusal::LineTooLong)),
        FirstLine::Whole(line) => match command_at(alloc, reader, line) {
            Ok(command) => action_by(alloc, reader, command, second),
            Err(why) => Err(why),
        },
    }
}

// What a first line says. Most lines are the action lines of `index` with a text as their id, of which only the id is copied.
#[tactic(auto, using(crate::proofs::FirstLines::first_lines))]
fn command_at(
    alloc: Global,
    reader: &mut JsonReader,
    line: &[u8],
) -> Result<Option<Command>, NoAction>
    ensures ok { IfOk result (λ command. AsksAs (reading line.now) (option_map command_view command)) }
    ensures refused { IfErr result (IsRefusedFirst (reading line.now)) }
{
    match index_target(alloc, reader, line)? {
        Some(target) => Ok(Some(Command::Indexes(target))),
        None => Ok(command_of(alloc, reader.read(alloc, line)?)?),
    }
}

// The target of an action line of `index` that names an id alone, where the line is found to be one.
#[tactic(auto, using(crate::proofs::FirstLines::first_lines))]
fn index_target(
    alloc: Global,
    reader: &mut JsonReader,
    line: &[u8],
) -> Result<Option<Target>, NoMemory>
    ensures { IfOk result (λ found. IfSome found (λ target. AsksAs (reading line.now) (Some (indexes (target_view target))))) }
{
    let Some(it) = reader.one_text(line) else {
        return Ok(None);
    };
    if it.outer == "index" && it.inner == "_id" && !it.text.is_empty() {
        Ok(Some(target_alone(alloc, it.text)?))
    } else {
        Ok(None)
    }
}

// A target that names an id alone.
fn target_alone(alloc: Global, id: &str) -> Result<Target, NoMemory>
    ensures { IfOk result (λ target. target_view target ≡ record { id = id.now; index = None; if_seq_no = None }) }
{
    Ok(Target {
        id: JsonText::of_str(alloc, id)?,
        index: None,
        if_seq_no: None,
    })
}

fn action_by(
    alloc: Global,
    reader: &mut JsonReader,
    command: Option<Command>,
    second: SourceLine<'_>,
) -> Result<Action, NoAction>
    ensures ok { IfOk result (λ a. asked_by (option_map command_view command) (source_line_of second.entry) ≡ asks (action_view a)) }
    ensures refused { IfErr result (IsRefused (asked_by (option_map command_view command) (source_line_of second.entry))) }
{
    match command {
        None => Err(NoAction::Refused(FormRefusal::BadRequest)),
        Some(Command::Alone(action)) => Ok(action),
        Some(Command::Indexes(target)) => {
            let source = source_of(alloc, reader, second)?;
            written(target, indexed(source))
        }
        Some(Command::Creates(target)) => {
            let source = source_of(alloc, reader, second)?;
            written(target, created(source))
        }
        Some(Command::Updates(target)) => {
            let source = source_of(alloc, reader, second)?;
            let operation = updated(&target, source);
            written(target, operation)
        }
    }
}

// The value of a source line.
fn source_of(
    alloc: Global,
    reader: &mut JsonReader,
    second: SourceLine<'_>,
) -> Result<Json, NoAction>
    ensures ok { IfOk result (λ v. value_of (source_line_of second.entry) ≡ is_value (view v)) }
    ensures refused { IfErr result (HasNoValue (value_of (source_line_of second.entry))) }
{
    match second {
        SourceLine::NotTaken => Err(NoAction::Refused(FormRefusal::BadRequest)),
        SourceLine::Missing => Err(NoAction::Refused(FormRefusal::MissingSource)),
        SourceLine::TooLong => Err(NoAction::Refused(FormRefusal::LineTooLong)),
        SourceLine::Whole(line) => Ok(reader.read(alloc, line)?),
    }
}

// The write of an operation, if the source line had its form.
fn written(target: Target, operation: Option<Operation>) -> Result<Action, NoAction>
    ensures ok { IfOk result (λ a. asks_or_bad (option_map operation_view operation) (target_view target) ≡ asks (action_view a)) }
    ensures refused { IfErr result (IsRefused (asks_or_bad (option_map operation_view operation) (target_view target))) }
{
    match operation {
        Some(operation) => Ok(Action::Write(Write { target, operation })),
        None => Err(NoAction::Refused(FormRefusal::BadRequest)),
    }
}

fn indexed(source: Json) -> Option<Operation>
    ensures { option_map operation_view result ≡ if is_object (view source) then Some (index (view source)) else None }
{
    if is_object(&source) {
        Some(Operation::Index(source))
    } else {
        None
    }
}

fn created(source: Json) -> Option<Operation>
    ensures { option_map operation_view result ≡ if is_object (view source) then Some (create (view source)) else None }
{
    if is_object(&source) {
        Some(Operation::Create(source))
    } else {
        None
    }
}

fn updated(target: &Target, source: Json) -> Option<Operation>
    ensures { option_map operation_view result ≡ operation_of (updates (target_view target.now)) (view source) }
{
    let object = object_of(source)?;
    if !has_lines(UPDATE, &object) {
        return None;
    }
    let changes = changes_of(object);
    if is_at_odds(target, &changes) {
        None
    } else {
        Some(Operation::Update(changes))
    }
}

fn is_at_odds(target: &Target, changes: &Changes) -> bool
    ensures { result ≡ is_at_odds (target_view target.now) (changes_view changes.now) }
{
    target.if_seq_no.is_some() && (changes.upsert.is_some() || changes.doc_as_upsert)
}

fn changes_of(object: JsonObject) -> Changes
    ensures { changes_view result ≡ changes_of (members_of object) }
{
    let doc_as_upsert = flag_under(&object, b"doc_as_upsert");
    let (doc, upsert) = documents_of(object.into_vec());
    Changes {
        doc: doc.unwrap_or(Json::Null),
        upsert,
        doc_as_upsert,
    }
}

// What stands under `doc` and under `upsert`.
fn documents_of(members: Vec<(JsonText, Json)>) -> (Option<Json>, Option<Json>)
    ensures doc { option_map view result.0 ≡ member_of (members_of (entries members.items)) (codes "doc") }
    ensures upsert { option_map view result.1 ≡ member_of (members_of (entries members.items)) (codes "upsert") }
{
    let mut doc = None;
    let mut upsert = None;
    'members: for (name, value) in members {
        if name.as_slice() == b"doc".as_slice() {
            keep(&mut doc, value);
        } else if name.as_slice() == b"upsert".as_slice() {
            keep(&mut upsert, value);
        }
    }
    (doc, upsert)
}

// The first value stays.
fn keep(slot: &mut Option<Json>, value: Json)
    ensures { option_map view slot.new ≡ first_there (option_map view slot.old) (Some (view value)) }
{
    if slot.is_none() {
        *slot = Some(value);
    }
}
