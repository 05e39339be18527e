//! First lines: the commands that they say.
ghost use Rattle.std.specs.Prelude.{◌≡◌, map, option_map, IfOk, codes, if◌then◌else◌, Some, None, []};
ghost use Rattle.tree_json.specs.Value.{members_of, member_of};
ghost use Rattle.tree_json.specs.View.{view};
ghost use Rattle.search_form.specs.Form.{is_search_body};
ghost use Rattle.request_form.specs.declared.form.Name.TheVariants as Name;
ghost use Rattle.request_form.specs.Form.{has_lines};
ghost use Rattle.request_form.specs.Table.{names, start_lines, advance_lines, merge_id_lines};
ghost use Rattle.request_form.specs.Command.{if_formed, alone, search, finish_merge, abort_merge, number_or, flag_in, target_of, part_of, start_of, advance_of, command_by, command_named, command_in, command_of, name_among};
ghost use Rattle.request_form.specs.Seen.{target_view, action_view, command_view};

use crate::action::{Action, Operation, Target, Write};
use crate::form::Name;
use crate::object::{
    flag_under, has_lines, id_under, number_or, number_under, object_of, single, text_under,
};
use crate::table::{
    ADVANCE, AUTOMERGE, CLOSE_PIT, COMPACT, CREATE, FORCE_MERGE, MERGE_ID, NAMES, START, WRITE,
};
use std::alloc::Global;
use tree_json::{Json, JsonObject, JsonText, NoMemory};

/// What a first line says.
#[derive(Drop)]
pub(crate) enum Command {
    /// It stands alone.
    Alone(Action),
    /// It lacks its source line.
    Indexes(Target),
    Creates(Target),
    Updates(Target),
}

/// The command that a value is, if it has the form of one.
#[tactic(auto, unfolding(crate::specs::Command::command_of))]
pub(crate) fn command_of(alloc: Global, value: Json) -> Result<Option<Command>, NoMemory>
    ensures { IfOk result (λ command. option_map command_view command ≡ command_of (view value)) }
{
    match object_of(value) {
        Some(members) => command_in(alloc, single(members)),
        None => Ok(None),
    }
}

fn command_in(alloc: Global, member: Option<(JsonText, Json)>) -> Result<Option<Command>, NoMemory>
    ensures { IfOk result (λ command. option_map command_view command ≡ command_in (option_map (λ it. (it.0, view it.1)) member)) }
{
    let Some((word, value)) = member else {
        return Ok(None);
    };
    match object_of(value) {
        Some(object) => command_named(alloc, word.as_slice(), object),
        None => Ok(None),
    }
}

fn command_named(
    alloc: Global,
    word: &[u8],
    object: JsonObject,
) -> Result<Option<Command>, NoMemory>
    ensures { IfOk result (λ command. option_map command_view command ≡ command_named word.now (members_of object)) }
{
    match name_of(word) {
        Some(name) => command_by(alloc, name, object),
        None => Ok(None),
    }
}

fn name_of(word: &[u8]) -> Option<Name>
    ensures { result ≡ name_among word.now names }
{
    name_among(word, NAMES)
}

fn name_among(word: &[u8], names: &[(&'static [u8], Name)]) -> Option<Name>
    ensures { result ≡ name_among word.now (map (λ n. (n.0.now, n.1)) names.now) }
{
    'names: for (known, name) in names {
        if word == *known {
            return Some(*name);
        }
    }
    None
}

fn command_by(alloc: Global, name: Name, object: JsonObject) -> Result<Option<Command>, NoMemory>
    ensures { IfOk result (λ command. option_map command_view command ≡ command_by name (members_of object)) }
{
    match name {
        Name::Index => indexes(alloc, &object),
        Name::Create => creates(alloc, &object),
        Name::Update => updates(alloc, &object),
        Name::Delete => deletes(alloc, &object),
        Name::Mapping => Ok(Some(Command::Alone(Action::Mapping(Json::Object(object))))),
        Name::Search => Ok(searches(Json::Object(object))),
        Name::Refresh => Ok(bare(Action::Refresh, &object)),
        Name::Segments => Ok(bare(Action::Segments, &object)),
        Name::OpenPit => Ok(bare(Action::OpenPit, &object)),
        Name::ClosePit => Ok(closes_pit(&object)),
        Name::ForceMerge => Ok(forces_merge(&object)),
        Name::Merge => Ok(merges(object)),
        Name::Commit => Ok(bare(Action::Commit, &object)),
        Name::Compact => Ok(compacts(&object)),
        Name::Trim => Ok(bare(Action::Trim, &object)),
        Name::Automerge => Ok(automerges(&object)),
    }
}

fn target_of(alloc: Global, object: &JsonObject) -> Result<Target, NoMemory>
    ensures { IfOk result (λ target. target_view target ≡ target_of (members_of object.now)) }
{
    Ok(Target {
        id: id_under(alloc, object)?,
        index: text_under(alloc, object, b"_index")?,
        if_seq_no: number_under(object, b"if_seq_no"),
    })
}

fn indexes(alloc: Global, object: &JsonObject) -> Result<Option<Command>, NoMemory>
    ensures { IfOk result (λ command. option_map command_view command ≡ command_by Name.Index (members_of object.now)) }
{
    if has_lines(WRITE, object) {
        Ok(Some(Command::Indexes(target_of(alloc, object)?)))
    } else {
        Ok(None)
    }
}

fn creates(alloc: Global, object: &JsonObject) -> Result<Option<Command>, NoMemory>
    ensures { IfOk result (λ command. option_map command_view command ≡ command_by Name.Create (members_of object.now)) }
{
    if has_lines(CREATE, object) {
        Ok(Some(Command::Creates(target_of(alloc, object)?)))
    } else {
        Ok(None)
    }
}

fn updates(alloc: Global, object: &JsonObject) -> Result<Option<Command>, NoMemory>
    ensures { IfOk result (λ command. option_map command_view command ≡ command_by Name.Update (members_of object.now)) }
{
    if has_lines(WRITE, object) {
        Ok(Some(Command::Updates(target_of(alloc, object)?)))
    } else {
        Ok(None)
    }
}

fn deletes(alloc: Global, object: &JsonObject) -> Result<Option<Command>, NoMemory>
    ensures { IfOk result (λ command. option_map command_view command ≡ command_by Name.Delete (members_of object.now)) }
{
    if has_lines(WRITE, object) {
        let write = Write {
            target: target_of(alloc, object)?,
            operation: Operation::Delete,
        };
        Ok(Some(Command::Alone(Action::Write(write))))
    } else {
        Ok(None)
    }
}

// A search, if its body has the form of one.
fn searches(body: Json) -> Option<Command>
    ensures { option_map command_view result ≡ if_formed (is_search_body (view body)) (alone (search (view body))) }
{
    if search_form::search(&body).is_ok() {
        Some(Command::Alone(Action::Search(body)))
    } else {
        None
    }
}

// A command that has no names.
fn bare(action: Action, object: &JsonObject) -> Option<Command>
    ensures { option_map command_view result ≡ if_formed (has_lines [] (members_of object.now)) (alone (action_view action)) }
{
    if has_lines(&[], object) {
        Some(Command::Alone(action))
    } else {
        None
    }
}

fn closes_pit(object: &JsonObject) -> Option<Command>
    ensures { option_map command_view result ≡ command_by Name.ClosePit (members_of object.now) }
{
    if has_lines(CLOSE_PIT, object) {
        Some(Command::Alone(Action::ClosePit(number_or(0, object, b"id"))))
    } else {
        None
    }
}

fn forces_merge(object: &JsonObject) -> Option<Command>
    ensures { option_map command_view result ≡ command_by Name.ForceMerge (members_of object.now) }
{
    if has_lines(FORCE_MERGE, object) {
        let most = number_or(1, object, b"max_num_segments");
        Some(Command::Alone(Action::ForceMerge(most)))
    } else {
        None
    }
}

fn merges(object: JsonObject) -> Option<Command>
    ensures { option_map command_view result ≡ command_by Name.Merge (members_of object) }
{
    let (name, value) = single(object)?;
    let part = object_of(value)?;
    Some(Command::Alone(part_of(name.as_slice(), &part)?))
}

fn part_of(name: &[u8], object: &JsonObject) -> Option<Action>
    ensures { option_map action_view result ≡ part_of name.now (members_of object.now) }
{
    if name == b"start".as_slice() {
        return start_of(object);
    }
    if name == b"advance".as_slice() {
        return advance_of(object);
    }
    if name == b"finish".as_slice() {
        return finish_of(object);
    }
    if name == b"abort".as_slice() {
        return abort_of(object);
    }
    None
}

fn start_of(object: &JsonObject) -> Option<Action>
    ensures { option_map action_view result ≡ if_formed (has_lines start_lines (members_of object.now)) (start_of (members_of object.now)) }
{
    if has_lines(START, object) {
        Some(Action::StartMerge {
            from: number_or(0, object, b"from"),
            count: number_or(0, object, b"count"),
        })
    } else {
        None
    }
}

fn advance_of(object: &JsonObject) -> Option<Action>
    ensures { option_map action_view result ≡ if_formed (has_lines advance_lines (members_of object.now)) (advance_of (members_of object.now)) }
{
    if has_lines(ADVANCE, object) {
        Some(Action::AdvanceMerge {
            id: number_or(0, object, b"id"),
            roots: number_or(0, object, b"roots"),
        })
    } else {
        None
    }
}

fn finish_of(object: &JsonObject) -> Option<Action>
    ensures { option_map action_view result ≡ if_formed (has_lines merge_id_lines (members_of object.now)) (finish_merge (number_or 0 (members_of object.now) (codes "id"))) }
{
    if has_lines(MERGE_ID, object) {
        Some(Action::FinishMerge(number_or(0, object, b"id")))
    } else {
        None
    }
}

fn abort_of(object: &JsonObject) -> Option<Action>
    ensures { option_map action_view result ≡ if_formed (has_lines merge_id_lines (members_of object.now)) (abort_merge (number_or 0 (members_of object.now) (codes "id"))) }
{
    if has_lines(MERGE_ID, object) {
        Some(Action::AbortMerge(number_or(0, object, b"id")))
    } else {
        None
    }
}

fn compacts(object: &JsonObject) -> Option<Command>
    ensures { option_map command_view result ≡ command_by Name.Compact (members_of object.now) }
{
    if has_lines(COMPACT, object) {
        let moves = number_or(1, object, b"moves");
        Some(Command::Alone(Action::Compact(moves)))
    } else {
        None
    }
}

fn automerges(object: &JsonObject) -> Option<Command>
    ensures { option_map command_view result ≡ command_by Name.Automerge (members_of object.now) }
{
    if has_lines(AUTOMERGE, object) {
        Some(Command::Alone(Action::Automerge(factor_of(object))))
    } else {
        None
    }
}

fn factor_of(object: &JsonObject) -> Option<u64>
    ensures { result ≡ if flag_in (member_of (members_of object.now) (codes "on")) then Some (number_or 2 (members_of object.now) (codes "factor")) else None }
{
    if flag_under(object, b"on") {
        Some(number_or(2, object, b"factor"))
    } else {
        None
    }
}
