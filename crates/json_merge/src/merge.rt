//! A change merged into a live value: both are walked once, name by name.
ghost use Rattle.std.specs.Prelude.{◌≡◌, ◌≤◌, ℕ, List, false, IfOk, OnOk};
ghost use Rattle.tree_json.specs.Levels.{levels};
ghost use Rattle.tree_json.specs.Value.{JsonValue, object, member_of, members_of};
ghost use Rattle.tree_json.specs.View.{view, entries};
ghost use Rattle.json_merge.specs.Merged.{merged, merged_members, under};
ghost use Rattle.json_merge.specs.Coming.{behind, is_before, Carries, Joins};

use crate::coming::{next_before, next_named};
use std::alloc::Global;
use std::collections::VecDeque;
use tree_json::{Json, JsonObject, JsonText, NoMemory};

/// The change, merged into the live value: objects are merged member by member, all else is replaced, and null is a value
/// like others. Members are moved; the time grows with the members of the objects that are merged, and memory is taken for
/// their lists alone.
#[cycle(merge)]
pub fn merged(alloc: Global, change: Json, live: Json) -> Result<Json, NoMemory>
    ensures { IfOk result (λ value. view value ≡ merged (view change) (view live)) }
{
    match change {
        Json::Object(changes) => merged_object(alloc, changes, live),
        other => Ok(other),
    }
}

/// What stands under each name of a merged object: the live value where the change has none, the change's where there is no
/// live one, and else both merged. It does nothing: the law is its contract.
#[tactic(auto, using(crate::proofs::Under::under_merged))]
pub fn members_are_merged(change: &JsonObject, live: &JsonObject)
    ensures { (name : List ℕ) → member_of (merged_members (members_of change.now) (members_of live.now)) name
        ≡ under (member_of (members_of change.now) name) (member_of (members_of live.now) name) }
{
    let (_changes, _members) = (change.as_slice(), live.as_slice());
}

/// Merged values nest no deeper than what is merged.
pub fn merged_values_nest_no_deeper()
    ensures { (change live : JsonValue) (most : ℕ) → levels change ≤ most → levels live ≤ most → levels (merged change live) ≤ most }
{}

#[cycle(merge)]
fn merged_object(alloc: Global, changes: JsonObject, live: Json) -> Result<Json, NoMemory>
    ensures { IfOk result (λ value. view value ≡ merged (object (members_of changes)) (view live)) }
{
    match live {
        Json::Object(members) => Ok(Json::Object(merged_members(alloc, changes, members)?)),
        _ => Ok(Json::Object(changes)),
    }
}

#[cycle(merge)]
#[tactic(auto, using(crate::proofs::Merging::joining, crate::proofs::Merging::size_first))]
fn merged_members(
    alloc: Global,
    changes: JsonObject,
    live: JsonObject,
) -> Result<JsonObject, NoMemory>
    ensures { IfOk result (λ whole. members_of whole ≡ merged_members (members_of changes) (members_of live)) }
{
    let mut found = Vec::new(alloc);
    let mut coming = VecDeque::from_vec(live.into_vec());
    'changes: for (name, value) in changes.into_vec() {
        put_change(alloc, name, value, &mut coming, &mut found)?;
    }
    put_rest(&mut coming, &mut found)?;
    Ok(JsonObject::of(found))
}

// Puts the live members before a name, and then the changed one under it.
#[cycle(merge)]
#[tactic(auto, using(crate::proofs::Merging::joins))]
fn put_change(
    alloc: Global,
    name: JsonText,
    value: Json,
    coming: &mut VecDeque<(JsonText, Json)>,
    found: &mut Vec<(JsonText, Json)>,
) -> Result<(), NoMemory>
    ensures { OnOk result (Joins name (view value) (entries found.old.items) (entries coming.old.items) (entries found.new.items) (entries coming.new.items)) }
{
    put_before(name.as_slice(), coming, found)?;
    match next_named(coming, name.as_slice()) {
        Some(former) => found.push((name, merged(alloc, value, former)?))?,
        None => found.push((name, value))?,
    }
    Ok(())
}

// Puts the members before a name.
#[tactic(auto, using(crate::proofs::Merging::carries))]
fn put_before(
    name: &[u8],
    coming: &mut VecDeque<(JsonText, Json)>,
    found: &mut Vec<(JsonText, Json)>,
) -> Result<(), NoMemory>
    ensures carries { OnOk result (Carries name.now (entries found.old.items) (entries coming.old.items) (entries found.new.items) (entries coming.new.items)) }
    ensures none_before { OnOk result (is_before name.now (entries coming.new.items) ≡ false) }
{
    'members: while let Some(member) = next_before(coming, name) {
        found.push(member)?;
    }
    Ok(())
}

// Puts all members that are left.
#[tactic(auto, using(crate::proofs::Merging::rests))]
fn put_rest(
    coming: &mut VecDeque<(JsonText, Json)>,
    found: &mut Vec<(JsonText, Json)>,
) -> Result<(), NoMemory>
    ensures { OnOk result (members_of (entries found.new.items) ≡ behind (entries found.old.items) (members_of (entries coming.old.items))) }
{
    'members: while let Some(member) = coming.pop_front() {
        found.push(member)?;
    }
    Ok(())
}
