//! Copies of JSON values.
ghost use Rattle.std.specs.Prelude.{◌≡◌, IfOk};
ghost use Rattle.tree_json.specs.Names.{IsAscending};
ghost use Rattle.tree_json.specs.View.{view, values, entries};

use crate::refusal::NoMemory;
use std::alloc::Global;
use tree_json::{Json, JsonList, JsonObject, JsonText};

/// A value once more, with all that it holds.
#[cycle(copies)]
#[tactic(auto, using(crate::proofs::Walks::sizes))]
pub fn copied(alloc: Global, value: &Json) -> Result<Json, NoMemory>
    ensures { IfOk result (λ j. view j ≡ view value.now) }
{
    match value {
        Json::Null => Ok(Json::Null),
        Json::Bool(holds) => Ok(Json::Bool(*holds)),
        Json::Whole(number) => Ok(Json::Whole(*number)),
        Json::Text(text) => Ok(Json::Text(copied_text(alloc, text)?)),
        Json::List(list) => Ok(Json::List(copied_list(alloc, list.as_slice())?)),
        Json::Object(object) => Ok(Json::Object(copied_object(alloc, object.as_slice())?)),
    }
}

fn copied_text(alloc: Global, text: &JsonText) -> Result<JsonText, NoMemory>
    ensures { IfOk result (λ t. t ≡ text.now) }
{
    let bytes = text.as_slice();
    Ok(JsonText::of(bytes.to_vec(alloc)?))
}

#[cycle(copies)]
#[tactic(auto, using(crate::proofs::Walks::sizes))]
fn copied_list(alloc: Global, elements: &[Json]) -> Result<JsonList, NoMemory>
    ensures { IfOk result (λ l. l ≡ values elements.now) }
{
    let mut found = Vec::with_capacity(alloc, elements.len())?;
    'elements: for element in elements {
        found.push(copied(alloc, element)?)?;
    }
    Ok(JsonList::of(found))
}

#[cycle(copies)]
#[tactic(auto, using(crate::proofs::Walks::sizes))]
fn copied_object(alloc: Global, members: &[(JsonText, Json)]) -> Result<JsonObject, NoMemory>
    requires { IsAscending (entries members.now) }
    ensures { IfOk result (λ o. o ≡ entries members.now) }
{
    let mut found = Vec::with_capacity(alloc, members.len())?;
    'members: for (name, value) in members {
        found.push((copied_text(alloc, name)?, copied(alloc, value)?))?;
    }
    Ok(JsonObject::of(found))
}
