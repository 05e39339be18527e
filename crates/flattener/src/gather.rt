//! What a value has along names.
ghost use Rattle.std.specs.Prelude.{◌≡◌, ◌++◌, ◌∷◌, [], map, option_map, IfOk, OnOk};
ghost use Rattle.std.specs.Option.{option_to_list};
ghost use Rattle.tree_json.specs.Value.{object, members_of, member_of, elements_of};
ghost use Rattle.tree_json.specs.View.{view, values};
ghost use Rattle.tree_objects.specs.Object.{items, items_in};
ghost use Rattle.flattener.specs.Walked.{names_left, names_behind};

use crate::names::first_name;
use crate::refusal::NoMemory;
use tree_json::{Json, JsonObject};

/// Members are looked at one by one up to so many.
const FEW_MEMBERS: usize = 8;

/// There may be several items: a list stands on the way, or the field isn't at its home.
#[derive(Clone, Copy, Debug, PartialEq, Eq)]
pub(crate) struct MaybeSeveral;

/// The item that a value has along the names of a path, or none, where no list stands on the way.
#[cycle(alone)]
#[tactic(auto, using(crate::proofs::Gathers::gathers))]
pub(crate) fn alone<'a>(
    value: &'a Json,
    path: Option<&[u8]>,
) -> Result<Option<&'a Json>, MaybeSeveral>
    ensures { IfOk result (λ item. items (view value.now) (names_left (option_map (λ p. p.now) path.entry)) ≡ option_to_list (option_map (λ j. view j.now) item)) }
{
    match value {
        Json::Null => Ok(None),
        Json::List(_) => Err(MaybeSeveral),
        Json::Object(object) => match path {
            None => Ok(Some(value)),
            Some(path) => alone_member(object, path),
        },
        _ => match path {
            None => Ok(Some(value)),
            Some(_) => Ok(None),
        },
    }
}

/// What the member of the first name has along the others.
#[cycle(alone)]
#[tactic(auto, using(crate::proofs::Gathers::gathers))]
fn alone_member<'a>(within: &'a JsonObject, path: &[u8]) -> Result<Option<&'a Json>, MaybeSeveral>
    ensures { IfOk result (λ item. items (object (members_of within.now)) (names_behind path.now) ≡ option_to_list (option_map (λ j. view j.now) item)) }
{
    let (name, rest) = first_name(path);
    match member(within, name) {
        Some(value) => alone(value, rest),
        None => Ok(None),
    }
}

/// The value under a name. Where members are few, the names differ sooner than halves are found.
pub(crate) fn member<'a>(within: &'a JsonObject, name: &[u8]) -> Option<&'a Json>
    ensures { option_map (λ j. view j.now) result ≡ member_of (members_of within.now) name.now }
{
    let members = within.as_slice();
    if members.len() > FEW_MEMBERS {
        return within.member(name);
    }
    'members: for (key, value) in members {
        if key.as_slice() == name {
            return Some(value);
        }
    }
    None
}

/// Adds the items that a value has along the names of a path, in document order. With no path the value itself is the
/// item; a list stands for its elements, and null for none.
#[cycle(gathers)]
#[tactic(auto, using(crate::proofs::Gathers::gathers))]
pub(crate) fn gather<'a>(
    value: &'a Json,
    path: Option<&[u8]>,
    found: &mut Vec<&'a Json>,
) -> Result<(), NoMemory>
    ensures { OnOk result (map (λ j. view j.now) found.new.items ≡ map (λ j. view j.now) found.old.items ++ items (view value.now) (names_left (option_map (λ p. p.now) path.entry))) }
{
    match value {
        Json::Null => Ok(()),
        Json::List(list) => gather_in(list.as_slice(), path, found),
        Json::Object(object) => match path {
            None => push_item(value, found),
            Some(path) => gather_member(object, path, found),
        },
        _ => match path {
            None => push_item(value, found),
            Some(_) => Ok(()),
        },
    }
}

#[cycle(gathers)]
#[tactic(auto, using(crate::proofs::Gathers::gathers))]
fn gather_in<'a>(
    elements: &'a [Json],
    path: Option<&[u8]>,
    found: &mut Vec<&'a Json>,
) -> Result<(), NoMemory>
    ensures { OnOk result (map (λ j. view j.now) found.new.items ≡ map (λ j. view j.now) found.old.items ++ items_in (elements_of (values elements.now)) (names_left (option_map (λ p. p.now) path.entry))) }
{
    'elements: for element in elements {
        gather(element, path, found)?;
    }
    Ok(())
}

/// Adds what the member of the first name has along the others.
#[cycle(gathers)]
#[tactic(auto, using(crate::proofs::Gathers::gathers))]
fn gather_member<'a>(
    within: &'a JsonObject,
    path: &[u8],
    found: &mut Vec<&'a Json>,
) -> Result<(), NoMemory>
    ensures { OnOk result (map (λ j. view j.now) found.new.items ≡ map (λ j. view j.now) found.old.items ++ items (object (members_of within.now)) (names_behind path.now)) }
{
    let (name, rest) = first_name(path);
    match member(within, name) {
        Some(value) => gather(value, rest, found),
        None => Ok(()),
    }
}

fn push_item<'a>(value: &'a Json, found: &mut Vec<&'a Json>) -> Result<(), NoMemory>
    ensures { OnOk result (map (λ j. view j.now) found.new.items ≡ map (λ j. view j.now) found.old.items ++ view value.now ∷ []) }
{
    found.push(value)?;
    Ok(())
}
