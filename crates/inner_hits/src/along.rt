//! The object of a number among those that a value has along the names of a path.
ghost use Rattle.std.specs.Prelude.{◌≡◌, [], ◌∷◌, option_map, slice_get};
ghost use Rattle.flattener.specs.Walked.{behind_name, first_name, names_behind, names_left};
ghost use Rattle.inner_hits.specs.Along.{IsCounted, objects_along, objects_in};
ghost use Rattle.tree_json.specs.Value.{elements_of, members_of, object};
ghost use Rattle.tree_json.specs.View.{values, view};

use tree_json::{Json, JsonObject};

/// The object with this number among those that a value has along the names of a path, in document order. With no path the
/// value itself is the object, if it is one; a list stands for its elements.
pub(crate) fn object_along<'a>(value: &'a Json, path: Option<&[u8]>, at: u32) -> Option<&'a Json>
    ensures { option_map (λ j. view j.now) result ≡ slice_get (objects_along (view value.now) (names_left (option_map (λ p. p.now) path.entry))) at }
{
    let mut left = at;
    counted(value, path, &mut left)
}

/// Counts down the objects before the one that is looked for.
#[cycle(along)]
#[tactic(auto, using(crate::proofs::Counting::counting))]
fn counted<'a>(value: &'a Json, path: Option<&[u8]>, left: &mut u32) -> Option<&'a Json>
    ensures { IsCounted (objects_along (view value.now) (names_left (option_map (λ p. p.now) path.entry))) left.old left.new (option_map (λ j. view j.now) result) }
{
    match value {
        Json::Null => None,
        Json::List(list) => counted_in(list.as_slice(), path, left),
        Json::Object(object) => match path {
            None => counted_off(value, left),
            Some(path) => counted_below(object, path, left),
        },
        _ => match path {
            None => None,
            Some(_) => None,
        },
    }
}

/// The same over the elements of a list.
#[cycle(along)]
#[tactic(auto, using(crate::proofs::Counting::counting))]
fn counted_in<'a>(elements: &'a [Json], path: Option<&[u8]>, left: &mut u32) -> Option<&'a Json>
    ensures { IsCounted (objects_in (elements_of (values elements.now)) (names_left (option_map (λ p. p.now) path.entry))) left.old left.new (option_map (λ j. view j.now) result) }
{
    'elements: for element in elements {
        match counted(element, path, left) {
            Some(found) => return Some(found),
            None => {}
        }
    }
    None
}

/// The same at the member of the first name, along the others.
#[cycle(along)]
#[tactic(auto, using(crate::proofs::Counting::counting))]
fn counted_below<'a>(within: &'a JsonObject, path: &[u8], left: &mut u32) -> Option<&'a Json>
    ensures { IsCounted (objects_along (object (members_of within.now)) (names_behind path.now)) left.old left.new (option_map (λ j. view j.now) result) }
{
    let (name, rest) = first_name(path);
    match within.member(name) {
        Some(value) => counted(value, rest, left),
        None => None,
    }
}

/// The object itself where none is left to be counted.
fn counted_off<'a>(value: &'a Json, left: &mut u32) -> Option<&'a Json>
    ensures { IsCounted (view value.now ∷ []) left.old left.new (option_map (λ j. view j.now) result) }
{
    if *left == 0 {
        return Some(value);
    }
    *left -= 1;
    None
}

/// The first name, and what stands behind the dot that ends it.
fn first_name(path: &[u8]) -> (&[u8], Option<&[u8]>)
    ensures name { result.0.now ≡ first_name path.now }
    ensures rest { option_map (λ p. p.now) result.1 ≡ behind_name path.now }
{
    let mut at = 0;
    'bytes: while at < path.len() {
        if path[at] == b'.' {
            return (path.split_at(at).0, Some(path.split_at(at + 1).1));
        }
        at += 1;
    }
    (path, None)
}
