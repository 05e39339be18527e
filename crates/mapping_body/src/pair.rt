//! The pairs that a body's joins name: a parent with one child.
ghost use Rattle.std.specs.Prelude.{◌≡◌, ℕ, List, ◌++◌, map, length, OnOk, IfOk, Option, Some, option_map, codes};
ghost use Rattle.std.specs.List.{list_any};
ghost use Rattle.tree_json.specs.Value.{object, members_of, elements_of};
ghost use Rattle.tree_json.specs.View.{view, values, entries};
ghost use Rattle.mapping_body.specs.Body.{member_named};
ghost use Rattle.mapping_body.specs.Kept.{pair_of};
ghost use Rattle.mapping_body.specs.Names.{AreAscending};
ghost use Rattle.mapping_body.specs.Pairs.{pair_of_element, pairs_in_list, pairs_of_parent, pairs_in, pairs_of_form, pairs_of_said, parent_among, is_other, has_two_parents, lacks_names};

use crate::form::{kind_of, member_named};
use crate::kind::Kind;
use crate::names::{Named, Whole, place_of};
use crate::order::in_byte_order;
use crate::refusal::NoMemory;
use std::alloc::Global;
use tree_json::{Json, JsonText};

/// A parent's name with one child's.
#[derive(Clone, Copy, Drop)]
pub struct Pair<'a> {
    pub parent: &'a [u8],
    pub child: &'a [u8],
}

impl Named for Pair<'_> {
    ghost name = { λ p. p.child.now };

    fn name(&self) -> &[u8] {
        self.child
    }
}

fn pairs_in_list<'a>(
    parent: &'a [u8],
    elements: &'a [Json],
    found: &mut Vec<Pair<'a>>,
) -> Result<(), NoMemory>
    ensures { OnOk result (map pair_of found.new.items ≡ map pair_of found.old.items ++ pairs_in_list parent.now (elements_of (values elements.now))) }
{
    'elements: for element in elements {
        pair_of_element(parent, element, found)?;
    }
    Ok(())
}

fn pair_of_element<'a>(
    parent: &'a [u8],
    element: &'a Json,
    found: &mut Vec<Pair<'a>>,
) -> Result<(), NoMemory>
    ensures { OnOk result (map pair_of found.new.items ≡ map pair_of found.old.items ++ pair_of_element parent.now (view element.now)) }
{
    match element {
        Json::Text(child) => {
            found.push(Pair {
                parent,
                child: child.as_slice(),
            })?;
            Ok(())
        }
        _ => Ok(()),
    }
}

fn pairs_of_parent<'a>(
    parent: &'a [u8],
    value: &'a Json,
    found: &mut Vec<Pair<'a>>,
) -> Result<(), NoMemory>
    ensures { OnOk result (map pair_of found.new.items ≡ map pair_of found.old.items ++ pairs_of_parent parent.now (view value.now)) }
{
    match value {
        Json::List(list) => pairs_in_list(parent, list.as_slice(), found),
        _ => pair_of_element(parent, value, found),
    }
}

fn pairs_in<'a>(members: &'a [(JsonText, Json)], found: &mut Vec<Pair<'a>>) -> Result<(), NoMemory>
    ensures { OnOk result (map pair_of found.new.items ≡ map pair_of found.old.items ++ pairs_in (members_of (entries members.now))) }
{
    'members: for (name, value) in members {
        pairs_of_parent(name.as_slice(), value, found)?;
    }
    Ok(())
}

/// Appends the pairs that a join's `relations` name.
pub fn pairs_of_form<'a>(form: &'a Json, found: &mut Vec<Pair<'a>>) -> Result<(), NoMemory>
    ensures { OnOk result (map pair_of found.new.items ≡ map pair_of found.old.items ++ pairs_of_form (view form.now)) }
{
    match member_named(form, b"relations") {
        Some(Json::Object(object)) => pairs_in(object.as_slice(), found),
        _ => Ok(()),
    }
}

/// Appends the pairs that a form names if it is a join's.
pub fn pairs_of_said<'a>(form: &'a Json, found: &mut Vec<Pair<'a>>) -> Result<(), NoMemory>
    ensures { OnOk result (map pair_of found.new.items ≡ map pair_of found.old.items ++ pairs_of_said (view form.now)) }
{
    match kind_of(form) {
        Kind::Join => pairs_of_form(form, found),
        _ => Ok(()),
    }
}

/// The parent of a name, among the first pairs of each child.
pub fn parent_in<'a>(firsts: &[Pair<'a>], name: &[u8]) -> Option<&'a [u8]>
    requires { AreAscending (map (λ p. p.child.now) firsts.now) }
    ensures { option_map (λ parent. parent.now) result ≡ parent_among (map pair_of firsts.now) name.now }
{
    match place_of(firsts, &Whole { name }) {
        Some(place) => Some(firsts[place].parent),
        None => None,
    }
}

/// Whether a child has another parent.
fn has_other_parent(firsts: &[Pair<'_>], parent: &[u8], child: &[u8]) -> bool
    requires { AreAscending (map (λ p. p.child.now) firsts.now) }
    ensures { result ≡ is_other (parent_among (map pair_of firsts.now) child.now) parent.now }
{
    match parent_in(firsts, child) {
        Some(other) => other != parent,
        None => false,
    }
}

/// Whether some name stands below two different names.
pub fn has_two_parents(alloc: Global, pairs: &[Pair<'_>]) -> Result<bool, NoMemory>
    ensures { IfOk result (λ two. two ≡ has_two_parents (map pair_of pairs.now)) }
{
    let firsts = in_byte_order(alloc, pairs)?;
    Ok(some_has_other_parent(firsts.as_slice(), pairs))
}

fn some_has_other_parent(firsts: &[Pair<'_>], pairs: &[Pair<'_>]) -> bool
    requires { AreAscending (map (λ p. p.child.now) firsts.now) }
    ensures { result ≡ list_any (λ p. is_other (parent_among (map pair_of firsts.now) p.child.now) p.parent.now) pairs.now }
{
    pairs
        .iter()
        .any(|pair| has_other_parent(firsts, pair.parent, pair.child))
}

/// Whether the `relations` of a join have no name in them.
pub fn lacks_names(form: &Json) -> bool
    ensures { result ≡ lacks_names (member_named (view form.now) (codes "relations")) }
{
    match member_named(form, b"relations") {
        Some(Json::Object(object)) => is_empty(object.as_slice()),
        _ => true,
    }
}

fn is_empty(members: &[(JsonText, Json)]) -> bool
    ensures { result ≡ lacks_names (Some (object (members_of (entries members.now)))) }
{
    match members {
        [] => true,
        [_first, _rest @ ..] => false,
    }
}
