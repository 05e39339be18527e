//! An object or a list as a whole: what stands under a name, and which names stand together.
ghost use Rattle.std.specs.Prelude.{◌≡◌, ◌<◌, ◌^◌, pos, Some, map, option_map, codes, false, if◌then◌else◌};
ghost use Rattle.tree_json.specs.Value.{members_of, member_of, elements_of};
ghost use Rattle.tree_json.specs.View.{view, values, entries};
ghost use Rattle.search_form.specs.Table.{lines_of};
ghost use Rattle.search_form.specs.Form.{line_among, line_at, form_at, has, has_required, chosen, choice_count, are_apart, children_fit, whole_or, is_within, clause_count, starts_at_0, after_fits, fits, suits, allows_inner, last_is_whole, suits_list, is_choice};

use crate::form::{Form, Line, Presence};
use crate::single::{is_between, is_whole};
use crate::table::{
    Pair, apart_in, inner_hits_line, is_choice_of_one, lines_of, nested_line, other_of, query_line,
};
use tree_json::{Json, JsonList, JsonObject};

/// The most clauses of a sort.
const MOST_CLAUSES: usize = 16;

/// What stands under a name of an object of a form.
pub fn form_at(form: Form, name: &[u8]) -> Form
    ensures { result ≡ form_at form name.now }
{
    line_at(form, name).1
}

/// Whether a name of an object of a form has to be there, and what stands under it.
pub(crate) fn line_at(form: Form, name: &[u8]) -> (Presence, Form)
    ensures { result ≡ line_at form name.now }
{
    match form {
        Form::Query => query_line(name),
        Form::Nested => nested_line(name),
        Form::InnerHits => inner_hits_line(name),
        Form::Term => other_of(form, name),
        _ => line_of(form, name),
    }
}

// The same from the tables.
#[inline(never)]
fn line_of(form: Form, name: &[u8]) -> (Presence, Form)
    ensures { result ≡ line_at form name.now }
{
    let other = other_of(form, name);
    match lines_of(form) {
        None => other,
        Some(lines) => line_among(name, lines, other),
    }
}

fn line_among(name: &[u8], lines: &[Line], other: (Presence, Form)) -> (Presence, Form)
    ensures { result ≡ line_among name.now (map (λ l. (l.0.now, l.1, l.2)) lines.now) other }
{
    'lines: for (known, presence, form) in lines {
        if name == *known {
            return (*presence, *form);
        }
    }
    other
}

// An object has few names of its form, so that they are sought one by one.
fn has(object: &JsonObject, name: &[u8]) -> bool
    ensures { result ≡ has (members_of object.now) name.now }
{
    'names: for (known, _) in object.as_slice() {
        if known.as_slice() == name {
            return true;
        }
    }
    false
}

fn has_required(lines: &[Line], object: &JsonObject) -> bool
    ensures { result ≡ has_required (map (λ l. (l.0.now, l.1, l.2)) lines.now) (members_of object.now) }
{
    'lines: for (name, presence, _) in lines {
        if matches!(presence, Presence::Required) && !has(object, name) {
            return false;
        }
    }
    true
}

/// The one of an object's names that is a choice, the form of what stands under it, and that.
#[derive(Drop)]
pub struct ChosenName<'a> {
    pub name: &'a [u8],
    pub form: Form,
    pub value: &'a Json,
}

/// The choice that an object is; where its form isn't met, the first of several, or none.
pub fn chosen<'a>(form: Form, object: &'a JsonObject) -> Option<ChosenName<'a>>
    ensures { option_map (λ c. (c.name.now, c.form, view c.value.now)) result ≡ chosen form (members_of object.now) }
{
    'names: for (name, value) in object.as_slice() {
        let (presence, form) = line_at(form, name.as_slice());
        if matches!(presence, Presence::Choice) {
            return Some(ChosenName {
                name: name.as_slice(),
                form,
                value,
            });
        }
    }
    None
}

fn are_apart(pairs: &[Pair], object: &JsonObject) -> bool
    ensures { result ≡ are_apart (map (λ p. (p.0.now, p.1.now)) pairs.now) (members_of object.now) }
{
    'pairs: for (one, other) in pairs {
        if has(object, one) && has(object, other) {
            return false;
        }
    }
    true
}

fn children_fit(object: &JsonObject) -> bool
    ensures { result ≡ children_fit (member_of (members_of object.now) (codes "min_children")) (member_of (members_of object.now) (codes "max_children")) }
{
    is_within(least_children(object), object)
}

fn least_children(object: &JsonObject) -> i64
    ensures { result ≡ whole_or (pos 1) (member_of (members_of object.now) (codes "min_children")) }
{
    match object.member(b"min_children") {
        Some(Json::Whole(least)) => *least,
        _ => 1,
    }
}

fn is_within(least: i64, object: &JsonObject) -> bool
    ensures { result ≡ is_within least (member_of (members_of object.now) (codes "max_children")) }
{
    match object.member(b"max_children") {
        Some(Json::Whole(most)) => least <= *most,
        _ => true,
    }
}

// How many clauses the sort of a body has.
#[tactic(auto, using(crate::specs::Lengths::lengths))]
fn clause_count(body: &JsonObject) -> usize
    ensures small { result < 2 ^ 63 }
    ensures count { result ≡ clause_count (member_of (members_of body.now) (codes "sort")) }
{
    match body.member(b"sort") {
        Some(Json::List(clauses)) => clauses.as_slice().len().max(1),
        _ => 1,
    }
}

fn starts_at_0(body: &JsonObject) -> bool
    ensures { result ≡ starts_at_0 (member_of (members_of body.now) (codes "from")) }
{
    match body.member(b"from") {
        Some(value) => is_between(0, 0, value),
        None => true,
    }
}

#[tactic(auto, using(crate::specs::Lengths::lengths))]
fn after_fits(body: &JsonObject) -> bool
    ensures { result ≡ after_fits (member_of (members_of body.now) (codes "search_after")) (member_of (members_of body.now) (codes "sort")) (member_of (members_of body.now) (codes "from")) }
{
    match body.member(b"search_after") {
        Some(Json::List(keys)) => {
            keys.as_slice().len() == clause_count(body) + 1 && starts_at_0(body)
        }
        _ => true,
    }
}

fn fits(inner: bool, form: Form, object: &JsonObject) -> bool
    ensures { result ≡ fits inner form (members_of object.now) }
{
    match form {
        Form::Body => after_fits(object),
        Form::HasChild => children_fit(object),
        Form::InnerHits => inner,
        _ => true,
    }
}

/// Whether an object has the names that its form wants; so many of them are a choice.
#[tactic(auto, using(crate::proofs::Required::required))]
pub(crate) fn suits(inner: bool, form: Form, choices: usize, object: &JsonObject) -> bool
    requires { choices ≡ choice_count form (members_of object.now) }
    ensures { result ≡ suits inner form (members_of object.now) }
{
    if is_choice_of_one(form) {
        return choices == 1 && are_apart(apart_in(form), object);
    }
    match lines_of(form) {
        None => false,
        Some(lines) => {
            has_required(lines, object)
                && choices == 0
                && are_apart(apart_in(form), object)
                && fits(inner, form, object)
        }
    }
}

/// Whether inner hits may stand inside an object.
pub(crate) fn allows_inner(inner: bool, form: Form, object: &JsonObject) -> bool
    ensures { result ≡ allows_inner inner form (members_of object.now) }
{
    match form {
        Form::ToChild => false,
        Form::HasChild | Form::HasParent => inner && has(object, b"inner_hits"),
        _ => inner,
    }
}

fn last_is_whole(elements: &[Json]) -> bool
    ensures { result ≡ last_is_whole false (elements_of (values elements.now)) }
{
    let mut last = false;
    'elements: for element in elements {
        last = is_whole(element);
    }
    last
}

/// Whether a list has the length and the end that its form wants.
#[tactic(auto, using(crate::specs::Lengths::lengths))]
pub(crate) fn suits_list(form: Form, list: &JsonList) -> bool
    ensures { result ≡ suits_list form (elements_of list.now) }
{
    match form {
        Form::Queries | Form::QueryList | Form::ValueList | Form::TextList | Form::Any => true,
        Form::Sort => list.as_slice().len() <= MOST_CLAUSES,
        Form::SearchAfter => last_is_whole(list.as_slice()),
        _ => false,
    }
}
