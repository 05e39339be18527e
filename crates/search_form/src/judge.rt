//! Whether a value has a form: one recursion over JSON for every table.
ghost use Rattle.std.specs.Prelude.{◌≡◌, ◌&&◌, IsTrue, IfSome, is_some};
ghost use Rattle.tree_json.specs.Value.{elements_of, members_of};
ghost use Rattle.tree_json.specs.View.{view, values, entries};
ghost use Rattle.search_form.specs.Form.{has_form, all_have_form, each_has_form, choice_count, suits, allows_inner};
ghost use Rattle.search_form.specs.Texts.{AreTexts, AllAreTexts, EachAreTexts};

use crate::form::{Form, Presence};
use crate::object::{allows_inner, line_at, suits, suits_list};
use crate::single::takes;
use crate::table::{element_of, single_of};
use tree_json::{Json, JsonObject, JsonText};

/// Whether a value has a form; `inner` says whether inner hits may stand in it. A single value is tested where it stands.
#[cycle(forms)]
#[tactic(auto, using(crate::specs::Sizes::sizes, crate::proofs::Texts::texts))]
#[inline]
pub(crate) fn has_form(inner: bool, form: Form, value: &Json) -> bool
    ensures form { result ≡ has_form inner form (view value.now) }
    ensures texts { IsTrue result → AreTexts (view value.now) }
{
    match value {
        Json::List(list) => suits_list(form, list)
            && all_have_form(inner, element_of(form), list.as_slice()),
        Json::Object(object) => object_has_form(inner, single_of(form), object),
        Json::Text(text) => {
            text.as_slice();
            takes(single_of(form), value)
        }
        Json::Whole(number) => {
            let _number = *number;
            takes(single_of(form), value)
        }
        Json::Null | Json::Bool(_) => takes(single_of(form), value),
    }
}

#[cycle(forms)]
#[tactic(auto, using(crate::specs::Sizes::sizes, crate::proofs::Texts::texts))]
#[inline(never)]
fn object_has_form(inner: bool, form: Form, object: &JsonObject) -> bool
    ensures form { result ≡ (suits inner form (members_of object.now) && each_has_form (allows_inner inner form (members_of object.now)) form (members_of object.now)) }
    ensures texts { IsTrue result → EachAreTexts (members_of object.now) }
{
    let inside = allows_inner(inner, form, object);
    match choices_among(inside, form, object.as_slice()) {
        Some(choices) => suits(inner, form, choices, object),
        None => false,
    }
}

#[cycle(forms)]
#[tactic(auto, using(crate::specs::Sizes::sizes, crate::proofs::Texts::texts))]
#[inline(never)]
fn all_have_form(inner: bool, form: Form, elements: &[Json]) -> bool
    ensures form { result ≡ all_have_form inner form (elements_of (values elements.now)) }
    ensures texts { IsTrue result → AllAreTexts (elements_of (values elements.now)) }
{
    'elements: for element in elements {
        if !has_form(inner, form, element) {
            return false;
        }
    }
    true
}

/// How many of an object's names are a choice, where what stands under each name has its form.
#[cycle(forms)]
#[tactic(auto, using(crate::specs::Sizes::sizes, crate::proofs::Texts::texts))]
fn choices_among(inner: bool, form: Form, members: &[(JsonText, Json)]) -> Option<usize>
    ensures form { is_some result ≡ each_has_form inner form (members_of (entries members.now)) }
    ensures choices { IfSome result (λ count. count ≡ choice_count form (members_of (entries members.now))) }
    ensures texts { IfSome result (λ count. EachAreTexts (members_of (entries members.now))) }
{
    let mut count = 0;
    'members: for (name, value) in members {
        let (presence, part) = line_at(form, name.as_slice());
        if !has_form(inner, part, value) {
            return None;
        }
        if matches!(presence, Presence::Choice) {
            count += 1;
        }
    }
    Some(count)
}
