//! What values add at and below paths that aren't mapped.
ghost use Rattle.std.specs.Prelude.{◌≡◌, IfOk, OnOk, option_map};
ghost use Rattle.tree_json.specs.Value.{elements_of, member_of, members_of, no_members};
ghost use Rattle.tree_json.specs.View.{view, values, entries};
ghost use Rattle.source_growth.specs.Forms.{form_of};
ghost use Rattle.source_growth.specs.Growth.{first_value, first_value_in, form_after, more_form, new_form, plain, properties_in, unmapped_among, unmapped_below, unmapped_in, with_form};

use crate::found::{Form, Found, ValueType};
use mapping::NoMemory;
use mapping_body::is_property_name;
use std::alloc::Global;
use tree_json::{Json, JsonText};

/// Adds what the members of an object have below an unmapped path.
#[cycle(unmapped)]
#[tactic(auto, using(crate::proofs::Sizes::sizes))]
fn add_among(alloc: Global, members: &[(JsonText, Json)], found: &mut Found) -> Result<(), NoMemory>
    ensures { OnOk result (found.new ≡ unmapped_among (members_of (entries members.now)) found.old) }
{
    'members: for (name, value) in members {
        if is_property_name(name.as_slice()) {
            add_unmapped(alloc, name, value, found)?;
        }
    }
    Ok(())
}

/// Adds what a value has at an unmapped path and below it.
#[cycle(unmapped)]
#[tactic(auto, using(crate::proofs::Puts::puts))]
pub(crate) fn add_unmapped(
    alloc: Global,
    name: &JsonText,
    value: &Json,
    found: &mut Found,
) -> Result<(), NoMemory>
    ensures { OnOk result (found.new ≡ with_form name.now (form_after (first_value (view value.now)) (unmapped_below (view value.now)) (member_of found.old name.now)) found.old) }
{
    match form_after(alloc, value, found.take(name.as_str()))? {
        Some(form) => found.put(alloc, name, form),
        None => Ok(()),
    }
}

/// The form at an unmapped path after a value there.
#[cycle(unmapped)]
fn form_after(alloc: Global, value: &Json, form: Option<Form>) -> Result<Option<Form>, NoMemory>
    ensures { IfOk result (λ after. option_map form_of after ≡ form_after (first_value (view value.now)) (unmapped_below (view value.now)) (option_map form_of form)) }
{
    match form {
        None => new_form(alloc, value),
        Some(form) => Ok(Some(more_form(alloc, value, form)?)),
    }
}

/// A form that was found, with the properties that a value adds below it.
#[cycle(unmapped)]
fn more_form(alloc: Global, value: &Json, form: Form) -> Result<Form, NoMemory>
    ensures { IfOk result (λ after. form_of after ≡ more_form (unmapped_below (view value.now)) (form_of form) (properties_in (form_of form))) }
{
    match form {
        Form::Typed(given) => Ok(Form::Typed(given)),
        Form::Plain(below) => Ok(with_more(alloc, value, below)?),
        Form::Nested(below) => Ok(with_more(alloc, value, below)?),
    }
}

/// A plain object with these properties and those that a value adds to them.
#[cycle(unmapped)]
fn with_more(alloc: Global, value: &Json, below: Found) -> Result<Form, NoMemory>
    ensures { IfOk result (λ after. form_of after ≡ plain (unmapped_below (view value.now) below)) }
{
    let mut below = below;
    add_below(alloc, value, &mut below)?;
    Ok(Form::Plain(below))
}

/// The form of a new property by the first value.
#[cycle(unmapped)]
fn new_form(alloc: Global, value: &Json) -> Result<Option<Form>, NoMemory>
    ensures { IfOk result (λ after. option_map form_of after ≡ new_form (unmapped_below (view value.now) no_members) (first_value (view value.now))) }
{
    match first_value(value) {
        Some(Json::Text(_)) => Ok(Some(Form::Typed(ValueType::Text))),
        Some(Json::Whole(_)) => Ok(Some(Form::Typed(ValueType::Long))),
        Some(Json::Bool(_)) => Ok(Some(Form::Typed(ValueType::Boolean))),
        Some(Json::Object(_)) => Ok(Some(with_more(alloc, value, Found::new(alloc))?)),
        _ => Ok(None),
    }
}

/// Adds what the objects in a value have below an unmapped path.
#[cycle(unmapped)]
fn add_below(alloc: Global, value: &Json, found: &mut Found) -> Result<(), NoMemory>
    ensures { OnOk result (found.new ≡ unmapped_below (view value.now) found.old) }
{
    match value {
        Json::List(list) => add_in(alloc, list.as_slice(), found),
        Json::Object(object) => add_among(alloc, object.as_slice(), found),
        _ => Ok(()),
    }
}

#[cycle(unmapped)]
#[tactic(auto, using(crate::proofs::Sizes::sizes))]
fn add_in(alloc: Global, elements: &[Json], found: &mut Found) -> Result<(), NoMemory>
    ensures { OnOk result (found.new ≡ unmapped_in (elements_of (values elements.now)) found.old) }
{
    'elements: for element in elements {
        add_below(alloc, element, found)?;
    }
    Ok(())
}

/// The first value that is neither a list nor null, lists being looked through.
#[cycle(first)]
#[tactic(auto, using(crate::proofs::Sizes::sizes))]
fn first_value(value: &Json) -> Option<&Json>
    ensures { option_map (λ j. view j.now) result ≡ first_value (view value.now) }
{
    match value {
        Json::Null => None,
        Json::List(list) => first_in(list.as_slice()),
        _ => Some(value),
    }
}

#[cycle(first)]
#[tactic(auto, using(crate::proofs::Sizes::sizes))]
fn first_in(elements: &[Json]) -> Option<&Json>
    ensures { option_map (λ j. view j.now) result ≡ first_value_in (elements_of (values elements.now)) }
{
    'elements: for element in elements {
        if let Some(first) = first_value(element) {
            return Some(first);
        }
    }
    None
}
