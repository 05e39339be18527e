//! The forms of properties that sources add, as a body has them.
ghost use Rattle.std.specs.Prelude.{◌≡◌, IfOk};
ghost use Rattle.tree_json.specs.Value.{members_of};
ghost use Rattle.tree_json.specs.View.{view};
ghost use Rattle.source_growth.specs.Forms.{form_of, forms_of, type_name};
ghost use Rattle.source_growth.specs.Growth.{holding, holds_objects, nested, plain, typed};

use crate::found::{Form, Found, ValueType};
use mapping::{Kind, NoMemory};
use std::alloc::Global;
use std::collections::BTreeMap;
use tree_json::{Json, JsonObject, JsonText};

/// Whether the values of a field of this kind are objects.
pub(crate) fn holds_objects(kind: Kind) -> bool
    ensures { result ≡ holds_objects kind }
{
    match kind {
        Kind::Object => true,
        Kind::Nested => true,
        _ => false,
    }
}

/// The form of a mapped field above a property that is added.
pub(crate) fn holding(kind: Kind, below: Found) -> Form
    ensures { form_of result ≡ holding kind below }
{
    match kind {
        Kind::Nested => Form::Nested(below),
        _ => Form::Plain(below),
    }
}

/// A plain object with these properties, and so a body.
pub(crate) fn plain(alloc: Global, properties: Found) -> Result<Json, NoMemory>
    ensures { IfOk result (λ form. view form ≡ plain properties) }
{
    written(alloc, Form::Plain(properties))
}

/// A form as a body has it.
#[cycle(written)]
fn written(alloc: Global, form: Form) -> Result<Json, NoMemory>
    ensures { IfOk result (λ json. view json ≡ form_of form) }
{
    match form {
        Form::Typed(given) => typed(alloc, given),
        Form::Plain(below) => plain_with(alloc, object_of(alloc, below.into_forms())?),
        Form::Nested(below) => nested_with(alloc, object_of(alloc, below.into_forms())?),
    }
}

/// Properties as a body has them.
#[cycle(written)]
fn object_of(alloc: Global, forms: BTreeMap<String, Form>) -> Result<JsonObject, NoMemory>
    ensures { IfOk result (λ object. members_of object ≡ members_of (forms_of forms.entries)) }
{
    let mut members = Vec::with_capacity(alloc, forms.len())?;
    'forms: for (name, form) in forms {
        let _text = name.as_str();
        members.push((JsonText::of(name.into_bytes()), written(alloc, form)?))?;
    }
    Ok(JsonObject::of(members))
}

fn name_of(given: ValueType) -> &'static str
    ensures { result.now ≡ type_name given }
{
    match given {
        ValueType::Text => "text",
        ValueType::Long => "long",
        ValueType::Boolean => "boolean",
    }
}

fn copied(alloc: Global, text: &str) -> Result<JsonText, NoMemory>
    ensures { IfOk result (λ copy. copy ≡ text.now) }
{
    match JsonText::of_str(alloc, text) {
        Ok(copy) => Ok(copy),
        Err(_) => Err(NoMemory),
    }
}

fn typed(alloc: Global, given: ValueType) -> Result<Json, NoMemory>
    ensures { IfOk result (λ form. view form ≡ typed (type_name given)) }
{
    let mut members = Vec::with_capacity(alloc, 1)?;
    members.push((
        copied(alloc, "type")?,
        Json::Text(copied(alloc, name_of(given))?),
    ))?;
    Ok(Json::Object(JsonObject::of(members)))
}

fn plain_with(alloc: Global, properties: JsonObject) -> Result<Json, NoMemory>
    ensures { IfOk result (λ form. view form ≡ plain (members_of properties)) }
{
    let mut members = Vec::with_capacity(alloc, 1)?;
    members.push((copied(alloc, "properties")?, Json::Object(properties)))?;
    Ok(Json::Object(JsonObject::of(members)))
}

fn nested_with(alloc: Global, properties: JsonObject) -> Result<Json, NoMemory>
    ensures { IfOk result (λ form. view form ≡ nested (members_of properties)) }
{
    let mut members = Vec::with_capacity(alloc, 2)?;
    members.push((copied(alloc, "properties")?, Json::Object(properties)))?;
    members.push((copied(alloc, "type")?, Json::Text(copied(alloc, "nested")?)))?;
    Ok(Json::Object(JsonObject::of(members)))
}
