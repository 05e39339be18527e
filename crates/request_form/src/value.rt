//! Single values: whether one has a form, and what stands in it.
ghost use Rattle.std.specs.Prelude.{◌≡◌};
ghost use Rattle.tree_json.specs.Value.{is_object};
ghost use Rattle.tree_json.specs.View.{view};
ghost use Rattle.request_form.specs.Table.{takes, is_between, is_from, is_text, is_flag, is_id};

use crate::form::Form;
use tree_json::Json;

/// Whether a value has a form.
pub(crate) fn takes(form: Form, value: &Json) -> bool
    ensures { result ≡ takes form (view value.now) }
{
    match form {
        Form::Id => is_id(value),
        Form::Text => is_text(value),
        Form::Whole => is_from(0, value),
        Form::Positive => is_from(1, value),
        Form::One => is_between(1, 1, value),
        Form::Flag => is_flag(value),
        Form::Object => is_object(value),
        Form::Factor => is_between(2, 10, value),
        Form::Moves => is_between(1, 1_000, value),
    }
}

fn is_id(value: &Json) -> bool
    ensures { result ≡ is_id (view value.now) }
{
    match value {
        Json::Text(text) => !text.as_slice().is_empty(),
        Json::Whole(number) => 0 <= *number,
        _ => false,
    }
}

fn is_text(value: &Json) -> bool
    ensures { result ≡ is_text (view value.now) }
{
    matches!(value, Json::Text(_))
}

fn is_flag(value: &Json) -> bool
    ensures { result ≡ is_flag (view value.now) }
{
    matches!(value, Json::Bool(_))
}

pub(crate) fn is_object(value: &Json) -> bool
    ensures { result ≡ is_object (view value.now) }
{
    matches!(value, Json::Object(_))
}

fn is_from(least: i64, value: &Json) -> bool
    ensures { result ≡ is_from least (view value.now) }
{
    match value {
        Json::Whole(number) => least <= *number,
        _ => false,
    }
}

fn is_between(least: i64, most: i64, value: &Json) -> bool
    ensures { result ≡ is_between least most (view value.now) }
{
    match value {
        Json::Whole(number) => least <= *number && *number <= most,
        _ => false,
    }
}
