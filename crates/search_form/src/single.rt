//! Single values: null, booleans, whole numbers and texts.
ghost use Rattle.std.specs.Prelude.{◌≡◌, map};
ghost use Rattle.std.specs.List.{list_any};
ghost use Rattle.std.specs.Str.{bytes_eq};
ghost use Rattle.tree_json.specs.View.{view};
ghost use Rattle.search_form.specs.Table.{takes, is_flag, is_true, is_text, is_whole, is_from, is_between, is_value, is_bound, is_named, is_word};

use crate::form::Form;
use crate::table::is_name;
use tree_json::Json;

const DIRECTIONS: &[&[u8]] = &[b"asc", b"desc"];

const SCORE_MODES: &[&[u8]] = &[b"avg", b"max", b"min", b"none", b"sum"];

const SORT_MODES: &[&[u8]] = &[b"min", b"max", b"sum", b"avg", b"median"];

const OPERATORS: &[&[u8]] = &[b"or", b"and"];

/// Whether a value that is no list and no object has a form.
pub(crate) fn takes(form: Form, value: &Json) -> bool
    ensures { result ≡ takes form (view value.now) }
{
    match form {
        Form::Flag => is_flag(value),
        Form::True => is_true(value),
        Form::Whole => is_from(0, value),
        Form::Positive => is_from(1, value),
        Form::Boost | Form::BucketCount => is_between(1, 10_000, value),
        Form::Value | Form::TermField | Form::MatchField | Form::PhraseField => is_value(value),
        Form::Bound => is_bound(value),
        Form::Text | Form::PrefixField | Form::SortClause => is_text(value),
        Form::Name => is_named(value),
        Form::Direction | Form::FieldSort | Form::ScoreSort => is_word(DIRECTIONS, value),
        Form::ScoreMode => is_word(SCORE_MODES, value),
        Form::SortMode => is_word(SORT_MODES, value),
        Form::Operator => is_word(OPERATORS, value),
        Form::Any => true,
        _ => false,
    }
}

fn is_flag(value: &Json) -> bool
    ensures { result ≡ is_flag (view value.now) }
{
    matches!(value, Json::Bool(_))
}

fn is_true(value: &Json) -> bool
    ensures { result ≡ is_true (view value.now) }
{
    match value {
        Json::Bool(flag) => *flag,
        _ => false,
    }
}

fn is_text(value: &Json) -> bool
    ensures { result ≡ is_text (view value.now) }
{
    matches!(value, Json::Text(_))
}

/// Whether a value is a whole number.
pub(crate) fn is_whole(value: &Json) -> bool
    ensures { result ≡ is_whole (view value.now) }
{
    matches!(value, Json::Whole(_))
}

fn is_from(least: i64, value: &Json) -> bool
    ensures { result ≡ is_from least (view value.now) }
{
    match value {
        Json::Whole(number) => least <= *number,
        _ => false,
    }
}

/// Whether a value is a whole number from the least to the most.
pub(crate) fn is_between(least: i64, most: i64, value: &Json) -> bool
    ensures { result ≡ is_between least most (view value.now) }
{
    match value {
        Json::Whole(number) => least <= *number && *number <= most,
        _ => false,
    }
}

fn is_value(value: &Json) -> bool
    ensures { result ≡ is_value (view value.now) }
{
    matches!(value, Json::Bool(_) | Json::Whole(_) | Json::Text(_))
}

fn is_bound(value: &Json) -> bool
    ensures { result ≡ is_bound (view value.now) }
{
    matches!(value, Json::Null) || is_value(value)
}

fn is_named(value: &Json) -> bool
    ensures { result ≡ is_named (view value.now) }
{
    match value {
        Json::Text(text) => is_name(text.as_slice()),
        _ => false,
    }
}

fn is_word(words: &[&[u8]], value: &Json) -> bool
    ensures { result ≡ is_word (map (λ w. w.now) words.now) (view value.now) }
{
    match value {
        Json::Text(text) => is_among(text.as_slice(), words),
        _ => false,
    }
}

fn is_among(text: &[u8], words: &[&[u8]]) -> bool
    ensures { result ≡ list_any (bytes_eq text.now) (map (λ w. w.now) words.now) }
{
    'words: for word in words {
        if text == *word {
            return true;
        }
    }
    false
}
