//! What a sort clause says.
ghost use Rattle.std.specs.Prelude.{◌≡◌, option_map, Some};
ghost use Rattle.tree_json.specs.View.{view};
ghost use Rattle.search_walk.specs.Sorts.{sort_name, part_of, sort_part, is_score, is_place_word, given, given_missing, is_summing};

use search_form::{ChosenName, Form, chosen};
use tree_json::Json;

/// The name of a clause's field, or `_score`.
pub fn sort_name(clause: &Json) -> &[u8]
    ensures { result.now ≡ sort_name (view clause.now) }
{
    match clause {
        Json::Text(name) => name.as_slice(),
        Json::Object(object) => match chosen(Form::SortClause, object) {
            Some(ChosenName { name, .. }) => name,
            None => b"",
        },
        _ => b"",
    }
}

fn part_of<'a>(value: &'a Json, name: &[u8]) -> Option<&'a Json>
    ensures { option_map (λ j. view j.now) result ≡ part_of (view value.now) name.now }
{
    match value {
        Json::Object(object) => object.member(name),
        _ => None,
    }
}

/// What stands under a name in a clause that is an object with an object.
pub fn sort_part<'a>(clause: &'a Json, name: &[u8]) -> Option<&'a Json>
    ensures { option_map (λ j. view j.now) result ≡ sort_part (view clause.now) name.now }
{
    match clause {
        Json::Object(object) => match chosen(Form::SortClause, object) {
            Some(ChosenName { value, .. }) => part_of(value, name),
            None => None,
        },
        _ => None,
    }
}

/// Whether a clause sorts by the score.
pub fn is_score(name: &[u8]) -> bool
    ensures { result ≡ is_score name.now }
{
    name == b"_score".as_slice()
}

fn is_place_word(word: &[u8]) -> bool
    ensures { result ≡ is_place_word word.now }
{
    word == b"_last".as_slice() || word == b"_first".as_slice()
}

/// The value that stands in for missing ones, if the clause gives one.
pub fn given_missing(clause: &Json) -> Option<&Json>
    ensures { option_map (λ j. view j.now) result ≡ given_missing (view clause.now) }
{
    match sort_part(clause, b"missing") {
        None => None,
        Some(value) => given(value),
    }
}

fn given(value: &Json) -> Option<&Json>
    ensures { option_map (λ j. view j.now) result ≡ given (Some (view value.now)) }
{
    match value {
        Json::Text(word) => {
            if is_place_word(word.as_slice()) {
                None
            } else {
                Some(value)
            }
        }
        Json::Null | Json::Bool(_) | Json::Whole(_) | Json::List(_) | Json::Object(_) => Some(
            value,
        ),
    }
}

/// Whether a mode adds values up, or takes the mean of two.
pub(crate) fn is_summing(mode: &[u8]) -> bool
    ensures { result ≡ is_summing mode.now }
{
    mode == b"sum".as_slice() || mode == b"avg".as_slice() || mode == b"median".as_slice()
}
