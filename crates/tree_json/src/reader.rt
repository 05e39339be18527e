//! From bytes to a value.
ghost use Rattle.std.specs.Prelude.{◌≡◌, Some, None, OnOk, IfOk, IfSome, IsErrOf, MatchResult};
ghost use Rattle.tree_json.specs.OneText.{one_text};
ghost use Rattle.serde_json.specs.View.{items_view, members_view, view as data_view};
ghost use Rattle.serde_json.specs.Read.{read as read_data};
ghost use Rattle.tree_json.specs.Quick.{SaysText, IsFraction};
ghost use Rattle.tree_json.specs.Reading.{bad_json, fraction, reading, value, whole_value, whole_elements, whole_members};
ghost use Rattle.tree_json.specs.Value.{elements_of, members_of};
ghost use Rattle.tree_json.specs.View.{view};

use crate::one_text::{OneText, one_text_of};
use crate::out_text::NoMemory;
use crate::quick::{Stop, read_text};
use crate::value::{Json, JsonList, JsonObject, JsonText};
use json::Scratch;
use serde_json::{Map, Value};
use std::alloc::{AllocError, AllocFailed, Global};

/// Why bytes are no value.
#[derive(Clone, Copy, Debug, PartialEq, Eq)]
pub enum JsonRefusal {
    /// `serde_json` reads no value from them: no UTF-8, no JSON (RFC 8259), more than 127 levels of lists and
    /// objects, or a number beyond a float's range.
    BadJson,
    /// They are JSON with a number that is no whole one of 64 bits, signed.
    FractionNumber,
    /// An allocation failed.
    NoMemory,
}

impl From<NoMemory> for JsonRefusal {
    ghost use Rattle.std.specs.Prelude.{◌≡◌};
    ghost use Rattle.tree_json.specs.declared.reader.JsonRefusal.TheVariants.{NoMemory};

    ghost from_gives = { λ _ e. e ≡ NoMemory };

    fn from(_error: crate::out_text::NoMemory) -> JsonRefusal {
        JsonRefusal::NoMemory
    }
}

impl From<AllocError> for JsonRefusal {
    ghost use Rattle.std.specs.Prelude.{◌≡◌};
    ghost use Rattle.tree_json.specs.declared.reader.JsonRefusal.TheVariants.{NoMemory};

    ghost from_gives = { λ _ e. e ≡ NoMemory };

    fn from(_error: AllocError) -> JsonRefusal {
        JsonRefusal::NoMemory
    }
}

impl<T: Drop> From<AllocFailed<T>> for JsonRefusal {
    ghost use Rattle.std.specs.Prelude.{◌≡◌};
    ghost use Rattle.tree_json.specs.declared.reader.JsonRefusal.TheVariants.{NoMemory};

    ghost from_gives = { λ _ e. e ≡ NoMemory };

    fn from(_error: AllocFailed<T>) -> JsonRefusal {
        JsonRefusal::NoMemory
    }
}

/// Reads values, one after another, over buffers that it keeps.
#[derive(Drop)]
pub struct JsonReader {
    scratch: Scratch,
}

impl JsonReader {
    /// A reader that has no memory yet.
    pub fn new(alloc: Global) -> JsonReader {
        JsonReader {
            scratch: Scratch::new(alloc),
        }
    }

    /// The value that the bytes say (RFC 8259). A repeated name keeps its last value.
    #[tactic(auto, using(crate::proofs::Readings::readings))]
    pub fn read(&mut self, alloc: Global, bytes: &[u8]) -> Result<Json, JsonRefusal>
        ensures ok { IfOk result (λ j. reading bytes.now ≡ value (view j)) }
        ensures bad { IsErrOf result JsonRefusal.BadJson → reading bytes.now ≡ bad_json }
        ensures fraction { IsErrOf result JsonRefusal.FractionNumber
            → reading bytes.now ≡ fraction }
    {
        let Ok(text) = simdutf8::compat::from_utf8(bytes) else {
            return Err(JsonRefusal::BadJson);
        };
        value_of(alloc, text, &mut self.scratch)
    }

    /// The text that the bytes hold in an object of one member in an object of one member, lent: no memory is taken for
    /// it. `None` tells nothing of the bytes, and `read` may be asked.
    #[tactic(auto, using(crate::proofs::Readings::readings))]
    pub fn one_text<'a>(&'a mut self, bytes: &'a [u8]) -> Option<OneText<'a>>
        ensures { IfSome result (λ it. reading bytes.now ≡ value (one_text it.outer.now it.inner.now it.text.now)) }
    {
        let Ok(text) = simdutf8::compat::from_utf8(bytes) else {
            return None;
        };
        one_text_of(text, &mut self.scratch)
    }
}

// The value that the text says, by the quick way where it decides.
fn value_of(alloc: Global, text: &str, scratch: &mut Scratch) -> Result<Json, JsonRefusal>
    ensures ok { IfOk result (λ j. SaysText (read_data text.now) (view j)) }
    ensures bad { IsErrOf result JsonRefusal.BadJson → read_data text.now ≡ None }
    ensures fraction { IsErrOf result JsonRefusal.FractionNumber → IsFraction (read_data text.now) }
{
    match read_text(alloc, text, scratch) {
        Ok(value) => Ok(value),
        Err(Stop::BadJson) => Err(JsonRefusal::BadJson),
        Err(Stop::Undecided) => read_slowly(alloc, text),
        Err(Stop::NoMemory) => Err(JsonRefusal::NoMemory),
    }
}

/// The value that the bytes say, over a buffer of its own: `JsonReader` reads many lines over one.
pub fn read(alloc: Global, bytes: &[u8]) -> Result<Json, JsonRefusal>
    ensures ok { IfOk result (λ j. reading bytes.now ≡ value (view j)) }
    ensures bad { IsErrOf result JsonRefusal.BadJson → reading bytes.now ≡ bad_json }
    ensures fraction { IsErrOf result JsonRefusal.FractionNumber → reading bytes.now ≡ fraction }
{
    JsonReader::new(alloc).read(alloc, bytes)
}

// By way of `serde_json`'s value, in which a repeated name has its last value and the names are sorted.
fn read_slowly(alloc: Global, text: &str) -> Result<Json, JsonRefusal>
    ensures ok { IfOk result (λ j. SaysText (read_data text.now) (view j)) }
    ensures bad { IsErrOf result JsonRefusal.BadJson → read_data text.now ≡ None }
    ensures fraction { IsErrOf result JsonRefusal.FractionNumber → IsFraction (read_data text.now) }
{
    match Value::from_str(alloc, text) {
        Ok(value) => Ok(json_of(alloc, value)?),
        Err(error) => if error.is_memory() {
            Err(JsonRefusal::NoMemory)
        } else {
            Err(JsonRefusal::BadJson)
        },
    }
}

#[cycle(convert)]
fn json_of(alloc: Global, value: Value) -> Result<Json, JsonRefusal>
    ensures ok { IfOk result (λ j. whole_value (data_view value) ≡ Some (view j)) }
    ensures bad { ¬ IsErrOf result JsonRefusal.BadJson }
    ensures fraction { IsErrOf result JsonRefusal.FractionNumber → whole_value (data_view value) ≡ None }
{
    match value {
        Value::Null => Ok(Json::Null),
        Value::Bool(holds) => Ok(Json::Bool(holds)),
        Value::Number(number) => match number.as_i64() {
            Some(whole) => Ok(Json::Whole(whole)),
            None => Err(JsonRefusal::FractionNumber),
        },
        Value::String(text) => Ok(Json::Text(JsonText::of_string(text))),
        Value::Array(items) => Ok(Json::List(list_of(alloc, items)?)),
        Value::Object(members) => Ok(Json::Object(object_of(alloc, members)?)),
    }
}

#[cycle(convert)]
fn list_of(alloc: Global, items: Vec<Value>) -> Result<JsonList, JsonRefusal>
    ensures ok { IfOk result (λ l. whole_elements (items_view items.items) ≡ Some (elements_of l)) }
    ensures bad { ¬ IsErrOf result JsonRefusal.BadJson }
    ensures fraction { IsErrOf result JsonRefusal.FractionNumber
        → whole_elements (items_view items.items) ≡ None }
{
    let mut found = Vec::with_capacity(alloc, items.len())?;
    'items: for item in items {
        found.push(json_of(alloc, item)?)?;
    }
    Ok(JsonList::of(found))
}

#[cycle(convert)]
fn object_of(alloc: Global, members: Map<String, Value>) -> Result<JsonObject, JsonRefusal>
    ensures ok { IfOk result (λ o. whole_members (members_view members.entries) ≡ Some (members_of o)) }
    ensures bad { ¬ IsErrOf result JsonRefusal.BadJson }
    ensures fraction { IsErrOf result JsonRefusal.FractionNumber
        → whole_members (members_view members.entries) ≡ None }
{
    let mut found = Vec::with_capacity(alloc, members.len())?;
    'members: for (name, member) in members {
        found.push((JsonText::of_string(name), json_of(alloc, member)?))?;
    }
    Ok(JsonObject::of(found))
}
