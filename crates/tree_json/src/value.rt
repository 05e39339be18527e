//! The types of a JSON value.
ghost use Rattle.std.specs.Prelude.{◌≡◌, map, option_map, IfOk};
ghost use Rattle.std.specs.Str.{IsUtf8};
ghost use Rattle.std.specs.String.{string_bytes};

use crate::out_text::NoMemory;
use std::alloc::Global;
use std::cmp::Ordering;
use std::marker::Model;

/// A text of a JSON value, or the name of a member: UTF-8. Contracts see its bytes.
#[derive(Drop)]
pub struct JsonText {
    text: String,
}

impl Model for JsonText {
    ghost use Rattle.std.specs.Prelude.{List, ℕ};
    ghost use Rattle.std.specs.String.{string_bytes};

    ghost Value = { List ℕ };

    ghost view = { λ t. string_bytes t.text };
}

impl JsonText {
    /// The text with these bytes.
    pub fn of(bytes: Vec<u8>) -> JsonText
        requires { IsUtf8 bytes.items }
        ensures { result ≡ bytes.items }
    {
        // SAFETY: the bytes are UTF-8, as is required of the caller.
        let text = unsafe { String::from_utf8_unchecked(bytes) };
        JsonText { text }
    }

    /// The text, copied.
    pub fn of_str(alloc: Global, text: &str) -> Result<JsonText, NoMemory>
        ensures { IfOk result (λ copy. copy ≡ text.now) }
    {
        Ok(JsonText {
            text: String::from_str(alloc, text)?,
        })
    }

    pub(crate) fn of_string(text: String) -> JsonText
        ensures { result ≡ string_bytes text }
    {
        JsonText { text }
    }

    /// The text.
    pub fn as_str(&self) -> &str
        ensures { result.now ≡ self.now }
    {
        self.text.as_str()
    }

    /// The bytes of the text.
    pub fn as_slice(&self) -> &[u8]
        ensures bytes { result.now ≡ self.now }
        ensures utf8 { IsUtf8 result.now }
    {
        self.text.as_str().as_bytes()
    }

    /// The bytes, with no copy.
    pub fn into_vec(self) -> Vec<u8>
        ensures { result.items ≡ self }
    {
        self.text.into_bytes()
    }

    /// The text as a string, with no copy.
    pub fn into_string(self) -> String
        ensures { string_bytes result ≡ self }
    {
        self.text
    }
}

/// The values of a JSON list, in order.
#[cycle(json)]
#[derive(Drop)]
pub struct JsonList {
    items: Vec<Json>,
}

impl Model for JsonList {
    ghost use Rattle.std.specs.Prelude.{List};
    ghost use Rattle.std.specs.Coded.{coded_list};
    ghost use Rattle.tree_json.specs.Value.{JsonValue, elements_of, elements_size};
    ghost use Rattle.tree_json.specs.Code.{value_code};

    ghost Value = { List JsonValue };

    ghost coded = { coded_list value_code };

    ghost use Rattle.tree_json.specs.View.{values};

    ghost view = { λ a. values a.items.items };

    ghost size = { λ ds. elements_size (elements_of ds) };

    ghost use Rattle.std.proofs.Common.{arith};
    ghost use Rattle.tree_json.specs.Falls.{elements_fall};

    ghost size_decreases = { λ a h. Prim.omega (arith, elements_fall a.items.items) };
}

/// The members of a JSON object: names with their values, in ascending byte order of the names, each name once.
#[cycle(json)]
#[derive(Drop)]
pub struct JsonObject {
    members: Vec<(JsonText, Json)>,
}

impl Model for JsonObject {
    ghost use Rattle.std.specs.Prelude.{List, ℕ};
    ghost use Rattle.std.specs.Coded.{coded_list, coded×, coded_ℕ};
    ghost use Rattle.tree_json.specs.Value.{JsonValue, members_of, members_size};
    ghost use Rattle.tree_json.specs.Code.{value_code};

    ghost Value = { List (List ℕ × JsonValue) };

    ghost coded = { coded_list (coded× (coded_list coded_ℕ) value_code) };

    ghost use Rattle.tree_json.specs.View.{entries};
    ghost use Rattle.tree_json.specs.Names.{IsAscending};

    ghost view = { λ a. entries a.members.items };

    ghost invariant = { λ a. IsAscending (entries a.members.items) };

    ghost size = { λ ms. members_size (members_of ms) };

    ghost use Rattle.std.proofs.Common.{arith};
    ghost use Rattle.tree_json.specs.Falls.{members_fall};

    ghost size_decreases = { λ a h. Prim.omega (arith, members_fall a.members.items) };
}

/// A JSON value (RFC 8259) whose numbers are whole ones of 64 bits, signed.
#[cycle(json)]
#[derive(Drop)]
pub enum Json {
    Null,
    Bool(bool),
    Whole(i64),
    Text(JsonText),
    List(JsonList),
    Object(JsonObject),
}

impl JsonList {
    ghost use Rattle.tree_json.specs.View.{values};

    /// The list of these values, in order.
    pub fn of(items: Vec<Json>) -> JsonList
        ensures { result ≡ values items.items }
    {
        JsonList { items }
    }

    /// The values, in order.
    pub fn as_slice(&self) -> &[Json]
        ensures { values result.now ≡ self.now }
    {
        self.items.as_slice()
    }

    /// The values, in order, with no copy.
    pub fn into_vec(self) -> Vec<Json>
        ensures { values result.items ≡ self }
    {
        let JsonList { items } = self;
        items
    }
}

impl JsonObject {
    ghost use Rattle.tree_json.specs.Names.{IsAscending};
    ghost use Rattle.tree_json.specs.Value.{members_of, member_of};
    ghost use Rattle.tree_json.specs.View.{view, entries};

    /// The object with these members, whose names strictly ascend in byte order.
    pub fn of(members: Vec<(JsonText, Json)>) -> JsonObject
        requires { IsAscending (entries members.items) }
        ensures { result ≡ entries members.items }
    {
        JsonObject { members }
    }

    /// The members, in ascending byte order of their names.
    pub fn as_slice(&self) -> &[(JsonText, Json)]
        ensures members { entries result.now ≡ self.now }
        ensures ascending { IsAscending self.now }
    {
        self.members.as_slice()
    }

    /// The members, in ascending byte order of their names, with no copy.
    pub fn into_vec(self) -> Vec<(JsonText, Json)>
        ensures members { entries result.items ≡ self }
        ensures ascending { IsAscending self }
    {
        let JsonObject { members } = self;
        members
    }

    /// The value under a name. It takes about log2 of the number of members comparisons.
    #[tactic(auto, using(crate::proofs::Halves::halves))]
    pub fn member(&self, name: &[u8]) -> Option<&Json>
        ensures { option_map (λ j. view j.now) result ≡ member_of (members_of self.now) name.now }
    {
        let mut members = self.members.as_slice();
        'halves: while !members.is_empty() {
            let middle = members.len() / 2;
            let (key, value) = &members[middle];
            match key.as_slice().cmp(name) {
                Ordering::Less => members = members.split_at(middle + 1).1,
                Ordering::Equal => return Some(value),
                Ordering::Greater => members = members.split_at(middle).0,
            }
        }
        None
    }
}
