//! From a value to its compact text. The length comes first: then the text goes into room that is there, and that
//! can't fail.
ghost use Rattle.std.specs.Prelude.{◌≡◌, ◌-◌, ◌≤◌, ◌^◌, ◌++◌, ◌+◌, min, length, OnOk, OnErr, IsOk, true, false};
ghost use Rattle.std.specs.Str.{IsUtf8};
ghost use Rattle.tree_json.specs.Levels.{levels, most_levels};
ghost use Rattle.tree_json.specs.Output.{room_of};
ghost use Rattle.tree_json.specs.Reading.{reading, value as is_value};
ghost use Rattle.tree_json.specs.Sound.{IsSound, AreSound, MembersAreSound};
ghost use Rattle.tree_json.specs.Text.{compact, compact_elements, compact_members, compact_member, comma_if};
ghost use Rattle.tree_json.specs.Value.{elements_of, members_of};
ghost use Rattle.tree_json.specs.View.{view, values, entries};

use crate::out_text::{NoMemory, OutText};
use crate::quote::{put_quoted, quoted_len};
use crate::value::{Json, JsonText};
use crate::whole::{put_whole, whole_len};

/// Appends the compact text of the value: no blanks, an object's names in byte order. It makes room for the whole
/// text first, so that after NoMemory nothing is written. The text of a value that nests as little as what is read reads
/// back as that value.
#[tactic(auto, using(crate::proofs::RoundTrip::reads_back))]
pub fn print(value: &Json, into: &mut OutText) -> Result<(), NoMemory>
    ensures ok { OnOk result (into.new.bytes ≡ into.old.bytes ++ compact (view value.now)) }
    ensures unchanged { OnErr result (into.new ≡ into.old) }
    ensures succeeds { length (compact (view value.now)) ≤ into.old.spare → IsOk result }
    ensures again { OnOk result (levels (view value.now) ≤ most_levels → reading (compact (view value.now)) ≡ is_value (view value.now)) }
    ensures room { room_of into.old ≤ room_of into.new }
{
    into.reserve(compact_len(value))?;
    put(value, into);
    Ok(())
}

/// The length of the compact text, in bytes, or the greatest u64 where it is greater than that.
#[cycle(measure)]
#[tactic(auto, using(crate::proofs::Sizes::sizes))]
pub fn compact_len(value: &Json) -> u64
    ensures length { result ≡ min (length (compact (view value.now))) (2 ^ 64 - 1) }
    ensures sound { IsSound (view value.now) }
{
    match value {
        Json::Null => 4,
        Json::Bool(true) => 4,
        Json::Bool(false) => 5,
        Json::Whole(number) => whole_len(*number),
        Json::Text(text) => quoted_len(text.as_slice()),
        Json::List(list) => elements_len(list.as_slice()).saturating_add(2),
        Json::Object(object) => members_len(object.as_slice()).saturating_add(2),
    }
}

// The length of the elements with the commas between them.
#[cycle(measure)]
#[tactic(auto, using(crate::proofs::Sizes::sizes))]
fn elements_len(elements: &[Json]) -> u64
    ensures length { result ≡ min (length (compact_elements false (elements_of (values elements.now)))) (2 ^ 64 - 1) }
    ensures sound { AreSound (elements_of (values elements.now)) }
{
    let mut total: u64 = 0;
    let mut later = false;
    'elements: for element in elements {
        total = total
            .saturating_add(later as u64)
            .saturating_add(compact_len(element));
        later = true;
    }
    total
}

// The length of the members with the commas between them.
#[cycle(measure)]
#[tactic(auto, using(crate::proofs::Sizes::sizes))]
fn members_len(members: &[(JsonText, Json)]) -> u64
    ensures length { result ≡ min (length (compact_members false (members_of (entries members.now)))) (2 ^ 64 - 1) }
    ensures sound { MembersAreSound (members_of (entries members.now)) }
{
    let mut total: u64 = 0;
    let mut later = false;
    'members: for member in members {
        total = total
            .saturating_add(later as u64)
            .saturating_add(member_len(member));
        later = true;
    }
    total
}

#[cycle(measure)]
#[tactic(auto, using(crate::proofs::Sizes::sizes))]
fn member_len(member: &(JsonText, Json)) -> u64
    ensures length { result ≡ min (length (compact_member member.now.0 (view member.now.1))) (2 ^ 64 - 1) }
    ensures sound { IsUtf8 member.now.0 × IsSound (view member.now.1) }
{
    let (name, value) = member;
    quoted_len(name.as_slice())
        .saturating_add(1)
        .saturating_add(compact_len(value))
}

/// Appends the compact text of the value, for which there is room.
#[cycle(put)]
#[tactic(auto, using(crate::proofs::Sizes::sizes))]
pub fn put(value: &Json, into: &mut OutText)
    requires { length (compact (view value.now)) ≤ into.old.spare }
    ensures bytes { into.new.bytes ≡ into.old.bytes ++ compact (view value.now) }
    ensures spare { into.old.spare ≤ into.new.spare + length (compact (view value.now)) }
    ensures room { room_of into.old ≤ room_of into.new }
{
    match value {
        Json::Null => into.push_spare(b"null"),
        Json::Bool(true) => into.push_spare(b"true"),
        Json::Bool(false) => into.push_spare(b"false"),
        Json::Whole(number) => put_whole(*number, into),
        Json::Text(text) => put_quoted(text.as_slice(), into),
        Json::List(list) => {
            into.push_byte(b'[');
            put_elements(list.as_slice(), into);
            into.push_byte(b']');
        }
        Json::Object(object) => {
            into.push_byte(b'{');
            put_members(object.as_slice(), into);
            into.push_byte(b'}');
        }
    }
}

#[cycle(put)]
#[tactic(auto, using(crate::proofs::Sizes::sizes))]
fn put_elements(elements: &[Json], into: &mut OutText)
    requires { length (compact_elements false (elements_of (values elements.now))) ≤ into.old.spare }
    ensures bytes { into.new.bytes ≡ into.old.bytes ++ compact_elements false (elements_of (values elements.now)) }
    ensures spare { into.old.spare
        ≤ into.new.spare + length (compact_elements false (elements_of (values elements.now))) }
{
    let mut later = false;
    'elements: for element in elements {
        put_comma(later, into);
        put(element, into);
        later = true;
    }
}

#[cycle(put)]
#[tactic(auto, using(crate::proofs::Sizes::sizes))]
fn put_members(members: &[(JsonText, Json)], into: &mut OutText)
    requires { length (compact_members false (members_of (entries members.now))) ≤ into.old.spare }
    ensures bytes { into.new.bytes ≡ into.old.bytes ++ compact_members false (members_of (entries members.now)) }
    ensures spare { into.old.spare
        ≤ into.new.spare + length (compact_members false (members_of (entries members.now))) }
{
    let mut later = false;
    'members: for member in members {
        put_comma(later, into);
        put_member(member, into);
        later = true;
    }
}

#[cycle(put)]
#[tactic(auto, using(crate::proofs::Sizes::sizes))]
fn put_member(member: &(JsonText, Json), into: &mut OutText)
    requires { length (compact_member member.now.0 (view member.now.1)) ≤ into.old.spare }
    ensures bytes { into.new.bytes ≡ into.old.bytes ++ compact_member member.now.0 (view member.now.1) }
    ensures spare { into.old.spare
        ≤ into.new.spare + length (compact_member member.now.0 (view member.now.1)) }
{
    let (name, value) = member;
    put_quoted(name.as_slice(), into);
    into.push_byte(b':');
    put(value, into);
}

fn put_comma(later: bool, into: &mut OutText)
    requires { length (comma_if later) ≤ into.old.spare }
    ensures bytes { into.new.bytes ≡ into.old.bytes ++ comma_if later }
    ensures spare { into.old.spare ≤ into.new.spare + length (comma_if later) }
{
    if later {
        into.push_byte(b',');
    }
}
