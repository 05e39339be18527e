//! The quick way from a text to a value, in one pass over its tokens. It takes what almost every line is, and leaves
//! the rest undecided: a number that isn't whole (a later member of the same name may replace it), and an object of
//! many members out of order (which a sorted map takes in less time).
ghost use Rattle.std.specs.Prelude.{◌≡◌, ◌<◌, ◌≤◌, ◌++◌, ◌∷◌, [], length, true, false, Some, None, IfOk, IfErr, IfSome, IsErrOf, OnOk, slice_set, insert};
ghost use Rattle.std.specs.Ordering.{nat_cmp};
ghost use Rattle.std.specs.BTreeMap.{insert_entry};
ghost use Rattle.std.specs.Cmp.Lexicographic.{slice_cmp};
ghost use Rattle.json.specs.Json.{value, items, members};
ghost use Rattle.serde_json.specs.Read.{number_of, number_from, read};
ghost use Rattle.tree_json.specs.Names.{IsAscending};
ghost use Rattle.tree_json.specs.Quick.{Says, SaysElements, SaysMembers, SaysText, IsWhole};
ghost use Rattle.tree_json.specs.Value.{JsonValue};
ghost use Rattle.tree_json.specs.View.{view, entries};

use crate::out_text::NoMemory;
use crate::value::{Json, JsonList, JsonObject, JsonText};
use fast_float::Numeral;
use json::{Invalid, Reader, Scratch, Token};
use std::alloc::{AllocError, AllocFailed, Global};
use std::cmp::Ordering;

// The greatest number of lists and objects inside one another.
pub(crate) const MAX_LEVELS: usize = 127;

// The greatest number of members among which one is put out of order.
const MAX_SHIFTED: usize = 32;

// Why there is no value: the text is no JSON, it is left to another way, or an allocation failed.
#[derive(Clone, Copy, Debug, PartialEq, Eq)]
pub(crate) enum Stop {
    BadJson,
    Undecided,
    NoMemory,
}

impl From<Invalid> for Stop {
    ghost use Rattle.std.specs.Prelude.{◌≡◌};
    ghost use Rattle.tree_json.specs.declared.quick.Stop.TheVariants.{BadJson};

    ghost from_gives = { λ _ e. e ≡ BadJson };

    fn from(_error: Invalid) -> Stop {
        Stop::BadJson
    }
}

impl From<NoMemory> for Stop {
    ghost use Rattle.std.specs.Prelude.{◌≡◌};
    ghost use Rattle.tree_json.specs.declared.quick.Stop.TheVariants.{NoMemory};

    ghost from_gives = { λ _ e. e ≡ NoMemory };

    fn from(_error: NoMemory) -> Stop {
        Stop::NoMemory
    }
}

impl From<AllocError> for Stop {
    ghost use Rattle.std.specs.Prelude.{◌≡◌};
    ghost use Rattle.tree_json.specs.declared.quick.Stop.TheVariants.{NoMemory};

    ghost from_gives = { λ _ e. e ≡ NoMemory };

    fn from(_error: AllocError) -> Stop {
        Stop::NoMemory
    }
}

impl<T: Drop> From<AllocFailed<T>> for Stop {
    ghost use Rattle.std.specs.Prelude.{◌≡◌};
    ghost use Rattle.tree_json.specs.declared.quick.Stop.TheVariants.{NoMemory};

    ghost from_gives = { λ _ e. e ≡ NoMemory };

    fn from(_error: AllocFailed<T>) -> Stop {
        Stop::NoMemory
    }
}

// The value that the whole text is.
#[tactic(auto, using(crate::proofs::Tokens::texts))]
pub(crate) fn read_text(alloc: Global, text: &str, scratch: &mut Scratch) -> Result<Json, Stop>
    ensures ok { IfOk result (λ j. SaysText (read text.now) (view j)) }
    ensures bad { IsErrOf result Stop.BadJson → read text.now ≡ None }
{
    let Ok(mut reader) = Reader::new(text, scratch) else {
        return Err(Stop::NoMemory);
    };
    let value = read_value(alloc, &mut reader, MAX_LEVELS)?;
    if reader.next().is_some() {
        return Err(Stop::BadJson);
    }
    Ok(value)
}

// The value that begins at the reader's place.
#[cycle(quick)]
fn read_value(alloc: Global, reader: &mut Reader<'_>, depth: usize) -> Result<Json, Stop>
    ensures ok { IfOk result
        (λ j. Says (value depth reader.old) (view j) reader.new) }
    ensures shorter { OnOk result (length reader.new < length reader.old) }
    ensures bad { IsErrOf result Stop.BadJson → value depth reader.old ≡ None }
{
    let token = reader.next().ok_or(Stop::BadJson)?;
    match token {
        Token::String(text) => Ok(Json::Text(JsonText::of_string(String::from_str(alloc, text)?))),
        Token::Number(text) => match whole_number(text) {
            Some(number) => Ok(Json::Whole(number)),
            None => Err(Stop::Undecided),
        },
        Token::Bool(holds) => Ok(Json::Bool(holds)),
        Token::Null => Ok(Json::Null),
        Token::EndObject | Token::EndArray | Token::Key(_) | Token::Bad => Err(Stop::BadJson),
        Token::BeginArray => {
            if depth == 0 {
                return Err(Stop::BadJson);
            }
            Ok(Json::List(read_list(alloc, reader, depth - 1)?))
        }
        Token::BeginObject => {
            if depth == 0 {
                return Err(Stop::BadJson);
            }
            Ok(Json::Object(read_object(alloc, reader, depth - 1)?))
        }
    }
}

// The elements up to the bracket that closes the list.
#[cycle(quick)]
fn read_list(alloc: Global, reader: &mut Reader<'_>, depth: usize) -> Result<JsonList, Stop>
    ensures ok { IfOk result
        (λ l. SaysElements (items (value depth) (length reader.old) reader.old) l reader.new) }
    ensures shorter { OnOk result (length reader.new < length reader.old) }
    ensures bad { IsErrOf result Stop.BadJson
        → items (value depth) (length reader.old) reader.old ≡ None }
{
    let mut elements = Vec::new(alloc);
    'elements: while !reader.take_end_array() {
        let element = read_value(alloc, reader, depth)?;
        elements.push(element)?;
    }
    Ok(JsonList::of(elements))
}

// The members up to the brace that closes the object.
#[cycle(quick)]
fn read_object(alloc: Global, reader: &mut Reader<'_>, depth: usize) -> Result<JsonObject, Stop>
    ensures ok { IfOk result
        (λ o. SaysMembers (members (value depth) (length reader.old) reader.old) o reader.new) }
    ensures shorter { OnOk result (length reader.new < length reader.old) }
    ensures bad { IsErrOf result Stop.BadJson
        → members (value depth) (length reader.old) reader.old ≡ None }
{
    let mut found = Vec::new(alloc);
    'members: while let Some(key) = reader.next_key()? {
        let name = JsonText::of_string(String::from_str(alloc, key)?);
        let member = read_value(alloc, reader, depth)?;
        put_among(&mut found, name, member)?;
    }
    Ok(JsonObject::of(found))
}

// Puts a member at the place of its name, over the one that stands there.
#[tactic(auto, using(crate::proofs::Insertion::entry_edits))]
fn put_among(members: &mut Vec<(JsonText, Json)>, name: JsonText, value: Json) -> Result<(), Stop>
    requires { IsAscending (entries members.old.items) }
    ensures ok { OnOk result (entries members.new.items
        ≡ insert_entry (slice_cmp nat_cmp) (entries members.old.items) name (view value)) }
    ensures bad { ¬ IsErrOf result Stop.BadJson }
{
    if comes_last(members.as_slice(), name.as_slice()) {
        members.push((name, value))?;
        return Ok(());
    }
    if members.len() > MAX_SHIFTED {
        return Err(Stop::Undecided);
    }
    match place_of(members.as_slice(), name.as_slice()) {
        Ok(place) => members[place] = (name, value),
        Err(gap) => members.insert(gap, (name, value))?,
    }
    Ok(())
}

// Whether the name comes after all of these.
#[tactic(auto, using(crate::proofs::Insertion::comes_last_is))]
fn comes_last(members: &[(JsonText, Json)], name: &[u8]) -> bool
    requires { IsAscending (entries members.now) }
    ensures { result ≡ true → (v : JsonValue)
        → insert_entry (slice_cmp nat_cmp) (entries members.now) name.now v
        ≡ entries members.now ++ (name.now, v) ∷ [] }
{
    if members.is_empty() {
        return true;
    }
    let (last, _) = &members[members.len() - 1];
    last.as_slice().cmp(name).is_lt()
}

// Where the name stands, or the gap where it would go.
#[tactic(auto, using(crate::proofs::Insertion::places))]
fn place_of(members: &[(JsonText, Json)], name: &[u8]) -> Result<usize, usize>
    ensures place { IfOk result (λ place. (place < length members.now) × ((v : JsonValue)
        → insert_entry (slice_cmp nat_cmp) (entries members.now) name.now v
        ≡ slice_set (entries members.now) place (name.now, v))) }
    ensures gap { IfErr result (λ gap. (gap ≤ length members.now) × ((v : JsonValue)
        → insert_entry (slice_cmp nat_cmp) (entries members.now) name.now v
        ≡ insert (entries members.now) gap (name.now, v))) }
{
    let mut place = 0;
    'places: while place < members.len() {
        let (key, _) = &members[place];
        match name.cmp(key.as_slice()) {
            Ordering::Less => return Err(place),
            Ordering::Equal => return Ok(place),
            Ordering::Greater => place += 1,
        }
    }
    Err(place)
}

// The number that a token writes, where it is a whole one of 64 bits, signed.
#[tactic(auto, unfolding(serde_json::specs::Read::number_of))]
pub(crate) fn whole_number(text: &str) -> Option<i64>
    ensures { IfSome result (IsWhole (number_of text.now)) }
{
    let bytes = text.as_bytes();
    if !bytes.is_empty() && bytes[0] == b'-' {
        negative_number(&Numeral::scan(bytes.split_at(1).1))
    } else {
        positive_number(&Numeral::scan(bytes))
    }
}

// `-0` is a float to `serde_json`.
fn negative_number(digits: &Numeral<'_>) -> Option<i64>
    ensures { IfSome result (IsWhole (number_from true digits.now)) }
{
    let number = digits.to_i64(true)?;
    if number < 0 { Some(number) } else { None }
}

fn positive_number(digits: &Numeral<'_>) -> Option<i64>
    ensures { IfSome result (IsWhole (number_from false digits.now)) }
{
    digits.to_i64(false)
}
