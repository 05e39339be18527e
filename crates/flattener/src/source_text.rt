//! The compact text of a source. It is walked once, into room that grows with the text: a text is measured only where it
//! might not fit.
ghost use Rattle.std.specs.Prelude.{◌≡◌, ◌⊎◌, ◌+◌, ◌<◌, ◌≤◌, ◌++◌, ◌∷◌, [], codes, false, length, IfErr, IfOk, IsOk, OnOk};
ghost use Rattle.std.specs.Fmt.{signed_decimal};
ghost use Rattle.tree_json.specs.Levels.{levels, most_levels};
ghost use Rattle.tree_json.specs.Reading.{reading, value as is_value};
ghost use Rattle.tree_json.specs.Sound.{IsSound, AreSound, MembersAreSound};
ghost use Rattle.tree_json.specs.Text.{comma_if, compact, compact_elements, compact_members, quoted};
ghost use Rattle.tree_json.specs.Value.{elements_of, members_of};
ghost use Rattle.tree_json.specs.View.{view, values, entries};
ghost use Rattle.flattener.specs.Fits.{most_source};

use crate::refusal::{FlattenRefusal, NoMemory};
use std::alloc::Global;
use tree_json::{Json, JsonText, OutText, print, put_quoted, put_whole, quoted_len, whole_len};

/// The most bytes of a source's compact text.
pub const LONGEST_SOURCE: u64 = 16_777_216;

/// The bytes for which a text has room at first.
const FIRST_ROOM: u64 = 256;

/// The compact text of a source, unless it is too long. Its objects are counted in `objects`, which tells how much room its
/// documents may take and nothing that is proved.
pub(crate) fn source_text(
    alloc: Global,
    source: &Json,
    objects: &mut usize,
) -> Result<Vec<u8>, FlattenRefusal>
    ensures text { IfOk result (λ v. v.items ≡ compact (view source.now)) }
    ensures reads_back { IfOk result (λ v. levels (view source.now) ≤ most_levels → reading v.items ≡ is_value (view source.now)) }
    ensures short { IsOk result → length (compact (view source.now)) ≤ most_source }
    ensures refused { IfErr result (λ e. (e ≡ FlattenRefusal.NoMemory) ⊎ ((e ≡ FlattenRefusal.SourceTooLong) × (most_source < length (compact (view source.now))))) }
{
    let text = compact_text(alloc, source, objects)?;
    if text.len() as u64 > LONGEST_SOURCE {
        return Err(FlattenRefusal::SourceTooLong);
    }
    Ok(text)
}

/// The compact text of a value.
#[tactic(auto, using(tree_json::proofs::RoundTrip::reads_back))]
fn compact_text(alloc: Global, value: &Json, objects: &mut usize) -> Result<Vec<u8>, NoMemory>
    ensures text { IfOk result (λ v. v.items ≡ compact (view value.now)) }
    ensures reads_back { IfOk result (λ v. levels (view value.now) ≤ most_levels → reading v.items ≡ is_value (view value.now)) }
{
    let mut text = OutText::empty(alloc);
    text.reserve(FIRST_ROOM)?;
    push(value, &mut text, objects)?;
    Ok(text.into_vec())
}

/// Adds the compact text of a value.
#[cycle(texts)]
#[tactic(auto, using(tree_json::proofs::Sizes::sizes))]
fn push(value: &Json, into: &mut OutText, objects: &mut usize) -> Result<(), NoMemory>
    ensures text { OnOk result (into.new.bytes ≡ into.old.bytes ++ compact (view value.now)) }
    ensures sound { OnOk result (IsSound (view value.now)) }
{
    match value {
        Json::Text(text) => push_quoted(text.as_slice(), into),
        Json::List(list) => {
            push_byte(b'[', into)?;
            push_elements(list.as_slice(), into, objects)?;
            push_byte(b']', into)
        }
        Json::Object(object) => {
            *objects = objects.wrapping_add(1);
            push_byte(b'{', into)?;
            push_members(object.as_slice(), into, objects)?;
            push_byte(b'}', into)?;
            Ok(())
        }
        Json::Null => Ok(print(value, into)?),
        Json::Bool(_) => Ok(print(value, into)?),
        Json::Whole(number) => push_whole(*number, into),
    }
}

#[cycle(texts)]
#[tactic(auto, using(tree_json::proofs::Sizes::sizes))]
fn push_elements(elements: &[Json], into: &mut OutText, objects: &mut usize) -> Result<(), NoMemory>
    ensures text { OnOk result (into.new.bytes ≡ into.old.bytes ++ compact_elements false (elements_of (values elements.now))) }
    ensures sound { OnOk result (AreSound (elements_of (values elements.now))) }
{
    let mut later = false;
    'elements: for element in elements {
        if later {
            push_byte(b',', into)?;
        }
        push(element, into, objects)?;
        later = true;
    }
    Ok(())
}

#[cycle(texts)]
#[tactic(auto, using(tree_json::proofs::Sizes::sizes))]
fn push_members(
    members: &[(JsonText, Json)],
    into: &mut OutText,
    objects: &mut usize,
) -> Result<(), NoMemory>
    ensures text { OnOk result (into.new.bytes ≡ into.old.bytes ++ compact_members false (members_of (entries members.now))) }
    ensures sound { OnOk result (MembersAreSound (members_of (entries members.now))) }
{
    let mut later = false;
    'members: for (name, value) in members {
        push_name(later, name.as_slice(), into)?;
        push(value, into, objects)?;
        later = true;
    }
    Ok(())
}

/// Adds a name with the colon behind it, and with the comma that stands before a later one.
fn push_name(later: bool, name: &[u8], into: &mut OutText) -> Result<(), NoMemory>
    ensures { OnOk result (into.new.bytes ≡ into.old.bytes ++ (comma_if later ++ (quoted name.now ++ codes ":"))) }
{
    make_room(name, into)?;
    if later {
        into.push_byte(b',');
    }
    put_quoted(name, into);
    into.push_byte(b':');
    Ok(())
}

fn push_quoted(text: &[u8], into: &mut OutText) -> Result<(), NoMemory>
    ensures { OnOk result (into.new.bytes ≡ into.old.bytes ++ quoted text.now) }
{
    make_room(text, into)?;
    put_quoted(text, into);
    Ok(())
}

fn push_whole(number: i64, into: &mut OutText) -> Result<(), NoMemory>
    ensures { OnOk result (into.new.bytes ≡ into.old.bytes ++ signed_decimal number) }
{
    into.reserve(whole_len(number))?;
    put_whole(number, into);
    Ok(())
}

fn push_byte(byte: u8, into: &mut OutText) -> Result<(), NoMemory>
    ensures { OnOk result (into.new.bytes ≡ into.old.bytes ++ byte ∷ []) }
{
    into.reserve(1)?;
    into.push_byte(byte);
    Ok(())
}

/// Makes room for a quoted text and two bytes more. A byte of a text takes at most six, so that a text is measured only where
/// little room is left.
#[tactic(auto, using(crate::proofs::Weights::fitting))]
fn make_room(text: &[u8], into: &mut OutText) -> Result<(), NoMemory>
    ensures same { OnOk result (into.new.bytes ≡ into.old.bytes) }
    ensures room { OnOk result (length (quoted text.now) + 2 ≤ into.new.spare) }
{
    if (text.len() as u64) < into.spare() / 8 {
        return Ok(());
    }
    into.reserve(quoted_len(text).saturating_add(2))?;
    Ok(())
}
