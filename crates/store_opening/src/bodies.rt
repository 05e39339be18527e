//! The mapping that a record's bodies are texts of.

ghost use Rattle.std.specs.Prelude.{◌≡◌, ◌∷◌, ◌++◌, ◌<◌, length, IfOk, IfSome, IsNone, IsTrue, ◌↔◌};
ghost use Rattle.mapping.specs.Mapping.{Mapping};
ghost use Rattle.mapping_growth.specs.Bodies.{AreBodies};
ghost use Rattle.tree_json.specs.Text.{compact};
ghost use Rattle.tree_json.specs.Value.{JsonValue};
ghost use Rattle.tree_json.specs.View.{view};
ghost use Rattle.store_opening.specs.Read.{IsTextOf, IsMappingOf, IsFirst, IsGrownBy};

use crate::refusal::NoMemory;
use mapping::{Growth, Mapping, MappingRefusal};
use std::alloc::Global;
use store_text::Body;
use tree_json::{Json, JsonReader, JsonRefusal, OutText, print};

/// The mapping that grew by these bodies in order: each is the compact text of a value that is read back from it, and with each
/// the bodies up to it are a mapping, within the limits of one. None exactly where there is no such mapping.
#[tactic(auto, using(crate::proofs::Grown::grows))]
pub fn mapping_of_bodies(
    alloc: Global,
    bodies: &[Body],
    dynamic: bool,
) -> Result<Option<Mapping>, NoMemory>
    ensures mapping { IfOk result (λ found. IfSome found (IsMappingOf bodies.now dynamic)) }
    ensures none { IfOk result (λ found. IsNone found → (m : Mapping) → IsMappingOf bodies.now dynamic m → ⊥) }
{
    let [first, rest @ ..] = bodies else {
        return Ok(None);
    };
    let mut reader = JsonReader::new(alloc);
    let Some(mut mapping) = first_mapping(alloc, &mut reader, first.as_slice())? else {
        return Ok(None);
    };
    'bodies: for body in rest {
        let Some(grown) = grown_mapping(alloc, &mut reader, &mapping, body.as_slice())? else {
            return Ok(None);
        };
        mapping = grown;
    }
    mapping.set_dynamic(dynamic);
    Ok(Some(mapping))
}

/// The mapping of a first body.
fn first_mapping(
    alloc: Global,
    reader: &mut JsonReader,
    body: &[u8],
) -> Result<Option<Mapping>, NoMemory>
    ensures mapping { IfOk result (λ found. IfSome found (IsFirst body.now)) }
    ensures none { IfOk result (λ found. IsNone found → (m : Mapping) → IsFirst body.now m → ⊥) }
{
    let Some(value) = value_of(alloc, reader, body)? else {
        return Ok(None);
    };
    match Mapping::read(alloc, &value) {
        Ok(mapping) => Ok(Some(mapping)),
        Err(MappingRefusal::NoMemory) => Err(NoMemory),
        Err(MappingRefusal::BadRequest) => Ok(None),
        Err(MappingRefusal::Conflict(_)) => Ok(None),
        Err(MappingRefusal::TooMuch(_)) => Ok(None),
    }
}

/// The mapping with one body more, which adds something.
#[tactic(auto, using(crate::proofs::Grown::refusals))]
fn grown_mapping(
    alloc: Global,
    reader: &mut JsonReader,
    mapping: &Mapping,
    body: &[u8],
) -> Result<Option<Mapping>, NoMemory>
    requires { 0 < length mapping.now.bodies }
    ensures mapping { IfOk result (λ found. IfSome found (IsGrownBy body.now mapping.now)) }
    ensures none { IfOk result (λ found. IsNone found → (m : Mapping) → IsGrownBy body.now mapping.now m → ⊥) }
{
    let Some(value) = value_of(alloc, reader, body)? else {
        return Ok(None);
    };
    match mapping.grown(alloc, &value) {
        Ok(Growth::Added(grown)) => Ok(Some(grown)),
        Ok(Growth::Same) => Ok(None),
        Err(MappingRefusal::NoMemory) => Err(NoMemory),
        Err(MappingRefusal::BadRequest) => Ok(None),
        Err(MappingRefusal::Conflict(_)) => Ok(None),
        Err(MappingRefusal::TooMuch(_)) => Ok(None),
    }
}

/// The value that bytes are the compact text of, and are read as.
fn value_of(alloc: Global, reader: &mut JsonReader, body: &[u8]) -> Result<Option<Json>, NoMemory>
    ensures value { IfOk result (λ found. IfSome found (λ v. IsTextOf (view v) body.now)) }
    ensures none { IfOk result (λ found. IsNone found → (v : JsonValue) → IsTextOf v body.now → ⊥) }
{
    match reader.read(alloc, body) {
        Ok(value) => if is_compact(alloc, &value, body)? {
            Ok(Some(value))
        } else {
            Ok(None)
        },
        Err(JsonRefusal::NoMemory) => Err(NoMemory),
        Err(JsonRefusal::BadJson) => Ok(None),
        Err(JsonRefusal::FractionNumber) => Ok(None),
    }
}

/// Whether bytes are the compact text of a value.
fn is_compact(alloc: Global, value: &Json, bytes: &[u8]) -> Result<bool, NoMemory>
    ensures { IfOk result (λ is. IsTrue is ↔ bytes.now ≡ compact (view value.now)) }
{
    let mut text = OutText::empty(alloc);
    print(value, &mut text)?;
    Ok(text.as_slice() == bytes)
}
