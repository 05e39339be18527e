//! A record read from its bytes, from the first to the last.

ghost use Rattle.std.specs.Prelude.{◌≡◌, IfOk, IfSome, IsNone};
ghost use Rattle.part_text.specs.Reading.{Gives};
ghost use Rattle.store_text.specs.declared.record.RecordText.{RecordText};
ghost use Rattle.store_text.specs.Record.{record_text, IsRecord};
ghost use Rattle.store_text.specs.Reading.{old_at, new_at, after_at};

use crate::record::{BodyList, RecordText};
use crate::walk::{bodies_at, body_at, bool_at, form_at, rows_at};
use part_text::{NoMemory, u64_at};
use std::alloc::Global;

/// The record that the bytes are the text of, in either form; None exactly where they are the text of none. Whether its bodies
/// are a mapping, and which places its rows may name, isn't looked at.
pub fn read_record(alloc: Global, bytes: &[u8]) -> Result<Option<RecordText>, NoMemory>
    ensures found { IfOk result (λ found. IfSome found (λ it. IsRecord it × (bytes.now ≡ record_text it))) }
    ensures none { IfOk result (λ found. IsNone found → (it : RecordText) → IsRecord it → bytes.now ≡ record_text it → ⊥) }
{
    let Some((old, rest)) = form_at(bytes) else {
        return Ok(None);
    };
    let Some((it, behind)) = after_at(alloc, old, rest)? else {
        return Ok(None);
    };
    if !behind.is_empty() {
        return Ok(None);
    }
    Ok(Some(it))
}

/// What stands behind the first four bytes.
#[tactic(auto, unfolding(crate::specs::Reading::after_at))]
fn after_at(alloc: Global, old: bool, bytes: &[u8]) -> Result<Option<(RecordText, &[u8])>, NoMemory>
    ensures { IfOk result (λ found. Gives (λ x. (x.0, x.1.now)) found (after_at old bytes.now)) }
{
    if old {
        old_at(alloc, bytes)
    } else {
        new_at(alloc, bytes)
    }
}

/// The old form: one body, whose number isn't written.
#[tactic(auto, unfolding(crate::specs::Reading::old_at))]
fn old_at(alloc: Global, bytes: &[u8]) -> Result<Option<(RecordText, &[u8])>, NoMemory>
    ensures { IfOk result (λ found. Gives (λ x. (x.0, x.1.now)) found (old_at bytes.now)) }
{
    let Some((next, rest)) = u64_at(bytes) else {
        return Ok(None);
    };
    let Some((body, rest)) = body_at(alloc, rest)? else {
        return Ok(None);
    };
    let Some((rows, rest)) = rows_at(alloc, rest)? else {
        return Ok(None);
    };
    let mut bodies = Vec::new(alloc);
    bodies.push(body)?;
    let it = RecordText {
        old: true,
        next,
        dynamic: false,
        bodies: BodyList::of(bodies),
        rows,
    };
    Ok(Some((it, rest)))
}

/// The form that is written.
#[tactic(auto, unfolding(crate::specs::Reading::new_at))]
fn new_at(alloc: Global, bytes: &[u8]) -> Result<Option<(RecordText, &[u8])>, NoMemory>
    ensures { IfOk result (λ found. Gives (λ x. (x.0, x.1.now)) found (new_at bytes.now)) }
{
    let Some((next, rest)) = u64_at(bytes) else {
        return Ok(None);
    };
    let Some((dynamic, rest)) = bool_at(rest) else {
        return Ok(None);
    };
    let Some((bodies, rest)) = bodies_at(alloc, rest)? else {
        return Ok(None);
    };
    let Some((rows, rest)) = rows_at(alloc, rest)? else {
        return Ok(None);
    };
    let it = RecordText {
        old: false,
        next,
        dynamic,
        bodies,
        rows,
    };
    Ok(Some((it, rest)))
}
