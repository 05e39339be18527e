//! What is wrong with a source.
ghost use Rattle.std.specs.Prelude.{◌≡◌, ℕ, List, ◌<◌, ◌≤◌, ◌||◌, nat_lt, length, map, codes, IfOk, IsTrue, Some, None, Option, option_map, option_and_then, if◌then◌else◌};
ghost use Rattle.std.specs.List.{list_any};
ghost use Rattle.analysis.specs.Words.{words};
ghost use Rattle.tree_json.specs.Value.{list, object, members_of, elements_of};
ghost use Rattle.tree_json.specs.View.{view, values, entries};
ghost use Rattle.tree_objects.specs.Fault.{first_fault, fault_among, fault_at, fault_in, fault_single, fault_converted, holds_objects, is_long_term};
ghost use Rattle.tree_objects.specs.declared.field_value.FieldValue.{FieldValue};
ghost use Rattle.mapping.specs.Mapping.{Mapping as Meaning, field_at, field_below, kind_at};
ghost use Rattle.mapping_body.specs.Names.{joined};
ghost use Rattle.tree_objects.specs.Values.{text_of};

use crate::convert::{boolean_of, date_of, long_of};
use crate::join::fault_of_join;
use crate::near::field_near;
use analysis::{Token, has_short_tokens, tokens};
use itoa::Buffer;
use mapping::{Kind, Mapping, NoMemory};
use std::alloc::Global;
use tree_json::{Json, JsonText};

const MOST_TERM_BYTES: u64 = 32_766;

/// The first fault of a source, with the number of the field where it stands.
#[derive(Clone, Copy, Debug, PartialEq, Eq)]
pub enum Fault {
    /// A value that its field's kind doesn't take.
    WrongType(u32),
    /// A keyword value or a folded token of a text of more than 32,766 bytes.
    TermTooLong(u32),
    /// A value of the join field that names no relation.
    BadJoin,
}

/// The first fault of a source under a generation of a mapping: names are walked in byte order, lists in order, depth first. Names that
/// the mapping doesn't have are passed over. A source that is no object has no fault.
#[tactic(auto, unfolding(crate::specs::Fault::first_fault))]
pub fn first_fault(
    alloc: Global,
    mapping: &Mapping,
    generation: u32,
    source: &Json,
) -> Result<Option<Fault>, NoMemory>
    ensures { IfOk result (λ fault. fault ≡ first_fault mapping.now generation (view source.now)) }
{
    match source {
        Json::Object(object) => {
            fault_among(alloc, mapping, generation, b"", 0, object.as_slice())
        }
        _ => Ok(None),
    }
}

/// The first fault of members below a path. `first` is most often the number of the first one's field.
#[cycle(faults)]
#[tactic(auto, using(crate::proofs::Sizes::sizes))]
fn fault_among(
    alloc: Global,
    mapping: &Mapping,
    generation: u32,
    path: &[u8],
    first: u32,
    members: &[(JsonText, Json)],
) -> Result<Option<Fault>, NoMemory>
    ensures { IfOk result (λ fault. fault ≡ fault_among mapping.now generation path.now (members_of (entries members.now))) }
{
    let mut near = first;
    'members: for (name, value) in members {
        if let Some(fault) = fault_below(
            alloc,
            mapping,
            generation,
            path,
            name.as_slice(),
            &mut near,
            value,
        )? {
            return Ok(Some(fault));
        }
    }
    Ok(None)
}

/// The first fault of a value under a name, if the name has a field below the path: most often that at `near`, which
/// becomes the next one.
#[cycle(faults)]
#[tactic(auto, using(crate::proofs::Sizes::sizes))]
fn fault_below(
    alloc: Global,
    mapping: &Mapping,
    generation: u32,
    path: &[u8],
    name: &[u8],
    near: &mut u32,
    value: &Json,
) -> Result<Option<Fault>, NoMemory>
    ensures { IfOk result (λ fault. fault ≡ option_and_then (λ f. fault_at mapping.now generation (joined path.now name.now) f (kind_at mapping.now f) (view value.now)) (field_below mapping.now generation path.now name.now)) }
{
    match field_near(mapping, generation, path, name, *near) {
        Some(field) => {
            *near = field.saturating_add(1);
            if is_plainly_of(mapping.kind(field), value) {
                return Ok(None);
            }
            fault_at(alloc, mapping, generation, field, value)
        }
        None => Ok(None),
    }
}

/// Whether a value is seen to have no fault at a glance, as most are: a short text or a whole number, where the kind takes it.
#[tactic(auto, unfolding(crate::specs::Values::convert))]
fn is_plainly_of(kind: Kind, value: &Json) -> bool
    ensures { (m : Meaning) (g f : ℕ) (path : List ℕ) → IsTrue result → fault_at m g path f kind (view value.now) ≡ None }
{
    match value {
        Json::Text(text) => match kind {
            Kind::Text => has_short_tokens(text.as_str(), MOST_TERM_BYTES),
            Kind::Keyword => !is_long_term(text.as_slice()),
            _ => false,
        },
        Json::Whole(_) => match kind {
            Kind::Long => true,
            _ => false,
        },
        _ => false,
    }
}

#[cycle(faults)]
#[tactic(auto, using(crate::proofs::Sizes::sizes))]
fn fault_at(
    alloc: Global,
    mapping: &Mapping,
    generation: u32,
    field: u32,
    value: &Json,
) -> Result<Option<Fault>, NoMemory>
    requires { field < length mapping.now.fields }
    ensures { IfOk result (λ fault. fault ≡ fault_at mapping.now generation (field_at mapping.now field).path field (kind_at mapping.now field) (view value.now)) }
{
    match value {
        Json::Null => Ok(None),
        Json::List(list) => fault_of_list(alloc, mapping, generation, field, list.as_slice()),
        Json::Object(object) => {
            if !holds_objects(mapping.kind(field)) {
                if let Some(fault) = fault_single(alloc, mapping, generation, field, value)? {
                    return Ok(Some(fault));
                }
            }
            fault_among(
                alloc,
                mapping,
                generation,
                mapping.path(field),
                field.saturating_add(1),
                object.as_slice(),
            )
        }
        _ => fault_single(alloc, mapping, generation, field, value),
    }
}

/// A list stands for its elements, but for a join.
#[cycle(faults)]
#[tactic(auto, using(crate::proofs::Sizes::sizes))]
fn fault_of_list(
    alloc: Global,
    mapping: &Mapping,
    generation: u32,
    field: u32,
    elements: &[Json],
) -> Result<Option<Fault>, NoMemory>
    requires { field < length mapping.now.fields }
    ensures { IfOk result (λ fault. fault ≡ fault_at mapping.now generation (field_at mapping.now field).path field (kind_at mapping.now field) (list (elements_of (values elements.now)))) }
{
    match mapping.kind(field) {
        Kind::Join => Ok(Some(Fault::BadJoin)),
        _ => fault_in(alloc, mapping, generation, field, elements),
    }
}

#[cycle(faults)]
#[tactic(auto, using(crate::proofs::Sizes::sizes))]
fn fault_in(
    alloc: Global,
    mapping: &Mapping,
    generation: u32,
    field: u32,
    elements: &[Json],
) -> Result<Option<Fault>, NoMemory>
    requires { field < length mapping.now.fields }
    ensures { IfOk result (λ fault. fault ≡ fault_in mapping.now generation (field_at mapping.now field).path field (kind_at mapping.now field) (elements_of (values elements.now))) }
{
    'elements: for element in elements {
        if let Some(fault) = fault_at(alloc, mapping, generation, field, element)? {
            return Ok(Some(fault));
        }
    }
    Ok(None)
}

/// Whether the values of a field of this kind are objects.
fn holds_objects(kind: Kind) -> bool
    ensures { result ≡ holds_objects kind }
{
    match kind {
        Kind::Object => true,
        Kind::Nested => true,
        _ => false,
    }
}

/// The fault of a value that is neither a list nor null.
#[tactic(auto, unfolding(crate::specs::Values::convert))]
fn fault_single(
    alloc: Global,
    mapping: &Mapping,
    generation: u32,
    field: u32,
    value: &Json,
) -> Result<Option<Fault>, NoMemory>
    requires { field < length mapping.now.fields }
    ensures { IfOk result (λ fault. fault ≡ fault_single mapping.now generation field (kind_at mapping.now field) (view value.now)) }
{
    match mapping.kind(field) {
        Kind::Text => fault_of_text(alloc, field, value),
        Kind::Keyword => Ok(fault_of_keyword(field, value)),
        Kind::Long => Ok(fault_of_number(field, long_of(value))),
        Kind::Boolean => Ok(fault_of_number(field, boolean_of(value))),
        Kind::Date => Ok(fault_of_number(field, date_of(value))),
        Kind::Join => Ok(fault_of_join(mapping, generation, value)),
        _ => Ok(Some(Fault::WrongType(field))),
    }
}

/// The fault of a field whose value is a number, if it is one.
fn fault_of_number(field: u32, number: Option<i64>) -> Option<Fault>
    ensures { result ≡ fault_converted field Kind.Long (option_map (λ z. FieldValue.Number z) number) }
{
    match number {
        Some(_) => None,
        None => Some(Fault::WrongType(field)),
    }
}

fn fault_of_keyword(field: u32, value: &Json) -> Option<Fault>
    ensures { result ≡ fault_converted field Kind.Keyword (text_of (view value.now)) }
{
    match value {
        Json::Text(text) => fault_of_term(field, text.as_slice()),
        Json::Whole(number) => fault_of_term(field, Buffer::new().format(*number).as_bytes()),
        Json::Bool(true) => fault_of_term(field, b"true"),
        Json::Bool(false) => fault_of_term(field, b"false"),
        _ => Some(Fault::WrongType(field)),
    }
}

fn fault_of_term(field: u32, term: &[u8]) -> Option<Fault>
    ensures { result ≡ (if is_long_term term.now then Some (Fault.TermTooLong field) else None) }
{
    if is_long_term(term) {
        Some(Fault::TermTooLong(field))
    } else {
        None
    }
}

fn fault_of_text(alloc: Global, field: u32, value: &Json) -> Result<Option<Fault>, NoMemory>
    ensures { IfOk result (λ fault. fault ≡ fault_converted field Kind.Text (text_of (view value.now))) }
{
    match value {
        Json::Text(text) => fault_of_words(alloc, field, text.as_str()),
        Json::Whole(number) => fault_of_words(alloc, field, Buffer::new().format(*number)),
        Json::Bool(true) => fault_of_words(alloc, field, "true"),
        Json::Bool(false) => fault_of_words(alloc, field, "false"),
        _ => Ok(Some(Fault::WrongType(field))),
    }
}

#[tactic(auto, using(crate::proofs::Terms::short))]
fn fault_of_words(alloc: Global, field: u32, text: &str) -> Result<Option<Fault>, NoMemory>
    ensures { IfOk result (λ fault. fault ≡ (if list_any is_long_term (words text.now) then Some (Fault.TermTooLong field) else None)) }
{
    if has_short_tokens(text, MOST_TERM_BYTES) {
        return Ok(None);
    }
    match tokens(alloc, text) {
        Ok(tokens) => Ok(fault_of_tokens(field, tokens.as_slice())),
        Err(_) => Err(NoMemory),
    }
}

#[tactic(auto, using(crate::proofs::Terms::terms))]
fn fault_of_tokens(field: u32, tokens: &[Token]) -> Option<Fault>
    ensures { result ≡ (if list_any is_long_term (map (λ t. t.folded) tokens.now) then Some (Fault.TermTooLong field) else None) }
{
    if has_long_term(tokens) {
        Some(Fault::TermTooLong(field))
    } else {
        None
    }
}

fn has_long_term(tokens: &[Token]) -> bool
    ensures { result ≡ list_any (λ t. is_long_term t.folded) tokens.now }
{
    tokens
        .iter()
        .any(|token| is_long_term(token.folded.as_slice()))
}

/// Whether a keyword's value or a text's token is longer than a term may be.
fn is_long_term(term: &[u8]) -> bool
    ensures { result ≡ is_long_term term.now }
{
    term.len() as u64 > MOST_TERM_BYTES
}
