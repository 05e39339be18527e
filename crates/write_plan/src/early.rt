//! What refuses a write before its source is looked at.
ghost use Rattle.std.specs.Prelude.{◌≡◌, option_map};
ghost use Rattle.request_form.specs.Seen.{operation_view, write_view};
ghost use Rattle.reply_text.specs.declared.refusal.Refusal.TheVariants as why;
ghost use Rattle.machine.specs.Answer.{first_of, when};
ghost use Rattle.machine.specs.Write.{conflict, early_refusals, exists_already, missing, wrong_index};

use mapping::Mapping;
use reply_text::Refusal;
use request_form::{Operation, Write};
use tree_json::JsonText;

/// The most bytes of an id.
const LONGEST_ID: usize = 512;

/// Why a write is refused before its source is looked at, by the number of the live tree with its id, if there is one.
/// It takes no memory.
#[tactic(auto, using(crate::proofs::Refusals::firsts))]
pub fn early_refusal(mapping: &Mapping, write: &Write, live: Option<u64>) -> Option<Refusal>
    ensures { result ≡ first_of (early_refusals mapping.now (write_view write.now) live) }
{
    if is_other_index(mapping, &write.target.index) {
        return Some(Refusal::IndexNotFound);
    }
    if write.target.id.as_slice().len() > LONGEST_ID {
        return Some(Refusal::IdTooLong);
    }
    if is_missing(&write.operation, live) {
        return Some(Refusal::DocumentMissing);
    }
    if has_other_number(write.target.if_seq_no, live) {
        return Some(Refusal::VersionConflict { live });
    }
    exists_already(&write.operation, live)
}

/// Whether another index than the mapping's is named.
fn is_other_index(mapping: &Mapping, index: &Option<JsonText>) -> bool
    ensures { wrong_index mapping.now index.now ≡ when result why.IndexNotFound }
{
    match index {
        None => false,
        Some(name) => name.as_slice() != mapping.index_name(),
    }
}

/// Whether an update has neither a live tree nor something to put in its place.
fn is_missing(operation: &Operation, live: Option<u64>) -> bool
    ensures { missing (operation_view operation.now) live ≡ when result why.DocumentMissing }
{
    match operation {
        Operation::Update(changes) => {
            live.is_none() && changes.upsert.is_none() && !changes.doc_as_upsert
        }
        _ => false,
    }
}

/// Whether a number is asked for that the live tree hasn't.
fn has_other_number(wanted: Option<u64>, live: Option<u64>) -> bool
    ensures { conflict wanted live ≡ when result (why.VersionConflict live) }
{
    match (wanted, live) {
        (None, _) => false,
        (Some(_), None) => true,
        (Some(wanted), Some(own)) => own != wanted,
    }
}

/// Why a tree isn't made where one is live.
fn exists_already(operation: &Operation, live: Option<u64>) -> Option<Refusal>
    ensures { result ≡ exists_already (operation_view operation.now) live }
{
    match (operation, live) {
        (Operation::Create(_), Some(live)) => Some(Refusal::DocumentExists { live }),
        _ => None,
    }
}
