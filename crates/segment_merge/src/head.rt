//! The first part of a merged segment, written: the number of its documents, and the documents of each scope.

ghost use Rattle.std.specs.Prelude.{◌≡◌, ◌<◌, ◌^◌, ◌+◌, ◌++◌, Bool, List, false, length, slice_index_or, IfOk, OnOk};
ghost use Rattle.std.specs.List.{All, position_or_len};
ghost use Rattle.segment_parts.specs.Text.{head_text};
ghost use Rattle.segment_merge.specs.Merged.{live_count, live_scopes_in};
ghost use Rattle.segment_merge.specs.Numbering.{live_in};
ghost use Rattle.segment_merge.specs.Scoped.{AreScopesOf, scopes_in};

use crate::NoMemory;
use crate::numbering::Part;
use block_bits::BitSet;
use segment::scopes_are_of_documents;
use segment_builder::scope_sets;
use segment_parts::put_head_of;
use std::alloc::Global;

/// Appends the number of the parts' live documents, and the documents of each scope, and gives that number.
pub(crate) fn put_head(alloc: Global, parts: &[Part], into: &mut Vec<u8>) -> Result<u32, NoMemory>
    requires { live_in parts.now < 2 ^ 32 }
    ensures count { IfOk result (λ documents. documents ≡ live_in parts.now) }
    ensures head { IfOk result (λ documents. (scopes : List (List Bool)) × AreScopesOf (scopes_in parts.now) scopes × (into.new.items ≡ into.old.items ++ head_text documents scopes)) }
{
    let scopes = scopes_of(alloc, parts)?;
    let documents = scopes.len() as u32;
    let sets = scope_sets(alloc, scopes.as_slice())?;
    put_head_of(documents, sets.as_slice(), into)?;
    Ok(documents)
}

/// The scopes of the parts' live documents, one part behind the other.
fn scopes_of(alloc: Global, parts: &[Part]) -> Result<Vec<u32>, NoMemory>
    ensures scopes { IfOk result (λ scopes. scopes.items ≡ scopes_in parts.now) }
    ensures below { IfOk result (λ scopes. All (λ scope. scope + 1 < 2 ^ 32) scopes.items) }
    ensures count { IfOk result (λ scopes. length scopes.items ≡ live_in parts.now) }
{
    let mut scopes = Vec::new(alloc);
    'parts: for part in parts {
        add_scopes(part, &mut scopes)?;
    }
    Ok(scopes)
}

/// Adds the scopes of a part's live documents.
fn add_scopes(part: &Part, into: &mut Vec<u32>) -> Result<(), NoMemory>
    requires { All (λ scope. scope + 1 < 2 ^ 32) into.old.items }
    ensures scopes { OnOk result (into.new.items ≡ into.old.items ++ live_scopes_in part.now.entry) }
    ensures below { OnOk result (All (λ scope. scope + 1 < 2 ^ 32) into.new.items) }
    ensures count { OnOk result (length into.new.items ≡ length into.old.items + live_count part.now.entry) }
{
    let segment = part.segment();
    scopes_are_of_documents(segment);
    let live = part.live_documents();
    'docs: for doc in 0..segment.docs() {
        if live.has(doc) {
            into.push(scope_of(segment.scopes().as_slice(), doc))?;
        }
    }
    Ok(())
}

/// The scope in whose set a document is.
fn scope_of(sets: &[BitSet], doc: u32) -> u32
    requires few { length sets.now < 2 ^ 32 }
    requires within { All (λ set. doc < length set) sets.now }
    ensures { result ≡ position_or_len (λ set. slice_index_or set doc false) sets.now }
{
    'sets: for at in 0..sets.len() {
        if sets[at].has(doc) {
            return at as u32;
        }
    }
    sets.len() as u32
}
