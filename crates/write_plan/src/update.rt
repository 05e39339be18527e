//! The source that an update puts.
ghost use Rattle.std.specs.Prelude.{◌≡◌, ◌≤◌, IfOk, IfSome, None};
ghost use Rattle.tree_json.specs.Levels.{levels, most_levels};
ghost use Rattle.tree_json.specs.Value.{JsonValue};
ghost use Rattle.tree_json.specs.View.{view};
ghost use Rattle.request_form.specs.Seen.{changes_view};
ghost use Rattle.machine.specs.Write.{updated_source};
ghost use Rattle.write_plan.specs.Update.{IsTextOf, IsUpdated};

use json_merge::{merged, merged_values_nest_no_deeper, same_values_are_equal};
use request_form::Changes;
use std::alloc::Global;
use tree_json::{Json, JsonRefusal, NoMemory, OutText, print, read, what_is_read_has_few_levels};

/// What an update puts where no tree is live: its `doc` if it says so or has no `upsert`, or else that.
pub fn put_anew(changes: Changes) -> Json
    ensures { view result ≡ updated_source (changes_view changes) None }
{
    let Changes {
        doc,
        upsert,
        doc_as_upsert,
    } = changes;
    if doc_as_upsert {
        return doc;
    }
    match upsert {
        Some(upsert) => upsert,
        None => doc,
    }
}

/// What an update makes of the live source by its `doc`, or `None` where it leaves that as it is. The live source is given
/// as its compact text; two values are the same where their compact texts are.
#[tactic(auto, using(crate::proofs::Updates::updates))]
pub fn updated(alloc: Global, doc: Json, text: &[u8]) -> Result<Option<Json>, NoMemory>
    requires doc { levels (view doc) ≤ most_levels }
    requires live { (live : JsonValue) × IsTextOf text.now live }
    ensures updated { (live : JsonValue) → IsTextOf text.now live → IfOk result (IsUpdated (view doc) live) }
    ensures levels { IfOk result (λ source. IfSome source (λ v. levels (view v) ≤ most_levels)) }
{
    let live = live_source(alloc, text)?;
    merged_values_nest_no_deeper();
    same_values_are_equal();
    let whole = merged(alloc, doc, live)?;
    let mut compact = OutText::empty(alloc);
    print(&whole, &mut compact)?;
    if compact.as_slice() == text {
        Ok(None)
    } else {
        Ok(Some(whole))
    }
}

/// The source that a compact text says.
#[tactic(auto, using(crate::proofs::Updates::one_value))]
fn live_source(alloc: Global, text: &[u8]) -> Result<Json, NoMemory>
    requires { (live : JsonValue) × IsTextOf text.now live }
    ensures value { (live : JsonValue) → IsTextOf text.now live → IfOk result (λ source. view source ≡ live) }
    ensures levels { IfOk result (λ source. levels (view source) ≤ most_levels) }
{
    what_is_read_has_few_levels();
    match read(alloc, text) {
        Ok(source) => Ok(source),
        Err(JsonRefusal::NoMemory) => Err(NoMemory),
        Err(JsonRefusal::BadJson) => unreachable!(),
        Err(JsonRefusal::FractionNumber) => unreachable!(),
    }
}
