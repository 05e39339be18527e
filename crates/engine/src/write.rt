//! Writes.

ghost use Rattle.std.specs.Prelude.{◌≡◌, ◌≤◌, ◌+◌, [], Option, Some, None, true, is_some, option_map, unwrap_or, IfOk, IfSome};
ghost use Rattle.flattener.specs.Block.{BlockState};
ghost use Rattle.index_core.specs.Kept.{IndexFits, block_number, layout_kept, live_block};
ghost use Rattle.index_core.specs.Write.{IsNext};
ghost use Rattle.commit_store.specs.Saying.{HasSource};
ghost use Rattle.layout_ids.specs.Items.{AllItems};
ghost use Rattle.machine.specs.Answer.{outcome_of};
ghost use Rattle.machine.specs.State.{State};
ghost use Rattle.machine.specs.Write.{added_body, live_number, put_result, put_source, write_step};
ghost use Rattle.machine.specs.declared.limits.Limits.{Limits};
ghost use Rattle.request_form.specs.Command.{update as updates};
ghost use Rattle.request_form.specs.Formed.{HasSources, IsFormed, IsSourceValue};
ghost use Rattle.request_form.specs.Seen.{changes_view, operation_view, write_view};
ghost use Rattle.segment.specs.Agree.{IsId};
ghost use Rattle.tree_json.specs.Output.{room_of};
ghost use Rattle.tree_json.specs.Value.{JsonValue};
ghost use Rattle.tree_json.specs.View.{view};
ghost use Rattle.tree_objects.specs.Tree.{Tree};
ghost use Rattle.write_plan.specs.Update.{IsTextOf, IsUpdated};
ghost use Rattle.index_trees.specs.Faithful.{AreFaithful};
ghost use Rattle.engine.specs.Kept.{IsIndexOf};
ghost use Rattle.engine.specs.Parts.{Ends, Grows, IsChanged, Leaves, answered_of, delete_step, mapping_put, update_step};
ghost use Rattle.engine.specs.Reads.{reads_of};

use crate::change::change;
use crate::no_memory::NoMemory;
use crate::reply::{Ended, accept, refuse, write};
use flattener::further_bodies_leave_blocks;
use index_core::{IndexCore, WriteOp};
use mapping::Mapping;
use reply_text::{Reply, WriteResult};
use request_form::{Changes, Operation, Target, Write};
use source_steps::Steps;
use std::alloc::Global;
use std::sync::ledger::Ledger;
use tree_json::{Json, JsonText, OutText};
use tree_objects::Bytes;
use write_plan::{Plan, PlanRefusal, early_refusal, planned, put_anew, updated};

/// Answers a write.
pub(crate) fn write_tree<L: Ledger>(
    alloc: Global,
    mapping: &mut Mapping,
    index: &mut IndexCore,
    it: Write,
    out: &mut OutText,
    steps: &mut Steps<L>,
) -> Result<Ended, NoMemory>
    requires index { IsIndexOf mapping.old index.old }
    requires formed { IsFormed (write_view it) }
    requires empty { out.old.bytes ≡ [] }
    ensures answers { (limits : Limits) (state : State) → index.old.objects ≡ limits.objects → AreFaithful (Some mapping.old) index.old state
        → Ends state (outcome_of state (write_step limits mapping.old (write_view it) state)) (answered_of result) out.new.bytes (Some mapping.new) index.new }
    ensures leaves { Leaves (answered_of result) (Some mapping.old) (Some mapping.new) mapping.new index.old index.new }
    ensures grows { Grows mapping.old mapping.new }
    ensures reads { steps.new ≤ steps.old + reads_of (operation_view it.operation) }
    ensures room { room_of out.old ≤ room_of out.new }
{
    let live = index.live(it.target.id.as_slice());
    if let Some(why) = early_refusal(mapping, &it, live) {
        return refuse(why, out);
    }
    let Write { target, operation } = it;
    let Target { id, .. } = target;
    match operation {
        Operation::Index(source) => put(alloc, mapping, index, id, &source, live, out),
        Operation::Create(source) => put(alloc, mapping, index, id, &source, live, out),
        Operation::Update(changes) => update(alloc, mapping, index, id, changes, live, out, steps),
        Operation::Delete => delete(alloc, mapping, index, id, live, out),
    }
}

/// Puts a source under an id, in place of the live tree of this number, if there is one.
#[tactic(auto, using(crate::proofs::Answering::lacking, crate::proofs::Answering::left))]
fn put(
    alloc: Global,
    mapping: &mut Mapping,
    index: &mut IndexCore,
    id: JsonText,
    source: &Json,
    live: Option<u64>,
    out: &mut OutText,
) -> Result<Ended, NoMemory>
    requires index { IsIndexOf mapping.old index.old }
    requires id { IsId id }
    requires source { IsSourceValue (view source.now) }
    requires live { live ≡ option_map block_number (live_block id index.old) }
    requires empty { out.old.bytes ≡ [] }
    ensures answers { (limits : Limits) (state : State) (tree : Option Tree) → index.old.objects ≡ limits.objects → AreFaithful (Some mapping.old) index.old state → live_number tree ≡ live
        → Ends state (outcome_of state (put_source limits mapping.old id (view source.now) (added_body mapping.old (view source.now)) tree state)) (answered_of result) out.new.bytes (Some mapping.new) index.new }
    ensures leaves { Leaves (answered_of result) (Some mapping.old) (Some mapping.new) mapping.new index.old index.new }
    ensures grows { Grows mapping.old mapping.new }
    ensures room { room_of out.old ≤ room_of out.new }
{
    further_bodies_leave_blocks();
    let _scopes = mapping.scope_count();
    match planned(alloc, mapping, id.as_slice(), source, index.next()) {
        Ok(plan) => {
            write(&written(id, index.next(), put_result(live)), out)?;
            put_planned(mapping, index, plan, out)
        }
        Err(PlanRefusal::Refused(why)) => refuse(why, out),
        Err(PlanRefusal::NoMemory) => Err(NoMemory),
    }
}

/// What becomes of the tree with an id when one is put.
fn put_result(live: Option<u64>) -> WriteResult
    ensures { (tree : Option Tree) → live_number tree ≡ live → result ≡ put_result tree }
{
    match live {
        Some(_) => WriteResult::Updated,
        None => WriteResult::Created,
    }
}

/// Puts a block that is planned, whose reply stands in `out`. The mapping grows with it.
fn put_planned(
    mapping: &mut Mapping,
    index: &mut IndexCore,
    plan: Plan,
    out: &mut OutText,
) -> Result<Ended, NoMemory>
    requires fits { IndexFits (unwrap_or plan.grown mapping.old) index.old }
    requires next { IsNext (unwrap_or plan.grown mapping.old) index.old.next (WriteOp.Put plan.block) }
    ensures changed { IsChanged result (WriteOp.Put plan.block) index.old index.new out.old.bytes out.new.bytes }
    ensures mapping { mapping.new ≡ mapping_put result mapping.old plan.grown }
    ensures fits { IndexFits (unwrap_or plan.grown mapping.old) index.new }
    ensures objects { index.new.objects ≡ index.old.objects }
    ensures room { room_of out.old ≤ room_of out.new }
{
    let Plan { grown, block } = plan;
    match grown {
        None => change(mapping, index, WriteOp::Put(block), out),
        Some(grown) => match change(&grown, index, WriteOp::Put(block), out)? {
            Ended::Accepted => {
                *mapping = grown;
                Ok(Ended::Accepted)
            }
            Ended::Refused => Ok(Ended::Refused),
        },
    }
}

/// Changes the live source by an update, or puts what it says where no tree is live.
fn update<L: Ledger>(
    alloc: Global,
    mapping: &mut Mapping,
    index: &mut IndexCore,
    id: JsonText,
    changes: Changes,
    live: Option<u64>,
    out: &mut OutText,
    steps: &mut Steps<L>,
) -> Result<Ended, NoMemory>
    requires index { IsIndexOf mapping.old index.old }
    requires id { IsId id }
    requires sources { HasSources (updates (changes_view changes)) }
    requires live { live ≡ option_map block_number (live_block id index.old) }
    requires empty { out.old.bytes ≡ [] }
    ensures answers { (limits : Limits) (state : State) → index.old.objects ≡ limits.objects → AreFaithful (Some mapping.old) index.old state
        → Ends state (outcome_of state (update_step limits mapping.old id (changes_view changes) state)) (answered_of result) out.new.bytes (Some mapping.new) index.new }
    ensures leaves { Leaves (answered_of result) (Some mapping.old) (Some mapping.new) mapping.new index.old index.new }
    ensures grows { Grows mapping.old mapping.new }
    ensures reads { steps.new ≤ steps.old + 1 }
    ensures room { room_of out.old ≤ room_of out.new }
{
    match live {
        None => put(alloc, mapping, index, id, &put_anew(changes), live, out),
        Some(number) => {
            let Changes { doc, .. } = changes;
            match updated_live(alloc, index, id.as_slice(), doc, steps)? {
                Some(source) => put(alloc, mapping, index, id, &source, live, out),
                None => accept(&written(id, number, WriteResult::Noop), out),
            }
        }
    }
}

/// What an update makes of the source of the live block with an id, or `None` where it leaves that as it is.
fn updated_live<L: Ledger>(
    alloc: Global,
    index: &IndexCore,
    id: &[u8],
    doc: Json,
    steps: &mut Steps<L>,
) -> Result<Option<Json>, NoMemory>
    requires values { AllItems HasSource (layout_kept index.now) }
    requires live { is_some (live_block id.now index.now) ≡ true }
    requires doc { IsSourceValue (view doc) }
    ensures updated { (block : BlockState) (live : JsonValue) → live_block id.now index.now ≡ Some block → IsTextOf block.root.source live → IfOk result (IsUpdated (view doc) live) }
    ensures source { IfOk result (λ source. IfSome source (λ v. IsSourceValue (view v))) }
    ensures reads { steps.new ≤ steps.old + 1 }
{
    let mut text = Vec::new(alloc);
    let _live = index.source(id, &mut text, steps)?;
    Ok(updated(alloc, doc, text.as_slice())?)
}

/// Takes the live tree with an id out, if there is one.
#[tactic(auto, using(crate::proofs::Answering::left))]
fn delete(
    alloc: Global,
    mapping: &Mapping,
    index: &mut IndexCore,
    id: JsonText,
    live: Option<u64>,
    out: &mut OutText,
) -> Result<Ended, NoMemory>
    requires index { IsIndexOf mapping.now index.old }
    requires live { live ≡ option_map block_number (live_block id index.old) }
    requires empty { out.old.bytes ≡ [] }
    ensures answers { (limits : Limits) (state : State) → index.old.objects ≡ limits.objects → AreFaithful (Some mapping.now) index.old state
        → Ends state (outcome_of state (delete_step limits mapping.now id state)) (answered_of result) out.new.bytes (Some mapping.now) index.new }
    ensures leaves { Leaves (answered_of result) (Some mapping.now) (Some mapping.now) mapping.now index.old index.new }
    ensures room { room_of out.old ≤ room_of out.new }
{
    match live {
        None => {
            let id = Bytes::of(id.into_vec());
            accept(&Reply::NotFound { id }, out)
        }
        Some(_) => {
            let taken = segment::Bytes::of(id.as_slice().to_vec(alloc)?);
            write(&written(id, index.next(), WriteResult::Deleted), out)?;
            change(mapping, index, WriteOp::Take(taken), out)
        }
    }
}

/// The reply to a write.
fn written(id: JsonText, number: u64, what: WriteResult) -> Reply
    ensures { result ≡ Reply.Written id number what }
{
    Reply::Written {
        id: Bytes::of(id.into_vec()),
        number,
        result: what,
    }
}
