//! What is put: the block of a source, and the mapping that the source makes grow.
ghost use Rattle.std.specs.Prelude.{◌≡◌, ◌≤◌, ◌<◌, ◌^◌, ◌++◌, ◌∷◌, [], ℕ, true, length, nat_lt, Option, Some, None, IfOk, IfErr, IsErrOf, IsOk, OnOk, unwrap_or};
ghost use Rattle.request_form.specs.Formed.{IsSourceValue};
ghost use Rattle.tree_json.specs.Levels.{levels, most_levels};
ghost use Rattle.tree_json.specs.Text.{compact};
ghost use Rattle.tree_json.specs.Value.{is_object};
ghost use Rattle.tree_json.specs.View.{view};
ghost use Rattle.mapping_body.specs.Body.{is_body};
ghost use Rattle.mapping_growth.specs.Bodies.{adds, conflict_of, exceeded};
ghost use Rattle.mapping.specs.IsMapping.{IsMapping};
ghost use Rattle.mapping.specs.Mapping.{mapping_of};
ghost use Rattle.segment.specs.Agree.{IsId};
ghost use Rattle.flattener.specs.Block.{block_of};
ghost use Rattle.flattener.specs.Fits.{BlockFits, IsGiven, most_source};
ghost use Rattle.flattener.specs.Seen.{block_seen};
ghost use Rattle.flattener.specs.declared.refusal.FlattenRefusal.{FlattenRefusal};
ghost use Rattle.reply_text.specs.declared.refusal.Refusal.{Refusal};
ghost use Rattle.machine.specs.Answer.{first_of};
ghost use Rattle.machine.specs.MappingLine.{limit_refusal};
ghost use Rattle.machine.specs.Write.{added_body, grown_by, growth_refusal, new_tree, path_of, refusal_flattened, source_refusal, source_refusals};
ghost use Rattle.write_plan.specs.Planned.{IsGrownFrom, IsPlanned, mapping_after, refusals_of};
ghost use Rattle.write_plan.specs.Update.{IsTextOf};

use crate::refusal::{PlanRefusal, limit_named};
use flattener::{Block, FlattenRefusal, LONGEST_SOURCE, block};
use mapping::{Bytes, Growth, Mapping, MappingRefusal, NoMemory, further_bodies_stand_behind};
use reply_text::Refusal;
use source_growth::{growth_is_taken, seen};
use std::alloc::Global;
use tree_json::{Json, compact_len};

/// A tree that may be put.
#[derive(Drop)]
pub struct Plan {
    /// The mapping that its source makes of the one before, where it adds to it.
    pub grown: Option<Mapping>,
    /// Its block, under the mapping that there is then.
    pub block: Block,
}

/// What is put by a source under an id and a sequence number, or the first of the source's refusals. That it is too long comes
/// before all others: a source is measured where it was refused, and only there.
#[tactic(auto, using(crate::proofs::Refusals::firsts))]
pub fn planned(
    alloc: Global,
    mapping: &Mapping,
    id: &[u8],
    source: &Json,
    number: u64,
) -> Result<Plan, PlanRefusal>
    requires id { IsId id.now }
    requires source { IsSourceValue (view source.now) }
    requires number { number ≤ 2 ^ 62 }
    ensures planned { IfOk result (IsPlanned mapping.now id.now (view source.now) number) }
    ensures accepted { IsOk result → first_of (refusals_of mapping.now id.now (view source.now) number) ≡ None }
    ensures refused { (why : Refusal) → IsErrOf result (PlanRefusal.Refused why) → first_of (refusals_of mapping.now id.now (view source.now) number) ≡ Some why }
{
    match plan_of(alloc, mapping, id, source, number) {
        Ok(plan) => Ok(plan),
        Err(why) => {
            if compact_len(source) > LONGEST_SOURCE {
                return Err(PlanRefusal::Refused(Refusal::SourceTooLong));
            }
            Err(why)
        }
    }
}

/// What is put by a source, or a refusal: the first where the source is short enough.
#[tactic(auto, using(crate::proofs::Refusals::firsts))]
fn plan_of(
    alloc: Global,
    mapping: &Mapping,
    id: &[u8],
    source: &Json,
    number: u64,
) -> Result<Plan, PlanRefusal>
    requires id { IsId id.now }
    requires source { IsSourceValue (view source.now) }
    requires number { number ≤ 2 ^ 62 }
    ensures planned { IfOk result (IsPlanned mapping.now id.now (view source.now) number) }
    ensures accepted { IsOk result → first_of (refusals_of mapping.now id.now (view source.now) number) ≡ None }
    ensures refused { (why : Refusal) → length (compact (view source.now)) ≤ most_source → IsErrOf result (PlanRefusal.Refused why) → first_of (refusals_of mapping.now id.now (view source.now) number) ≡ Some why }
{
    let grown = grown(alloc, mapping, source)?;
    let block = block_under(alloc, later(mapping, &grown), id, source, number)?;
    Ok(Plan { grown, block })
}

/// The mapping that there is after it has grown, or has not.
fn later<'a>(mapping: &'a Mapping, grown: &'a Option<Mapping>) -> &'a Mapping
    ensures { result.now ≡ unwrap_or grown.now mapping.now }
{
    match grown {
        Some(grown) => grown,
        None => mapping,
    }
}

/// The mapping with what a source adds to it, or `None` where it adds nothing.
#[tactic(auto, using(crate::proofs::Planning::growths))]
fn grown(alloc: Global, mapping: &Mapping, source: &Json) -> Result<Option<Mapping>, PlanRefusal>
    ensures mapping { IfOk result (λ grown. unwrap_or grown mapping.now ≡ mapping_after mapping.now (view source.now)) }
    ensures later { IsOk result → IsGrownFrom mapping.now (mapping_after mapping.now (view source.now)) }
    ensures accepted { IsOk result → growth_refusal mapping.now (added_body mapping.now (view source.now)) ≡ None }
    ensures refused { (why : Refusal) → IsErrOf result (PlanRefusal.Refused why) → growth_refusal mapping.now (added_body mapping.now (view source.now)) ≡ Some why }
{
    further_bodies_stand_behind();
    let (_scopes, _generation) = (mapping.scope_count(), mapping.generation());
    if !mapping.dynamic() {
        return Ok(None);
    }
    match seen(alloc, mapping, source)? {
        None => Ok(None),
        Some(body) => {
            growth_is_taken();
            Ok(Some(with_body(alloc, mapping, &body)?))
        }
    }
}

/// The mapping with a body that it takes.
fn with_body(alloc: Global, mapping: &Mapping, body: &Json) -> Result<Mapping, PlanRefusal>
    requires form { is_body (view body.now) ≡ true }
    requires agrees { conflict_of mapping.now.bodies (view body.now) ≡ None }
    requires adds { adds mapping.now.bodies (view body.now) ≡ true }
    ensures mapping { IfOk result (λ grown. grown ≡ mapping_of (mapping.now.bodies ++ view body.now ∷ []) mapping.now.dynamic) }
    ensures is_mapping { IsOk result → IsMapping (mapping_of (mapping.now.bodies ++ view body.now ∷ []) mapping.now.dynamic) }
    ensures accepted { IsOk result → exceeded (mapping.now.bodies ++ view body.now ∷ []) ≡ None }
    ensures refused { (why : Refusal) → IsErrOf result (PlanRefusal.Refused why) → limit_refusal (exceeded (mapping.now.bodies ++ view body.now ∷ [])) ≡ Some why }
{
    match mapping.grown(alloc, body) {
        Ok(Growth::Added(grown)) => {
            let _scopes = grown.scope_count();
            Ok(grown)
        }
        Ok(Growth::Same) => unreachable!(),
        Err(MappingRefusal::TooMuch(limit)) => {
            let limit = limit_named(limit);
            Err(PlanRefusal::Refused(Refusal::MappingLimit { limit }))
        }
        Err(MappingRefusal::NoMemory) => Err(PlanRefusal::NoMemory),
        Err(MappingRefusal::BadRequest) => unreachable!(),
        Err(MappingRefusal::Conflict(_path)) => unreachable!(),
    }
}

/// The block of a source under the last generation of a mapping.
#[tactic(auto, using(crate::proofs::Planning::blocks))]
fn block_under(
    alloc: Global,
    mapping: &Mapping,
    id: &[u8],
    source: &Json,
    number: u64,
) -> Result<Block, PlanRefusal>
    requires id { IsId id.now }
    requires object { is_object (view source.now) ≡ true }
    requires levels { levels (view source.now) ≤ most_levels }
    requires number { number ≤ 2 ^ 62 }
    ensures given { IsOk result → IsGiven mapping.now (new_tree id.now (view source.now) mapping.now number) }
    ensures block { IfOk result (λ b. block_seen b ≡ block_of mapping.now (new_tree id.now (view source.now) mapping.now number)) }
    ensures fits { IfOk result (λ b. BlockFits mapping.now (block_seen b)) }
    ensures text { IfOk result (λ b. IsTextOf b.root.source (view source.now)) }
    ensures accepted { IsOk result → source_refusal mapping.now (new_tree id.now (view source.now) mapping.now number) ≡ None }
    ensures refused { (why : Refusal) → length (compact (view source.now)) ≤ most_source → IsErrOf result (PlanRefusal.Refused why) → source_refusal mapping.now (new_tree id.now (view source.now) mapping.now number) ≡ Some why }
{
    match block(alloc, mapping, mapping.generation(), source, id, number) {
        Ok(block) => Ok(block),
        Err(why) => Err(refusal_of(alloc, mapping, why)),
    }
}

/// Why a source has no block, as a reply says it.
fn refusal_of(alloc: Global, mapping: &Mapping, why: FlattenRefusal) -> PlanRefusal
    ensures { (named : Refusal) → result ≡ PlanRefusal.Refused named → refusal_flattened mapping.now why ≡ Some named }
{
    match why {
        FlattenRefusal::SourceTooLong => PlanRefusal::Refused(Refusal::SourceTooLong),
        FlattenRefusal::WrongType(field) => match path_of(alloc, mapping, field) {
            Ok(field) => PlanRefusal::Refused(Refusal::WrongType { field }),
            Err(NoMemory) => PlanRefusal::NoMemory,
        },
        FlattenRefusal::TermTooLong(field) => match path_of(alloc, mapping, field) {
            Ok(field) => PlanRefusal::Refused(Refusal::TermTooLong { field }),
            Err(NoMemory) => PlanRefusal::NoMemory,
        },
        FlattenRefusal::BadJoin => PlanRefusal::Refused(Refusal::BadJoin),
        FlattenRefusal::TooManyObjects => PlanRefusal::Refused(Refusal::TooManyObjects),
        FlattenRefusal::NoMemory => PlanRefusal::NoMemory,
    }
}

/// The path of a field, or the empty path where there is none of that number.
fn path_of(alloc: Global, mapping: &Mapping, field: u32) -> Result<Bytes, NoMemory>
    ensures { IfOk result (λ path. path ≡ path_of mapping.now field) }
{
    if field < mapping.field_count() {
        Ok(Bytes::of(mapping.path(field).to_vec(alloc)?))
    } else {
        Ok(Bytes::of(Vec::new(alloc)))
    }
}
