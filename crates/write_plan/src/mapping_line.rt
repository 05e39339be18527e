//! Mapping lines: the first one, and those that add to a mapping.
ghost use Rattle.std.specs.Prelude.{◌≡◌, ◌∷◌, [], codes, false, Some, None, IfOk, IsErrOf, IsOk, option_map};
ghost use Rattle.tree_json.specs.View.{view};
ghost use Rattle.mapping.specs.Growth.{HasFurtherBodies};
ghost use Rattle.mapping_body.specs.Body.{member_named};
ghost use Rattle.reply_text.specs.declared.refusal.Refusal.{Refusal};
ghost use Rattle.machine.specs.Answer.{first_of};
ghost use Rattle.write_plan.specs.Refused.{body_refused};
ghost use Rattle.write_plan.specs.Settled.{settled};
ghost use Rattle.machine.specs.MappingLine.{first_mapping, first_refusals, flag_after, grown_mapping, growing_refusals, is_other_text};

use crate::refusal::{PlanRefusal, limit_named};
use mapping::{Growth, Mapping, MappingRefusal, further_bodies_stand_behind};
use mapping_body::member_named;
use reply_text::Refusal;
use std::alloc::Global;
use tree_json::Json;

/// The first mapping line: the mapping of its body, or the first of its refusals.
#[tactic(auto, using(crate::proofs::Refusals::firsts, crate::proofs::Refusals::first_accepted))]
pub fn first_mapping(alloc: Global, body: &Json) -> Result<Mapping, PlanRefusal>
    ensures mapping { IfOk result (λ m. m ≡ first_mapping (view body.now)) }
    ensures accepted { IsOk result → first_of (first_refusals (view body.now)) ≡ None }
    ensures refused { (why : Refusal) → IsErrOf result (PlanRefusal.Refused why) → first_of (first_refusals (view body.now)) ≡ Some why }
{
    match Mapping::read(alloc, body) {
        Ok(mut mapping) => {
            let _generation = mapping.generation();
            mapping.set_dynamic(flag_after(false, member_named(body, b"dynamic")));
            Ok(mapping)
        }
        Err(why) => Err(refusal_of(why)),
    }
}

/// What a further mapping line makes of a mapping.
#[derive(Drop)]
pub struct Further {
    /// The mapping with the line's body, where that adds something.
    pub added: Option<Mapping>,
    /// Whether sources add to it afterwards.
    pub dynamic: bool,
}

impl Further {
    /// The mapping afterwards. Takes no memory.
    pub fn settle(self, mapping: &mut Mapping)
        ensures { mapping.new ≡ settled mapping.old self }
    {
        let Further { added, dynamic } = self;
        if let Some(added) = added {
            *mapping = added;
        }
        mapping.set_dynamic(dynamic);
    }
}

/// A further mapping line: what it makes of the mapping, or the first of its refusals. The mapping stays as it is until
/// that is settled.
#[tactic(auto, using(crate::proofs::Refusals::firsts, crate::proofs::Planning::growths))]
pub fn further_mapping(
    alloc: Global,
    mapping: &Mapping,
    body: &Json,
) -> Result<Further, PlanRefusal>
    ensures mapping { IfOk result (λ further. settled mapping.now further ≡ grown_mapping mapping.now (view body.now)) }
    ensures later { IsOk result → HasFurtherBodies mapping.now (grown_mapping mapping.now (view body.now)) }
    ensures accepted { IsOk result → first_of (growing_refusals mapping.now (view body.now)) ≡ None }
    ensures refused { (why : Refusal) → IsErrOf result (PlanRefusal.Refused why) → first_of (growing_refusals mapping.now (view body.now)) ≡ Some why }
{
    further_bodies_stand_behind();
    let _generation = mapping.generation();
    let other = names_another(mapping, body);
    let dynamic = flag_after(mapping.dynamic(), member_named(body, b"dynamic"));
    match mapping.grown(alloc, body) {
        Ok(Growth::Added(grown)) => if other {
            Err(PlanRefusal::Refused(Refusal::IndexNotFound))
        } else {
            Ok(Further {
                added: Some(grown),
                dynamic,
            })
        },
        Ok(Growth::Same) => if other {
            Err(PlanRefusal::Refused(Refusal::IndexNotFound))
        } else {
            Ok(Further {
                added: None,
                dynamic,
            })
        },
        Err(MappingRefusal::BadRequest) => Err(PlanRefusal::Refused(Refusal::BadRequest)),
        Err(MappingRefusal::NoMemory) => Err(PlanRefusal::NoMemory),
        Err(MappingRefusal::Conflict(field)) => if other {
            Err(PlanRefusal::Refused(Refusal::IndexNotFound))
        } else {
            Err(PlanRefusal::Refused(Refusal::MappingConflict { field }))
        },
        Err(MappingRefusal::TooMuch(limit)) => if other {
            Err(PlanRefusal::Refused(Refusal::IndexNotFound))
        } else {
            let limit = limit_named(limit);
            Err(PlanRefusal::Refused(Refusal::MappingLimit { limit }))
        },
    }
}

/// Whether a body names another index.
fn names_another(mapping: &Mapping, body: &Json) -> bool
    ensures { result ≡ is_other_text mapping.now.index (member_named (view body.now) (codes "index")) }
{
    match member_named(body, b"index") {
        Some(Json::Text(name)) => name.as_slice() != mapping.index_name(),
        _ => false,
    }
}

/// The flag that a body gives, or else the one before.
fn flag_after(before: bool, given: Option<&Json>) -> bool
    ensures { result ≡ flag_after before (option_map (λ v. view v.now) given.entry) }
{
    match given {
        Some(Json::Bool(on)) => *on,
        _ => before,
    }
}

/// Why a body is not taken, as a reply says it.
fn refusal_of(why: MappingRefusal) -> PlanRefusal
    ensures { (named : Refusal) → result ≡ PlanRefusal.Refused named → body_refused why ≡ Some named }
{
    match why {
        MappingRefusal::BadRequest => PlanRefusal::Refused(Refusal::BadRequest),
        MappingRefusal::Conflict(field) => {
            PlanRefusal::Refused(Refusal::MappingConflict { field })
        }
        MappingRefusal::TooMuch(limit) => {
            let limit = limit_named(limit);
            PlanRefusal::Refused(Refusal::MappingLimit { limit })
        }
        MappingRefusal::NoMemory => PlanRefusal::NoMemory,
    }
}
