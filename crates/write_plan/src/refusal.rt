//! Why a write or a mapping line isn't done.
ghost use Rattle.std.specs.Prelude.{◌≡◌};
ghost use Rattle.machine.specs.MappingLine.{limit_named};

use mapping::Limit;
use reply_text::{MappingLimit, Refusal};
use std::alloc::{AllocError, AllocFailed};

/// Why a write or a mapping line isn't done.
#[derive(Drop)]
pub enum PlanRefusal {
    /// It is refused.
    Refused(Refusal),
    /// An allocation failed.
    NoMemory,
}

impl From<Refusal> for PlanRefusal {
    ghost use Rattle.std.specs.Prelude.{◌≡◌};
    ghost use Rattle.write_plan.specs.declared.refusal.PlanRefusal.TheVariants.{Refused};

    ghost from_gives = { λ why e. e ≡ Refused why };

    fn from(why: Refusal) -> PlanRefusal {
        PlanRefusal::Refused(why)
    }
}

impl From<AllocError> for PlanRefusal {
    ghost use Rattle.std.specs.Prelude.{◌≡◌};
    ghost use Rattle.write_plan.specs.declared.refusal.PlanRefusal.TheVariants.{NoMemory};

    ghost from_gives = { λ _ e. e ≡ NoMemory };

    fn from(_error: AllocError) -> PlanRefusal {
        PlanRefusal::NoMemory
    }
}

impl From<mapping::NoMemory> for PlanRefusal {
    ghost use Rattle.std.specs.Prelude.{◌≡◌};
    ghost use Rattle.write_plan.specs.declared.refusal.PlanRefusal.TheVariants.{NoMemory};

    ghost from_gives = { λ _ e. e ≡ NoMemory };

    fn from(_error: mapping::NoMemory) -> PlanRefusal {
        PlanRefusal::NoMemory
    }
}

/// The limit as a reply names it.
pub(crate) fn limit_named(limit: Limit) -> MappingLimit
    ensures { result ≡ limit_named limit }
{
    match limit {
        Limit::Fields => MappingLimit::Fields,
        Limit::Depth => MappingLimit::Depth,
        Limit::Nested => MappingLimit::Nested,
        Limit::Relations => MappingLimit::Relations,
        Limit::Generations => MappingLimit::Generations,
        Limit::Size => MappingLimit::Size,
    }
}
