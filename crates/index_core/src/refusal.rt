//! Why a call failed.

use std::alloc::{AllocError, AllocFailed};

/// Memory ran out.
#[derive(Clone, Copy, Debug, PartialEq, Eq)]
pub struct NoMemory;

impl From<AllocError> for NoMemory {
    fn from(_: AllocError) -> NoMemory {
        NoMemory
    }
}

impl<T: Drop> From<AllocFailed<T>> for NoMemory {
    fn from(_: AllocFailed<T>) -> NoMemory {
        NoMemory
    }
}

impl From<segment::NoMemory> for NoMemory {
    fn from(_: segment::NoMemory) -> NoMemory {
        NoMemory
    }
}

impl From<segment_view::NoMemory> for NoMemory {
    fn from(_: segment_view::NoMemory) -> NoMemory {
        NoMemory
    }
}

impl From<stored_sources::NoMemory> for NoMemory {
    fn from(_: stored_sources::NoMemory) -> NoMemory {
        NoMemory
    }
}

impl From<segment_builder::NoMemory> for NoMemory {
    fn from(_: segment_builder::NoMemory) -> NoMemory {
        NoMemory
    }
}

impl From<merge_jobs::NoMemory> for NoMemory {
    fn from(_: merge_jobs::NoMemory) -> NoMemory {
        NoMemory
    }
}

impl From<merge_policy::NoMemory> for NoMemory {
    fn from(_: merge_policy::NoMemory) -> NoMemory {
        NoMemory
    }
}

impl From<view_merge::NoMemory> for NoMemory {
    fn from(_: view_merge::NoMemory) -> NoMemory {
        NoMemory
    }
}

/// Why a write wasn't done.
#[derive(Clone, Copy, Debug, PartialEq, Eq)]
pub enum WriteRefusal {
    /// There would be too many live objects, or no sequence number is left.
    IndexFull,
    /// Memory ran out.
    NoMemory,
}

impl From<NoMemory> for WriteRefusal {
    ghost use Rattle.std.specs.Prelude.{◌≡◌};
    ghost use Rattle.index_core.specs.declared.refusal.WriteRefusal.TheVariants.{NoMemory};

    ghost from_gives = { λ _ e. e ≡ NoMemory };

    fn from(_: crate::refusal::NoMemory) -> WriteRefusal {
        WriteRefusal::NoMemory
    }
}
