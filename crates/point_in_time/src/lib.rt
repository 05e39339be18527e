//! Points in time: what was live when each was opened, under an id.
//!
//! A point in time holds a view of its own (Elasticsearch reference, point in time API; Lucene's `SearcherLifetimeManager`).
//! The entries of that view are shared with the view that searches see, so it costs nothing until roots of these die. The
//! crate stands on `segment_view`. What others use: `view` lends what `open` was given under that id, until `close`.
//! Begin reading with `specs/Points`, then `PointsInTime`.
#![tactic(auto)]

mod points;

pub use points::PointsInTime;
use std::alloc::{AllocError, AllocFailed};

/// Why no point in time was opened. The points in time are as they were.
#[derive(Clone, Copy, Debug, PartialEq, Eq)]
pub enum OpenRefusal {
    /// As many are open as there may be.
    TooMany,
    /// Memory ran out.
    NoMemory,
}

impl From<AllocError> for OpenRefusal {
    ghost use Rattle.std.specs.Prelude.{◌≡◌};
    ghost use Rattle.point_in_time.specs.declared.OpenRefusal.TheVariants.{NoMemory};

    ghost from_gives = { λ _ refusal. refusal ≡ NoMemory };

    fn from(_: AllocError) -> OpenRefusal {
        OpenRefusal::NoMemory
    }
}

impl<T: Drop> From<AllocFailed<T>> for OpenRefusal {
    ghost use Rattle.std.specs.Prelude.{◌≡◌};
    ghost use Rattle.point_in_time.specs.declared.OpenRefusal.TheVariants.{NoMemory};

    ghost from_gives = { λ _ refusal. refusal ≡ NoMemory };

    fn from(_: AllocFailed<T>) -> OpenRefusal {
        OpenRefusal::NoMemory
    }
}
