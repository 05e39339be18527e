//! Why there is no segment.

use std::alloc::AllocError;

/// Why there is no segment.
#[derive(Clone, Copy, Debug, PartialEq, Eq)]
pub enum SegmentRefusal {
    /// The columns disagree, or the bytes are the text of none that agree.
    NotASegment,
    /// An allocation failed.
    NoMemory,
}

impl From<crate::NoMemory> for SegmentRefusal {
    ghost use Rattle.std.specs.Prelude.{◌≡◌};
    ghost use Rattle.segment.specs.declared.refusal.SegmentRefusal.TheVariants.{NoMemory};

    ghost from_gives = { λ _ e. e ≡ NoMemory };

    fn from(_: crate::NoMemory) -> SegmentRefusal {
        SegmentRefusal::NoMemory
    }
}

impl From<AllocError> for SegmentRefusal {
    ghost use Rattle.std.specs.Prelude.{◌≡◌};
    ghost use Rattle.segment.specs.declared.refusal.SegmentRefusal.TheVariants.{NoMemory};

    ghost from_gives = { λ _ e. e ≡ NoMemory };

    fn from(_: AllocError) -> SegmentRefusal {
        SegmentRefusal::NoMemory
    }
}
