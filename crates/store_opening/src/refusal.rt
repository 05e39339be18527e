//! Why a store doesn't open.

use io_edges::Failed;
use std::alloc::{AllocError, AllocFailed};

/// Memory ran out.
#[derive(Clone, Copy, Debug, PartialEq, Eq)]
pub struct NoMemory;

impl From<AllocError> for NoMemory {
    fn from(_: AllocError) -> NoMemory {
        NoMemory
    }
}

impl From<segment::NoMemory> for NoMemory {
    fn from(_: segment::NoMemory) -> NoMemory {
        NoMemory
    }
}

impl<T: Drop> From<AllocFailed<T>> for NoMemory {
    fn from(_: AllocFailed<T>) -> NoMemory {
        NoMemory
    }
}

impl From<segment_view::NoMemory> for NoMemory {
    fn from(_: segment_view::NoMemory) -> NoMemory {
        NoMemory
    }
}

impl From<tree_json::NoMemory> for NoMemory {
    fn from(_: tree_json::NoMemory) -> NoMemory {
        NoMemory
    }
}

/// Why a store doesn't open.
#[derive(Clone, Copy, Debug, PartialEq, Eq)]
pub enum OpenRefusal {
    /// A call on the disk failed.
    DiskFault,
    /// The file has bytes, but doesn't begin with the magic of a store.
    NotAStore,
    /// The file begins as a store and holds no good commit, nor is it one that has none.
    Damaged,
    /// Memory ran out.
    NoMemory,
}

impl From<Failed> for OpenRefusal {
    ghost use Rattle.std.specs.Prelude.{◌≡◌};
    ghost use Rattle.store_opening.specs.declared.refusal.OpenRefusal.TheVariants.{DiskFault};

    ghost from_gives = { λ _ e. e ≡ DiskFault };

    fn from(_: Failed) -> OpenRefusal {
        OpenRefusal::DiskFault
    }
}

impl From<AllocError> for OpenRefusal {
    ghost use Rattle.std.specs.Prelude.{◌≡◌};
    ghost use Rattle.store_opening.specs.declared.refusal.OpenRefusal.TheVariants.{NoMemory};

    ghost from_gives = { λ _ e. e ≡ NoMemory };

    fn from(_: AllocError) -> OpenRefusal {
        OpenRefusal::NoMemory
    }
}

impl<T: Drop> From<AllocFailed<T>> for OpenRefusal {
    ghost use Rattle.std.specs.Prelude.{◌≡◌};
    ghost use Rattle.store_opening.specs.declared.refusal.OpenRefusal.TheVariants.{NoMemory};

    ghost from_gives = { λ _ e. e ≡ NoMemory };

    fn from(_: AllocFailed<T>) -> OpenRefusal {
        OpenRefusal::NoMemory
    }
}

impl From<store_text::NoMemory> for OpenRefusal {
    ghost use Rattle.std.specs.Prelude.{◌≡◌};
    ghost use Rattle.store_opening.specs.declared.refusal.OpenRefusal.TheVariants.{NoMemory};

    ghost from_gives = { λ _ e. e ≡ NoMemory };

    fn from(_: store_text::NoMemory) -> OpenRefusal {
        OpenRefusal::NoMemory
    }
}

impl From<segment_view::NoMemory> for OpenRefusal {
    ghost use Rattle.std.specs.Prelude.{◌≡◌};
    ghost use Rattle.store_opening.specs.declared.refusal.OpenRefusal.TheVariants.{NoMemory};

    ghost from_gives = { λ _ e. e ≡ NoMemory };

    fn from(_: segment_view::NoMemory) -> OpenRefusal {
        OpenRefusal::NoMemory
    }
}

impl From<segment_fits::NoMemory> for OpenRefusal {
    ghost use Rattle.std.specs.Prelude.{◌≡◌};
    ghost use Rattle.store_opening.specs.declared.refusal.OpenRefusal.TheVariants.{NoMemory};

    ghost from_gives = { λ _ e. e ≡ NoMemory };

    fn from(_: segment_fits::NoMemory) -> OpenRefusal {
        OpenRefusal::NoMemory
    }
}

impl From<NoMemory> for OpenRefusal {
    ghost use Rattle.std.specs.Prelude.{◌≡◌};
    ghost use Rattle.store_opening.specs.declared.refusal.OpenRefusal.TheVariants.{NoMemory};

    ghost from_gives = { λ _ e. e ≡ NoMemory };

    fn from(_: NoMemory) -> OpenRefusal {
        OpenRefusal::NoMemory
    }
}

impl From<segment_codec::CodecRefusal> for OpenRefusal {
    ghost use Rattle.store_opening.specs.Segments.{refusal_of};
    ghost use Rattle.std.specs.Prelude.{◌≡◌};

    ghost from_gives = { λ refusal e. e ≡ refusal_of refusal };

    fn from(refusal: segment_codec::CodecRefusal) -> OpenRefusal {
        match refusal {
            segment_codec::CodecRefusal::NotASegment => OpenRefusal::Damaged,
            segment_codec::CodecRefusal::NoMemory => OpenRefusal::NoMemory,
        }
    }
}
