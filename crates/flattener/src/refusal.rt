//! Why a source has no block.
use std::alloc::{AllocError, AllocFailed};

/// Memory ran out.
#[derive(Clone, Copy, Debug, PartialEq, Eq)]
pub struct NoMemory;

impl From<AllocError> for NoMemory {
    fn from(_: AllocError) -> NoMemory {
        NoMemory
    }
}

impl<T: Drop> From<AllocFailed<T>> for NoMemory {
    fn from(_: AllocFailed<T>) -> NoMemory {
        NoMemory
    }
}

impl From<analysis::NoMemory> for NoMemory {
    fn from(_: analysis::NoMemory) -> NoMemory {
        NoMemory
    }
}

impl From<tree_json::NoMemory> for NoMemory {
    fn from(_: tree_json::NoMemory) -> NoMemory {
        NoMemory
    }
}

impl From<block_bits::NoMemory> for NoMemory {
    fn from(_: block_bits::NoMemory) -> NoMemory {
        NoMemory
    }
}

impl From<mapping::NoMemory> for NoMemory {
    fn from(_: mapping::NoMemory) -> NoMemory {
        NoMemory
    }
}

/// Why a source has no block, in the order in which the reasons are looked for.
#[derive(Clone, Copy, Debug, PartialEq, Eq)]
pub enum FlattenRefusal {
    /// A compact text of the source of more than 16,777,216 bytes.
    SourceTooLong,
    /// A value that its field's kind doesn't take; the number of the field.
    WrongType(u32),
    /// A keyword value or a folded token of a text of more than 32,766 bytes; the number of the field.
    TermTooLong(u32),
    /// A value of the join field that names no relation.
    BadJoin,
    /// More than 10,000 nested objects.
    TooManyObjects,
    /// An allocation failed.
    NoMemory,
}

impl From<NoMemory> for FlattenRefusal {
    ghost use Rattle.std.specs.Prelude.{◌≡◌};
    ghost use Rattle.flattener.specs.declared.refusal.FlattenRefusal.TheVariants.{NoMemory};

    ghost from_gives = { λ _ e. e ≡ NoMemory };

    fn from(_: crate::refusal::NoMemory) -> FlattenRefusal {
        FlattenRefusal::NoMemory
    }
}

/// Why a walk over the objects of a source ended before its end.
#[derive(Clone, Copy, Debug, PartialEq, Eq)]
pub(crate) enum WalkRefusal {
    /// More documents than a block may have.
    TooManyObjects,
    /// An allocation failed.
    NoMemory,
}

impl From<NoMemory> for WalkRefusal {
    ghost use Rattle.std.specs.Prelude.{◌≡◌};
    ghost use Rattle.flattener.specs.declared.refusal.WalkRefusal.TheVariants.{NoMemory};

    ghost from_gives = { λ _ e. e ≡ NoMemory };

    fn from(_: crate::refusal::NoMemory) -> WalkRefusal {
        WalkRefusal::NoMemory
    }
}
