//! Why a body is not taken.
use crate::bytes::Bytes;
use std::alloc::{AllocError, AllocFailed};

/// There was too little memory.
#[derive(Clone, Copy, Debug, PartialEq, Eq)]
pub struct NoMemory;

impl From<AllocError> for NoMemory {
    fn from(_: AllocError) -> NoMemory {
        NoMemory
    }
}

impl<T: Drop> From<AllocFailed<T>> for NoMemory {
    fn from(_: AllocFailed<T>) -> NoMemory {
        NoMemory
    }
}

/// The most bytes of the name of a property or of a relation.
pub const MOST_NAME_BYTES: usize = 255;

/// The most properties that bodies may have together.
pub const MOST_FIELDS: usize = 1_000;

/// The most names of a path.
pub const MOST_NAMES: usize = 20;

/// The most nested properties.
pub const MOST_NESTED: usize = 50;

/// The most bodies, which are the generations of a mapping.
pub const MOST_BODIES: usize = 1_000;

/// The most bytes of the compact texts of all bodies.
pub const MOST_BYTES: u64 = 16_777_216;

/// How much bodies may have together, in the order in which it is looked for.
#[derive(Clone, Copy, Debug, PartialEq, Eq)]
pub enum Limit {
    /// More than `MOST_FIELDS` properties.
    Fields,
    /// A path of more than `MOST_NAMES` names.
    Depth,
    /// More than `MOST_NESTED` nested properties.
    Nested,
    /// Two join fields, or one below the top level; or relations that are empty, give a name two parents, or make a name
    /// its own ancestor.
    Relations,
    /// More than `MOST_BODIES` bodies.
    Generations,
    /// Compact texts of more than `MOST_BYTES` bytes.
    Size,
}

/// Why a body is not taken, in the order in which the causes are looked for.
#[derive(Debug, Drop)]
pub enum MappingRefusal {
    /// The body hasn't the form of a mapping.
    BadRequest,
    /// A kept path is given another kind or another flag, or a kept relation another parent or its first child: the path.
    Conflict(Bytes),
    /// The bodies would have too much together.
    TooMuch(Limit),
    /// An allocation failed.
    NoMemory,
}

impl From<NoMemory> for MappingRefusal {
    ghost use Rattle.std.specs.Prelude.{◌≡◌};
    ghost use Rattle.mapping_body.specs.declared.refusal.MappingRefusal.TheVariants.{NoMemory};

    ghost from_gives = { λ _ e. e ≡ NoMemory };

    fn from(_error: crate::refusal::NoMemory) -> MappingRefusal {
        MappingRefusal::NoMemory
    }
}

impl From<AllocError> for MappingRefusal {
    ghost use Rattle.std.specs.Prelude.{◌≡◌};
    ghost use Rattle.mapping_body.specs.declared.refusal.MappingRefusal.TheVariants.{NoMemory};

    ghost from_gives = { λ _ e. e ≡ NoMemory };

    fn from(_error: AllocError) -> MappingRefusal {
        MappingRefusal::NoMemory
    }
}

impl<T: Drop> From<AllocFailed<T>> for MappingRefusal {
    ghost use Rattle.std.specs.Prelude.{◌≡◌};
    ghost use Rattle.mapping_body.specs.declared.refusal.MappingRefusal.TheVariants.{NoMemory};

    ghost from_gives = { λ _ e. e ≡ NoMemory };

    fn from(_error: AllocFailed<T>) -> MappingRefusal {
        MappingRefusal::NoMemory
    }
}
