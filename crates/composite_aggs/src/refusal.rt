//! Why there is no page and no histogram.
ghost use Rattle.std.specs.Prelude.{◌≡◌};

use std::alloc::{AllocError, AllocFailed};

/// How many buckets a histogram may have. Elasticsearch counts the buckets of a whole search (`search.max_buckets`).
pub const MOST_BUCKETS: usize = 10_000;

/// How many combinations of values a row may show. Elasticsearch has no such limit; it counts the buckets of a whole search
/// (`search.max_buckets`).
pub const MOST_COMBINATIONS: usize = 10_000;

/// Why a composite has no page, or a date histogram no buckets.
#[derive(Clone, Copy, Debug, PartialEq, Eq)]
pub enum PageRefusal {
    /// A date histogram would have more than 10,000 buckets.
    TooManyBuckets,
    /// A row shows more than 10,000 combinations of values.
    TooManyCombinations,
    /// There was too little memory.
    NoMemory,
}

impl From<AllocError> for PageRefusal {
    ghost use Rattle.std.specs.Prelude.{◌≡◌};
    ghost use Rattle.composite_aggs.specs.declared.refusal.PageRefusal.TheVariants.{NoMemory};

    ghost from_gives = { λ _ e. e ≡ NoMemory };

    fn from(_: AllocError) -> PageRefusal {
        PageRefusal::NoMemory
    }
}

impl<T: Drop> From<AllocFailed<T>> for PageRefusal {
    ghost use Rattle.std.specs.Prelude.{◌≡◌};
    ghost use Rattle.composite_aggs.specs.declared.refusal.PageRefusal.TheVariants.{NoMemory};

    ghost from_gives = { λ _ e. e ≡ NoMemory };

    fn from(_: AllocFailed<T>) -> PageRefusal {
        PageRefusal::NoMemory
    }
}
