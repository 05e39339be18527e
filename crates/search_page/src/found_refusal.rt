//! Why what a search finds isn't handed on.
use crate::NoMemory;
use inner_hits::PageRefusal;
use reply_text::TooLarge;
use std::alloc::{AllocError, AllocFailed};

/// Why what a search finds isn't handed on.
#[derive(Clone, Copy, Debug, PartialEq, Eq)]
pub enum FoundRefusal {
    /// A reply can't hold the page of hits.
    TooLarge,
    /// There was too little memory.
    NoMemory,
}

impl From<TooLarge> for FoundRefusal {
    ghost use Rattle.std.specs.Prelude.{◌≡◌};
    ghost use Rattle.search_page.specs.declared.found_refusal.FoundRefusal.TheVariants as why;

    ghost from_gives = { λ _ e. e ≡ why.TooLarge };

    fn from(_: TooLarge) -> FoundRefusal {
        FoundRefusal::TooLarge
    }
}

impl From<PageRefusal> for FoundRefusal {
    ghost use Rattle.std.specs.Prelude.{◌≡◌};
    ghost use Rattle.search_page.specs.Hits.{refusal_of};

    ghost from_gives = { λ why e. e ≡ refusal_of why };

    fn from(why: PageRefusal) -> FoundRefusal {
        match why {
            PageRefusal::TooLarge => FoundRefusal::TooLarge,
            PageRefusal::NoMemory => FoundRefusal::NoMemory,
        }
    }
}

impl From<NoMemory> for FoundRefusal {
    ghost use Rattle.std.specs.Prelude.{◌≡◌};
    ghost use Rattle.search_page.specs.declared.found_refusal.FoundRefusal.TheVariants as why;

    ghost from_gives = { λ _ e. e ≡ why.NoMemory };

    fn from(_: NoMemory) -> FoundRefusal {
        FoundRefusal::NoMemory
    }
}

impl From<AllocError> for FoundRefusal {
    ghost use Rattle.std.specs.Prelude.{◌≡◌};
    ghost use Rattle.search_page.specs.declared.found_refusal.FoundRefusal.TheVariants as why;

    ghost from_gives = { λ _ e. e ≡ why.NoMemory };

    fn from(_: AllocError) -> FoundRefusal {
        FoundRefusal::NoMemory
    }
}

impl<T: Drop> From<AllocFailed<T>> for FoundRefusal {
    ghost use Rattle.std.specs.Prelude.{◌≡◌};
    ghost use Rattle.search_page.specs.declared.found_refusal.FoundRefusal.TheVariants as why;

    ghost from_gives = { λ _ e. e ≡ why.NoMemory };

    fn from(_: AllocFailed<T>) -> FoundRefusal {
        FoundRefusal::NoMemory
    }
}

impl From<bucket_aggs::NoMemory> for FoundRefusal {
    ghost use Rattle.std.specs.Prelude.{◌≡◌};
    ghost use Rattle.search_page.specs.declared.found_refusal.FoundRefusal.TheVariants as why;

    ghost from_gives = { λ _ e. e ≡ why.NoMemory };

    fn from(_: bucket_aggs::NoMemory) -> FoundRefusal {
        FoundRefusal::NoMemory
    }
}

impl From<hit_order::NoMemory> for FoundRefusal {
    ghost use Rattle.std.specs.Prelude.{◌≡◌};
    ghost use Rattle.search_page.specs.declared.found_refusal.FoundRefusal.TheVariants as why;

    ghost from_gives = { λ _ e. e ≡ why.NoMemory };

    fn from(_: hit_order::NoMemory) -> FoundRefusal {
        FoundRefusal::NoMemory
    }
}

impl From<inner_hits::NoMemory> for FoundRefusal {
    ghost use Rattle.std.specs.Prelude.{◌≡◌};
    ghost use Rattle.search_page.specs.declared.found_refusal.FoundRefusal.TheVariants as why;

    ghost from_gives = { λ _ e. e ≡ why.NoMemory };

    fn from(_: inner_hits::NoMemory) -> FoundRefusal {
        FoundRefusal::NoMemory
    }
}

impl From<nested_sort::NoMemory> for FoundRefusal {
    ghost use Rattle.std.specs.Prelude.{◌≡◌};
    ghost use Rattle.search_page.specs.declared.found_refusal.FoundRefusal.TheVariants as why;

    ghost from_gives = { λ _ e. e ≡ why.NoMemory };

    fn from(_: nested_sort::NoMemory) -> FoundRefusal {
        FoundRefusal::NoMemory
    }
}

impl From<query_eval::NoMemory> for FoundRefusal {
    ghost use Rattle.std.specs.Prelude.{◌≡◌};
    ghost use Rattle.search_page.specs.declared.found_refusal.FoundRefusal.TheVariants as why;

    ghost from_gives = { λ _ e. e ≡ why.NoMemory };

    fn from(_: query_eval::NoMemory) -> FoundRefusal {
        FoundRefusal::NoMemory
    }
}
