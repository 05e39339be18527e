//! Why pages of inner hits aren't made.
use crate::NoMemory;
use reply_text::TooLarge;
use std::alloc::{AllocError, AllocFailed};

/// Why pages of inner hits aren't made.
#[derive(Clone, Copy, Debug, PartialEq, Eq)]
pub enum PageRefusal {
    /// A reply has no room for them.
    TooLarge,
    /// There was too little memory.
    NoMemory,
}

impl From<TooLarge> for PageRefusal {
    ghost use Rattle.std.specs.Prelude.{◌≡◌};
    ghost use Rattle.inner_hits.specs.declared.page_refusal.PageRefusal.TheVariants as why;

    ghost from_gives = { λ _ e. e ≡ why.TooLarge };

    fn from(_: TooLarge) -> PageRefusal {
        PageRefusal::TooLarge
    }
}

impl From<NoMemory> for PageRefusal {
    ghost use Rattle.std.specs.Prelude.{◌≡◌};
    ghost use Rattle.inner_hits.specs.declared.page_refusal.PageRefusal.TheVariants as why;

    ghost from_gives = { λ _ e. e ≡ why.NoMemory };

    fn from(_: NoMemory) -> PageRefusal {
        PageRefusal::NoMemory
    }
}

impl From<AllocError> for PageRefusal {
    ghost use Rattle.std.specs.Prelude.{◌≡◌};
    ghost use Rattle.inner_hits.specs.declared.page_refusal.PageRefusal.TheVariants as why;

    ghost from_gives = { λ _ e. e ≡ why.NoMemory };

    fn from(_: AllocError) -> PageRefusal {
        PageRefusal::NoMemory
    }
}

impl<T: Drop> From<AllocFailed<T>> for PageRefusal {
    ghost use Rattle.std.specs.Prelude.{◌≡◌};
    ghost use Rattle.inner_hits.specs.declared.page_refusal.PageRefusal.TheVariants as why;

    ghost from_gives = { λ _ e. e ≡ why.NoMemory };

    fn from(_: AllocFailed<T>) -> PageRefusal {
        PageRefusal::NoMemory
    }
}
