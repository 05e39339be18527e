//! Why a call of a store isn't done.

use std::alloc::{AllocError, AllocFailed};

/// Memory ran out.
#[derive(Clone, Copy, Debug, PartialEq, Eq)]
pub struct NoMemory;

impl From<AllocError> for NoMemory {
    fn from(_: AllocError) -> NoMemory {
        NoMemory
    }
}

impl<T: Drop> From<AllocFailed<T>> for NoMemory {
    fn from(_: AllocFailed<T>) -> NoMemory {
        NoMemory
    }
}

impl From<segment_view::NoMemory> for NoMemory {
    fn from(_: segment_view::NoMemory) -> NoMemory {
        NoMemory
    }
}

impl From<store_text::NoMemory> for NoMemory {
    fn from(_: store_text::NoMemory) -> NoMemory {
        NoMemory
    }
}

impl From<tree_json::NoMemory> for NoMemory {
    fn from(_: tree_json::NoMemory) -> NoMemory {
        NoMemory
    }
}

/// Why the gate of the idle slot wasn't closed.
#[derive(Clone, Copy, Debug, PartialEq, Eq)]
pub enum IdleRefusal {
    /// A call of the disk failed.
    DiskFault,
}

/// Why nothing is committed.
#[derive(Clone, Copy, Debug, PartialEq, Eq)]
pub enum CommitRefusal {
    /// A call of the disk failed.
    DiskFault,
    /// No generation is left, or there is no room for what would be written.
    StoreFull,
    NoMemory,
}

impl From<IdleRefusal> for CommitRefusal {
    ghost use Rattle.std.specs.Prelude.{◌≡◌};
    ghost use Rattle.commit_store.specs.declared.refusal.CommitRefusal.TheVariants.{DiskFault};

    ghost from_gives = { λ _ e. e ≡ DiskFault };

    fn from(_: IdleRefusal) -> CommitRefusal {
        CommitRefusal::DiskFault
    }
}

impl From<AllocError> for CommitRefusal {
    ghost use Rattle.std.specs.Prelude.{◌≡◌};
    ghost use Rattle.commit_store.specs.declared.refusal.CommitRefusal.TheVariants.{NoMemory as OutOfMemory};

    ghost from_gives = { λ _ e. e ≡ OutOfMemory };

    fn from(_: AllocError) -> CommitRefusal {
        CommitRefusal::NoMemory
    }
}

impl<T: Drop> From<AllocFailed<T>> for CommitRefusal {
    ghost use Rattle.std.specs.Prelude.{◌≡◌};
    ghost use Rattle.commit_store.specs.declared.refusal.CommitRefusal.TheVariants.{NoMemory as OutOfMemory};

    ghost from_gives = { λ _ e. e ≡ OutOfMemory };

    fn from(_: AllocFailed<T>) -> CommitRefusal {
        CommitRefusal::NoMemory
    }
}

impl From<segment_view::NoMemory> for CommitRefusal {
    ghost use Rattle.std.specs.Prelude.{◌≡◌};
    ghost use Rattle.commit_store.specs.declared.refusal.CommitRefusal.TheVariants.{NoMemory as OutOfMemory};

    ghost from_gives = { λ _ e. e ≡ OutOfMemory };

    fn from(_: segment_view::NoMemory) -> CommitRefusal {
        CommitRefusal::NoMemory
    }
}

impl From<NoMemory> for CommitRefusal {
    ghost use Rattle.std.specs.Prelude.{◌≡◌};
    ghost use Rattle.commit_store.specs.declared.refusal.CommitRefusal.TheVariants.{NoMemory as OutOfMemory};

    ghost from_gives = { λ _ e. e ≡ OutOfMemory };

    fn from(_: NoMemory) -> CommitRefusal {
        CommitRefusal::NoMemory
    }
}

/// Why a commit that was prepared isn't acknowledged.
#[derive(Clone, Copy, Debug, PartialEq, Eq)]
pub enum FinishRefusal {
    /// A call of the disk failed.
    DiskFault,
    NoMemory,
}

impl From<NoMemory> for FinishRefusal {
    ghost use Rattle.std.specs.Prelude.{◌≡◌};
    ghost use Rattle.commit_store.specs.declared.refusal.FinishRefusal.TheVariants.{NoMemory as OutOfMemory};

    ghost from_gives = { λ _ e. e ≡ OutOfMemory };

    fn from(_: NoMemory) -> FinishRefusal {
        FinishRefusal::NoMemory
    }
}

impl From<io_edges::Failed> for FinishRefusal {
    ghost use Rattle.std.specs.Prelude.{◌≡◌};
    ghost use Rattle.commit_store.specs.declared.refusal.FinishRefusal.TheVariants.{DiskFault};

    ghost from_gives = { λ _ e. e ≡ DiskFault };

    fn from(_: io_edges::Failed) -> FinishRefusal {
        FinishRefusal::DiskFault
    }
}

impl From<FinishRefusal> for CommitRefusal {
    ghost use Rattle.std.specs.Prelude.{◌≡◌};
    ghost use Rattle.commit_store.specs.Refusals.{as_commit};

    ghost from_gives = { λ f e. e ≡ as_commit f };

    fn from(refusal: FinishRefusal) -> CommitRefusal {
        match refusal {
            FinishRefusal::DiskFault => CommitRefusal::DiskFault,
            FinishRefusal::NoMemory => CommitRefusal::NoMemory,
        }
    }
}
