//! Why a command on a store wasn't done.

use reply_text::Refusal;

/// Why a command wasn't done.
#[derive(Drop)]
pub enum NotDone {
    /// It is refused: StoreFull, where no generation or no room is left, or DiskFailure, where a call of the disk failed. The
    /// index is sealed, and the last commit is what it was.
    Refused(Refusal),
    /// There was no memory. The buffer may be sealed, and the last commit is what it was.
    NoMemory,
}

impl From<index_core::NoMemory> for NotDone {
    ghost use Rattle.std.specs.Prelude.{◌≡◌};
    ghost use Rattle.store_commands.specs.declared.not_done.NotDone.TheVariants.{NoMemory};

    ghost from_gives = { λ _ e. e ≡ NoMemory };

    fn from(_: index_core::NoMemory) -> NotDone {
        NotDone::NoMemory
    }
}
