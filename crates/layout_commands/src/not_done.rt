//! Why a command wasn't done.

use reply_text::Refusal;

/// Why a command wasn't done.
#[derive(Drop)]
pub enum NotDone {
    /// It is refused. Nothing has changed.
    Refused(Refusal),
    /// There was no memory. The buffer may be sealed, and nothing else has changed.
    NoMemory,
}

impl From<index_core::NoMemory> for NotDone {
    ghost use Rattle.std.specs.Prelude.{◌≡◌};
    ghost use Rattle.layout_commands.specs.declared.not_done.NotDone.TheVariants.{NoMemory};

    ghost from_gives = { λ _ e. e ≡ NoMemory };

    fn from(_: index_core::NoMemory) -> NotDone {
        NotDone::NoMemory
    }
}
