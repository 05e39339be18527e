//! Why a value is none of a kind.
use mapping::NoMemory;

/// Why there is no value.
#[derive(Clone, Copy, Debug, PartialEq, Eq)]
pub enum ValueRefusal {
    /// The kind doesn't take the JSON value.
    NotOfKind,
    /// An allocation failed.
    NoMemory,
}

impl From<NoMemory> for ValueRefusal {
    ghost use Rattle.std.specs.Prelude.{◌≡◌};
    ghost use Rattle.tree_objects.specs.declared.refusal.ValueRefusal.TheVariants.{NoMemory};

    ghost from_gives = { λ _ e. e ≡ NoMemory };

    fn from(_error: mapping::NoMemory) -> ValueRefusal {
        ValueRefusal::NoMemory
    }
}
