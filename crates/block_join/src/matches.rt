//! The scores of all documents of a view.

ghost use Rattle.std.specs.Prelude.{◌≡◌};

use crate::Scored;
use std::marker::Model;

/// The documents of a view that hit, with their scores: one `Scored` for each entry, in order.
#[derive(Drop)]
pub struct Matches {
    entries: Vec<Scored>,
}

impl Model for Matches {
    ghost use Rattle.std.specs.Prelude.{ℕ, List, Option};
    ghost use Rattle.std.specs.Coded.{coded_list, coded_option, coded_ℕ};

    ghost Value = { List (List (Option ℕ)) };

    ghost coded = { coded_list (coded_list (coded_option coded_ℕ)) };

    ghost view = { λ it. it.entries.items };
}

impl Matches {
    /// The scores of the entries. Takes no memory.
    pub fn of(entries: Vec<Scored>) -> Matches
        ensures { result ≡ entries.items }
    {
        Matches { entries }
    }

    /// The scores of each entry, in order.
    pub fn as_slice(&self) -> &[Scored]
        ensures { result.now ≡ self.now }
    {
        self.entries.as_slice()
    }
}
