//! One line: room for the whole of it first, and then what can't fail.
ghost use Rattle.std.specs.Prelude.{◌≡◌, ◌≤◌, ◌<◌, ◌++◌, ◌+◌, ◌↔◌, ◌∷◌, [], false, codes, OnOk, OnErr, IsOk};
ghost use Rattle.tree_json.specs.Output.{room_of};
ghost use Rattle.reply_text.specs.Field.{fields_text};
ghost use Rattle.reply_text.specs.Object.{braces, entry, object_text};
ghost use Rattle.reply_text.specs.Printed.{Printed};

use crate::field::{Field, fields_len, put_fields};
use tree_json::{NoMemory, OutText};

/// Why a reply isn't written.
#[derive(Clone, Copy, Debug, PartialEq, Eq)]
pub enum TextRefusal {
    /// The line has more bytes than it may have, the newline aside.
    TooLarge,
    /// An allocation failed.
    NoMemory,
}

impl From<NoMemory> for TextRefusal {
    ghost use Rattle.std.specs.Prelude.{◌≡◌};
    ghost use Rattle.reply_text.specs.declared.line.TextRefusal.TheVariants.{NoMemory};

    ghost from_gives = { λ _ e. e ≡ NoMemory };

    fn from(_error: NoMemory) -> TextRefusal {
        TextRefusal::NoMemory
    }
}

/// Makes room for a line and its newline, where the line isn't too long. The line's length is given without its first
/// byte: so it is known whether it is longer than the greatest u64.
pub(crate) fn begin(behind: u64, most: u64, into: &mut OutText) -> Result<(), TextRefusal>
    ensures same { into.new.bytes ≡ into.old.bytes }
    ensures fits { OnOk result (behind < most) }
    ensures spare { OnOk result (behind + 2 ≤ into.new.spare) }
    ensures too_large { (result ≡ Err TextRefusal.TooLarge) ↔ (most ≤ behind) }
    ensures unchanged { OnErr result (into.new ≡ into.old) }
    ensures succeeds { behind < most → behind + 2 ≤ into.old.spare → IsOk result }
    ensures room { room_of into.old ≤ room_of into.new }
{
    if behind >= most {
        return Err(TextRefusal::TooLarge);
    }
    into.reserve(behind.saturating_add(2))?;
    Ok(())
}

/// Prints an object of fields as a line.
pub(crate) fn print_fields(
    fields: &[Field],
    most: u64,
    into: &mut OutText,
) -> Result<(), TextRefusal>
    ensures { Printed (braces (fields_text false fields.now)) most into.old into.new result }
{
    begin(fields_len(fields).saturating_add(1), most, into)?;
    into.push_spare(b"{");
    put_fields(fields, into);
    into.push_spare(b"}\n");
    Ok(())
}

/// Prints an object of fields under `error` as a line.
#[tactic(auto, using(crate::proofs::LinePieces::lines))]
pub(crate) fn print_error(
    fields: &[Field],
    most: u64,
    into: &mut OutText,
) -> Result<(), TextRefusal>
    ensures { Printed (object_text (entry (codes "error") (braces (fields_text false fields.now)) ∷ [])) most into.old into.new result }
{
    begin(fields_len(fields).saturating_add(11), most, into)?;
    into.push_spare(b"{\"error\":{");
    put_fields(fields, into);
    into.push_spare(b"}}\n");
    Ok(())
}
