//! A root between its place and the next.

ghost use Rattle.std.specs.Prelude.{◌≡◌, ℕ, ◌+◌, ◌<◌, ◌^◌, ◌++◌, length, map, OnOk};
ghost use Rattle.std.specs.List.{All};
ghost use Rattle.part_text.specs.Places.{row};
ghost use Rattle.part_text.specs.Written.{Extends};
ghost use Rattle.stored_sources.specs.Text.{roots_text};
ghost use Rattle.stored_sources.specs.Lent.{lent_root};
ghost use Rattle.stored_sources.specs.Roots.{root_of};
ghost use Rattle.stored_sources.specs.Kept.{root_in, roots_in, AreKept, IsRootText};

use crate::walk::{LentFront, LentRoot, front_at, root_at};
use part_text::{NoMemory, row};

/// The root at an index.
pub(crate) fn lent_at<'a>(places: &[u64], bytes: &'a [u8], at: usize) -> LentRoot<'a>
    requires kept { AreKept places.now bytes.now }
    requires below { at + 1 < length places.now }
    ensures root { lent_root result ≡ root_of (roots_in places.now bytes.now) at }
    ensures short { length result.source.now < 2 ^ 32 }
{
    lent_from(row(places, bytes, at))
}

/// The root that bytes are the text of.
fn lent_from(bytes: &[u8]) -> LentRoot<'_>
    requires { IsRootText bytes.now }
    ensures root { lent_root result ≡ root_in bytes.now }
    ensures short { length result.source.now < 2 ^ 32 }
{
    match root_at(bytes) {
        Some((root, _)) => root,
        None => unreachable!(),
    }
}

/// What stands of the root at an index before its source.
pub(crate) fn front_of<'a>(places: &[u64], bytes: &'a [u8], at: usize) -> LentFront<'a>
    requires kept { AreKept places.now bytes.now }
    requires below { at + 1 < length places.now }
    ensures id { result.id.now ≡ (root_of (roots_in places.now bytes.now) at).id }
    ensures number { result.number ≡ (root_of (roots_in places.now bytes.now) at).number }
    ensures generation { result.generation ≡ (root_of (roots_in places.now bytes.now) at).generation }
{
    front_from(row(places, bytes, at))
}

/// What stands before the source of the root that bytes are the text of.
fn front_from(bytes: &[u8]) -> LentFront<'_>
    requires { IsRootText bytes.now }
    ensures id { result.id.now ≡ (root_in bytes.now).id }
    ensures number { result.number ≡ (root_in bytes.now).number }
    ensures generation { result.generation ≡ (root_in bytes.now).generation }
{
    match front_at(bytes) {
        Some(front) => front,
        None => unreachable!(),
    }
}

/// Appends these roots as they are written.
#[tactic(auto, using(part_text::specs::Written::extends))]
pub(crate) fn put_live(
    places: &[u64],
    bytes: &[u8],
    live: &[u32],
    into: &mut Vec<u8>,
) -> Result<(), NoMemory>
    requires kept { AreKept places.now bytes.now }
    requires within { All (λ root. root + 1 < length places.now) live.now }
    ensures put { OnOk result (into.new.items ≡ into.old.items ++ roots_text (map (root_of (roots_in places.now bytes.now)) live.now)) }
    ensures grown { Extends into.old.items into.new.items }
{
    'live: for root in live {
        into.extend_from_slice(row(places, bytes, *root as usize))?;
    }
    Ok(())
}
