//! Roots as they were written before mappings grew: without a mapping generation.

ghost use Rattle.std.specs.Prelude.{◌≡◌, ◌++◌, ℕ, List, IfOk, IfSome, IsNone, OnErr};
ghost use Rattle.part_text.specs.Reading.{Gives};
ghost use Rattle.stored_sources.specs.declared.root.Root.{Root};
ghost use Rattle.stored_sources.specs.Roots.{lent_join};
ghost use Rattle.stored_sources.specs.Text.{root_text, old_root_text};
ghost use Rattle.stored_sources.specs.Stands.{IsOldRoot};
ghost use Rattle.stored_sources.specs.Old.{front_at, end_at};

use crate::JoinValue;
use crate::walk::join_at;
use part_text::{NoMemory, put_u32, string_at, u64_at};

/// Appends the root that stands at the front of bytes without a mapping generation as one of the first mapping, and gives
/// the bytes behind it; None exactly where no such root stands there.
pub fn renewed_root<'a>(bytes: &'a [u8], into: &mut Vec<u8>) -> Result<Option<&'a [u8]>, NoMemory>
    ensures found { IfOk result (λ found. IfSome found (λ rest. (root : Root) × IsOldRoot root
        × (bytes.now ≡ old_root_text root ++ rest.now) × (into.new.items ≡ into.old.items ++ root_text root))) }
    ensures only { IfOk result (λ found. IsNone found → (root : Root) (rest : List ℕ) → IsOldRoot root
        → bytes.now ≡ old_root_text root ++ rest → ⊥) }
{
    let Some((_, behind)) = front_at(bytes) else {
        return Ok(None);
    };
    let Some((_, rest)) = end_at(behind) else {
        return Ok(None);
    };
    into.extend_from_slice(bytes.split_at(bytes.len() - behind.len()).0)?;
    put_u32(into, 1)?;
    into.extend_from_slice(behind.split_at(behind.len() - rest.len()).0)?;
    Ok(Some(rest))
}

/// An id and a number.
#[tactic(auto, unfolding(crate::specs::Old::front_at))]
fn front_at(bytes: &[u8]) -> Option<((&[u8], u64), &[u8])>
    ensures { Gives (λ x. ((x.0.0.now, x.0.1), x.1.now)) result (front_at bytes.now) }
{
    let (id, rest) = string_at(bytes)?;
    let (number, rest) = u64_at(rest)?;
    Some(((id, number), rest))
}

/// A source and a join value.
#[tactic(auto, unfolding(crate::specs::Old::end_at))]
fn end_at(bytes: &[u8]) -> Option<((&[u8], JoinValue<'_>), &[u8])>
    ensures { Gives (λ x. ((x.0.0.now, lent_join x.0.1), x.1.now)) result (end_at bytes.now) }
{
    let (source, rest) = string_at(bytes)?;
    let (join, rest) = join_at(rest)?;
    Some(((source, join), rest))
}

/// No bytes begin with two roots without a mapping generation. Does nothing.
pub fn old_roots_have_one_text()
    ensures { (one other : Root) (rest more : List ℕ) → IsOldRoot one → IsOldRoot other
        → old_root_text one ++ rest ≡ old_root_text other ++ more → (one ≡ other) × (rest ≡ more) }
{}
