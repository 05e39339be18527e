//! Walkers over roots: each reads one thing from the front of bytes, and gives the bytes behind it.

ghost use Rattle.part_text.specs.Reading.{Gives};
ghost use Rattle.stored_sources.specs.Reading.{join_at, join_of, named_at, child_at, front_at, root_at};
ghost use Rattle.stored_sources.specs.Roots.{lent_join};
ghost use Rattle.stored_sources.specs.Lent.{lent_root};

use crate::JoinValue;
use part_text::{string_at, u32_at, u64_at};

/// A root, read in place.
#[derive(Clone, Copy)]
pub(crate) struct LentRoot<'a> {
    /// The bytes of its id.
    pub(crate) id: &'a [u8],
    /// Its sequence number.
    pub(crate) number: u64,
    /// The generation of the mapping it was indexed under.
    pub(crate) generation: u32,
    /// Its source.
    pub(crate) source: &'a [u8],
    /// Its join value.
    pub(crate) join: JoinValue<'a>,
}

/// What stands of a root before its source, read in place.
#[derive(Clone, Copy)]
pub(crate) struct LentFront<'a> {
    /// The bytes of its id.
    pub(crate) id: &'a [u8],
    /// Its sequence number.
    pub(crate) number: u64,
    /// The generation of the mapping it was indexed under.
    pub(crate) generation: u32,
}

/// A join value.
#[tactic(auto, unfolding(crate::specs::Reading::join_at))]
pub(crate) fn join_at(bytes: &[u8]) -> Option<(JoinValue<'_>, &[u8])>
    ensures { Gives (λ x. (lent_join x.0, x.1.now)) result (join_at bytes.now) }
{
    match bytes {
        [] => None,
        [kind, rest @ ..] => join_of(*kind, rest),
    }
}

/// What a join value of this kind goes on with.
fn join_of(kind: u8, bytes: &[u8]) -> Option<(JoinValue<'_>, &[u8])>
    ensures { Gives (λ x. (lent_join x.0, x.1.now)) result (join_of kind bytes.now) }
{
    match kind {
        0 => Some((JoinValue::Unjoined, bytes)),
        1 => named_at(bytes),
        2 => child_at(bytes),
        _ => None,
    }
}

/// The relation of a parent.
fn named_at(bytes: &[u8]) -> Option<(JoinValue<'_>, &[u8])>
    ensures { Gives (λ x. (lent_join x.0, x.1.now)) result (named_at bytes.now) }
{
    let (relation, rest) = u32_at(bytes)?;
    Some((JoinValue::Named(relation), rest))
}

/// The relation of a child, and the id of its parent.
fn child_at(bytes: &[u8]) -> Option<(JoinValue<'_>, &[u8])>
    ensures { Gives (λ x. (lent_join x.0, x.1.now)) result (child_at bytes.now) }
{
    let (relation, rest) = u32_at(bytes)?;
    let (parent, rest) = string_at(rest)?;
    Some((JoinValue::Child(relation, parent), rest))
}

/// What stands of a root before its source. The bytes behind that aren't looked at.
#[tactic(auto, unfolding(crate::specs::Reading::front_at))]
pub(crate) fn front_at(bytes: &[u8]) -> Option<LentFront<'_>>
    ensures { Gives (λ x. (x.id.now, (x.number, x.generation))) result (front_at bytes.now) }
{
    let (id, rest) = string_at(bytes)?;
    let (number, rest) = u64_at(rest)?;
    let (generation, _) = u32_at(rest)?;
    Some(LentFront {
        id,
        number,
        generation,
    })
}

/// A root.
#[tactic(auto, unfolding(crate::specs::Reading::root_at))]
pub(crate) fn root_at(bytes: &[u8]) -> Option<(LentRoot<'_>, &[u8])>
    ensures { Gives (λ x. (lent_root x.0, x.1.now)) result (root_at bytes.now) }
{
    let (id, rest) = string_at(bytes)?;
    let (number, rest) = u64_at(rest)?;
    let (generation, rest) = u32_at(rest)?;
    let (source, rest) = string_at(rest)?;
    let (join, rest) = join_at(rest)?;
    Some((
        LentRoot {
            id,
            number,
            generation,
            source,
            join,
        },
        rest,
    ))
}
