//! Members that are still to come, in ascending byte order of their names.
ghost use Rattle.std.specs.Prelude.{◌≡◌, ◌∷◌, false, IfNone, IfSome};
ghost use Rattle.tree_json.specs.View.{view, entries};
ghost use Rattle.json_merge.specs.Coming.{is_before, is_named, Comes};

use std::collections::VecDeque;
use tree_json::{Json, JsonText};

/// The first member, where its name comes before this one.
#[tactic(auto, using(crate::proofs::Firsts::firsts))]
pub(crate) fn next_before(
    coming: &mut VecDeque<(JsonText, Json)>,
    name: &[u8],
) -> Option<(JsonText, Json)>
    ensures none { IfNone result ((coming.new.items ≡ coming.old.items) × (is_before name.now (entries coming.old.items) ≡ false)) }
    ensures some { IfSome result (λ member. Comes name.now (member.0, view member.1) (entries coming.old.items) (entries coming.new.items)) }
{
    if is_before(name, coming) {
        coming.pop_front()
    } else {
        None
    }
}

/// The value of the first member, where it has this name.
#[tactic(auto, using(crate::proofs::Firsts::firsts))]
pub(crate) fn next_named(coming: &mut VecDeque<(JsonText, Json)>, name: &[u8]) -> Option<Json>
    ensures none { IfNone result ((coming.new.items ≡ coming.old.items) × (is_named name.now (entries coming.old.items) ≡ false)) }
    ensures some { IfSome result (λ value. entries coming.old.items ≡ (name.now, view value) ∷ entries coming.new.items) }
{
    if !is_named(name, coming) {
        return None;
    }
    let (_, value) = coming.pop_front()?;
    Some(value)
}

fn is_before(name: &[u8], coming: &VecDeque<(JsonText, Json)>) -> bool
    ensures { result ≡ is_before name.now (entries coming.now.items) }
{
    match coming.front() {
        Some((first, _)) => first.as_slice().cmp(name).is_lt(),
        None => false,
    }
}

fn is_named(name: &[u8], coming: &VecDeque<(JsonText, Json)>) -> bool
    ensures { result ≡ is_named name.now (entries coming.now.items) }
{
    match coming.front() {
        Some((first, _)) => first.as_slice() == name,
        None => false,
    }
}
