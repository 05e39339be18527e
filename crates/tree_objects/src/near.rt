//! The field of a member, looked for first where it most often stands.
ghost use Rattle.std.specs.Prelude.{◌≡◌, ◌<◌, ◌∷◌, false, length, Some, IfSome, IsTrue};
ghost use Rattle.mapping.specs.Mapping.{field_at, field_below};
ghost use Rattle.mapping_body.specs.Names.{dot, has_dot, joined};

use mapping::{Mapping, names_lead_to_fields};

/// The field of a name below a path, as `Mapping::field_below` finds it. `near` is looked at first, and the answer is the
/// same whatever it is: a body numbers its fields in the order in which a walk over a source meets them, so that most
/// often the field behind the last one is the next.
pub(crate) fn field_near(
    mapping: &Mapping,
    generation: u32,
    path: &[u8],
    name: &[u8],
    near: u32,
) -> Option<u32>
    ensures field { result ≡ field_below mapping.now generation path.now name.now }
    ensures bound { IfSome result (λ field. field < length mapping.now.fields) }
    ensures path { IfSome result (λ field. (field_at mapping.now field).path ≡ joined path.now name.now) }
{
    if is_here(mapping, generation, path, name, near) {
        Some(near)
    } else {
        mapping.field_below(generation, path, name)
    }
}

/// Whether the field of a name below a path is this one.
#[tactic(auto, using(crate::proofs::Guesses::near))]
fn is_here(mapping: &Mapping, generation: u32, path: &[u8], name: &[u8], field: u32) -> bool
    ensures field { IsTrue result → field_below mapping.now generation path.now name.now ≡ Some field }
    ensures bound { IsTrue result → field < length mapping.now.fields }
    ensures path { IsTrue result → (field_at mapping.now field).path ≡ joined path.now name.now }
{
    names_lead_to_fields();
    let _generations = mapping.generation();
    field < mapping.field_count()
        && mapping.knows(generation, field)
        && stands_at(mapping.path(field), path, name)
}

/// Whether a path is that of a name without a dot below another path.
#[tactic(auto, using(crate::proofs::Guesses::same))]
fn stands_at(whole: &[u8], path: &[u8], name: &[u8]) -> bool
    ensures path { IsTrue result → whole.now ≡ joined path.now name.now }
    ensures name { IsTrue result → has_dot name.now ≡ false }
{
    if path.is_empty() {
        are_name(whole, name)
    } else if whole.len() > path.len() {
        let (front, back) = whole.split_at(path.len());
        goes_on(back, name) && front == path
    } else {
        false
    }
}

/// Whether the rest of a path is a dot and a name without one.
fn goes_on(rest: &[u8], name: &[u8]) -> bool
    ensures rest { IsTrue result → rest.now ≡ dot ∷ name.now }
    ensures name { IsTrue result → has_dot name.now ≡ false }
{
    match rest {
        [] => false,
        [byte, behind @ ..] => *byte == b'.' && are_name(behind, name),
    }
}

/// Whether bytes are a name without a dot.
fn are_name(bytes: &[u8], name: &[u8]) -> bool
    ensures bytes { IsTrue result → bytes.now ≡ name.now }
    ensures name { IsTrue result → has_dot name.now ≡ false }
{
    match name {
        [] => bytes.is_empty(),
        [letter, name @ ..] => match bytes {
            [] => false,
            [byte, bytes @ ..] => *letter != b'.' && byte == letter && are_name(bytes, name),
        },
    }
}
