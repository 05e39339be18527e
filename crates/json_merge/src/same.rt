//! Whether two values are equal.
ghost use Rattle.std.specs.Prelude.{◌≡◌, ◌↔◌, IsTrue};
ghost use Rattle.tree_json.specs.Value.{JsonValue, elements_of, members_of};
ghost use Rattle.tree_json.specs.View.{view, values, entries};
ghost use Rattle.json_merge.specs.Same.{is_same, is_same_list, is_same_object};

use tree_json::{Json, JsonText};

/// Whether two values are equal: the same kind, number, text and elements, and the same values under the same names. It
/// takes no memory.
#[tactic(auto, using(crate::proofs::Equal::equals))]
pub fn is_same(a: &Json, b: &Json) -> bool
    ensures same { result ≡ is_same (view a.now) (view b.now) }
    ensures equal { IsTrue result ↔ (view a.now ≡ view b.now) }
{
    same(a, b)
}

/// What is the same is equal, and what is equal is the same. It does nothing: the law is its contract.
#[tactic(auto, using(crate::proofs::Equal::equals))]
pub fn same_values_are_equal()
    ensures { (a b : JsonValue) → IsTrue (is_same a b) ↔ (a ≡ b) }
{}

#[cycle(same)]
#[tactic(auto, using(crate::proofs::Sizes::sizes, crate::proofs::Equal::same_bool))]
fn same(a: &Json, b: &Json) -> bool
    ensures { result ≡ is_same (view a.now) (view b.now) }
{
    match (a, b) {
        (Json::Null, Json::Null) => true,
        (Json::Bool(one), Json::Bool(other)) => one == other,
        (Json::Whole(one), Json::Whole(other)) => one == other,
        (Json::Text(one), Json::Text(other)) => one.as_slice() == other.as_slice(),
        (Json::List(one), Json::List(other)) => same_elements(one.as_slice(), other.as_slice()),
        (Json::Object(one), Json::Object(other)) => same_members(one.as_slice(), other.as_slice()),
        _ => false,
    }
}

#[cycle(same)]
#[tactic(auto, using(crate::proofs::Sizes::sizes, crate::proofs::Equal::ends))]
fn same_elements(a: &[Json], b: &[Json]) -> bool
    ensures { result ≡ is_same_list (elements_of (values a.now)) (elements_of (values b.now)) }
{
    let mut rest = b;
    'elements: for element in a {
        match rest {
            [] => return false,
            [other, others @ ..] => {
                if !same(element, other) {
                    return false;
                }
                rest = others;
            }
        }
    }
    rest.is_empty()
}

#[cycle(same)]
#[tactic(auto, using(crate::proofs::Sizes::sizes, crate::proofs::Equal::ends))]
fn same_members(a: &[(JsonText, Json)], b: &[(JsonText, Json)]) -> bool
    ensures { result ≡ is_same_object (members_of (entries a.now)) (members_of (entries b.now)) }
{
    let mut rest = b;
    'members: for (name, value) in a {
        match rest {
            [] => return false,
            [(other_name, other), others @ ..] => {
                if name.as_slice() != other_name.as_slice() || !same(value, other) {
                    return false;
                }
                rest = others;
            }
        }
    }
    rest.is_empty()
}
