//! What a part of a search body is refused for by itself.
ghost use Rattle.std.specs.Prelude.{◌≡◌, Some, codes};
ghost use Rattle.tree_json.specs.Value.{members_of};
ghost use Rattle.tree_json.specs.View.{view};
ghost use Rattle.search_walk.specs.Fault.{below_fault, above_fault, relation_fault, ignores, mode_fault, field_sort_fault, sort_fault, object_fault, fault_at, fault_in, fault_of};
ghost use Rattle.search_walk.specs.Kinds.{is_taken};
ghost use Rattle.search_walk.specs.Names.{text_of, scope_in};
ghost use Rattle.search_walk.specs.Sorts.{is_summing, sort_part, given_missing};
ghost use Rattle.search_walk.specs.View.{node_of};
ghost use Rattle.search_walk.specs.Walk.{inside_at};

use crate::after::keys_are_taken;
use crate::bucket_fault::bucket_fault;
use crate::kinds::{is_keyword, is_sortable, is_taken};
use crate::known::KnownNames;
use crate::leaf_fault::{bad_value_unless, leaf_fault};
use crate::names::{child_under, flag_under, kind_named, text_of};
use crate::node::Node;
use crate::refusal::SearchRefusal;
use crate::sorts::{given_missing, is_score, is_summing, sort_name, sort_part};
use mapping::{Kind, Mapping};
use search_form::Form;
use tree_json::{Json, JsonObject};

/// A path down is that of a nested scope strictly below the one at hand; an unknown one may be ignored.
pub(crate) fn below_fault(
    mapping: &Mapping,
    scope: u32,
    ignored: bool,
    below: Option<u32>,
) -> Option<SearchRefusal>
    ensures { result ≡ below_fault mapping.now scope ignored below }
{
    match below {
        Some(below) => {
            if mapping.is_above(scope, below) {
                None
            } else {
                Some(SearchRefusal::PathOutOfScope)
            }
        }
        None => {
            if ignored {
                None
            } else {
                Some(SearchRefusal::UnknownPath)
            }
        }
    }
}

/// A path up is that of a scope strictly above the one at hand.
pub(crate) fn above_fault(
    mapping: &Mapping,
    scope: u32,
    above: Option<u32>,
) -> Option<SearchRefusal>
    ensures { result ≡ above_fault mapping.now scope above }
{
    match above {
        Some(above) => {
            if mapping.is_above(above, scope) {
                None
            } else {
                Some(SearchRefusal::PathOutOfScope)
            }
        }
        None => Some(SearchRefusal::UnknownPath),
    }
}

/// A relation is known, or it may be ignored.
pub(crate) fn relation_fault(ignored: bool, relation: Option<u32>) -> Option<SearchRefusal>
    ensures { result ≡ relation_fault ignored relation }
{
    match relation {
        Some(_) => None,
        None => {
            if ignored {
                None
            } else {
                Some(SearchRefusal::UnknownRelation)
            }
        }
    }
}

fn ignores(clause: &JsonObject) -> bool
    ensures { result ≡ ignores (members_of clause.now) }
{
    flag_under(clause, b"ignore_unmapped")
}

fn is_summed(clause: &Json) -> bool
    ensures { result ≡ is_summing (text_of (sort_part (view clause.now) (codes "mode"))) }
{
    match sort_part(clause, b"mode") {
        Some(mode) => is_summing(text_of(mode)),
        None => false,
    }
}

fn missing_taken(kind: Kind, clause: &Json) -> bool
    ensures { result ≡ is_taken kind (given_missing (view clause.now)) }
{
    match given_missing(clause) {
        Some(value) => is_taken(kind, value),
        None => true,
    }
}

fn mode_fault(kind: Kind, clause: &Json) -> Option<SearchRefusal>
    ensures { result ≡ mode_fault kind (view clause.now) }
{
    if is_keyword(kind) && is_summed(clause) || !missing_taken(kind, clause) {
        Some(SearchRefusal::BadSort)
    } else {
        None
    }
}

fn field_sort_fault(kind: Option<Kind>, clause: &Json) -> Option<SearchRefusal>
    ensures { result ≡ field_sort_fault kind (view clause.now) }
{
    match kind {
        Some(kind) => {
            if is_sortable(kind) {
                mode_fault(kind, clause)
            } else {
                Some(SearchRefusal::SortFieldUnmapped)
            }
        }
        None => Some(SearchRefusal::SortFieldUnmapped),
    }
}

fn sort_fault(mapping: &Mapping, clause: &Json) -> Option<SearchRefusal>
    ensures { result ≡ sort_fault mapping.now (view clause.now) }
{
    let name = sort_name(clause);
    if is_score(name) {
        None
    } else {
        field_sort_fault(kind_named(mapping, name), clause)
    }
}

// What `nested` is refused for, inside which stand parts of a scope.
fn nested_fault(
    mapping: &Mapping,
    scope: u32,
    inside: Option<u32>,
    clause: &JsonObject,
) -> Option<SearchRefusal>
    ensures { result ≡ below_fault mapping.now scope (ignores (members_of clause.now)) inside }
{
    match inside {
        Some(below) => below_fault(mapping, scope, false, Some(below)),
        None => below_fault(mapping, scope, ignores(clause), None),
    }
}

// What a clause of a join is refused for, inside which stand roots if its relation is known.
fn joined_fault(inside: Option<u32>, clause: &JsonObject) -> Option<SearchRefusal>
    ensures { result ≡ relation_fault (ignores (members_of clause.now)) inside }
{
    match inside {
        Some(_) => None,
        None => relation_fault(ignores(clause), None),
    }
}

#[tactic(auto, using(crate::proofs::Rooted::rooted))]
fn object_fault(
    mapping: &Mapping,
    scope: u32,
    inside: Option<u32>,
    form: Form,
    object: &JsonObject,
    known: &mut KnownNames,
) -> Option<SearchRefusal>
    requires { inside ≡ scope_in mapping.now scope form (members_of object.now) }
    ensures { result ≡ object_fault mapping.now scope form (members_of object.now) }
{
    match form {
        Form::Term | Form::Terms | Form::Range | Form::Prefix | Form::Match | Form::MatchPhrase =>
            leaf_fault(mapping, form, object, known),
        Form::Nested => nested_fault(mapping, scope, inside, object),
        Form::ToChild => above_fault(mapping, scope, inside),
        Form::HasChild | Form::HasParent => joined_fault(inside, object),
        Form::ParentId => relation_fault(ignores(object), child_under(mapping, object)),
        Form::SortNested => below_fault(mapping, scope, false, inside),
        Form::SearchAfter => bad_value_unless(keys_are_taken(mapping, object)),
        Form::Bucket => bucket_fault(mapping, scope, object),
        _ => None,
    }
}

fn fault_at(
    mapping: &Mapping,
    scope: u32,
    inside: Option<u32>,
    form: Form,
    value: &Json,
    known: &mut KnownNames,
) -> Option<SearchRefusal>
    requires { inside ≡ inside_at mapping.now (Some scope) form (view value.now) }
    ensures { result ≡ fault_at mapping.now scope form (view value.now) }
{
    match form {
        Form::SortClause => sort_fault(mapping, value),
        _ => match value {
            Json::Object(object) => object_fault(mapping, scope, inside, form, object, known),
            _ => None,
        },
    }
}

/// What a part is refused for.
pub(crate) fn fault_of(
    mapping: &Mapping,
    node: &Node<'_>,
    known: &mut KnownNames,
) -> Option<SearchRefusal>
    requires { node.now.inside ≡ inside_at mapping.now node.now.scope node.now.form (view node.now.value.now) }
    ensures { result ≡ fault_of mapping.now (node_of node.now) }
{
    match node.scope {
        Some(scope) => fault_at(mapping, scope, node.inside, node.form, node.value, known),
        None => None,
    }
}
