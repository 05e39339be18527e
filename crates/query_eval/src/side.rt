//! By which ordinal a root takes part in a join of trees.

ghost use Rattle.std.specs.Prelude.{◌≡◌, ◌<◌, length};
ghost use Rattle.join_ordinals.specs.Ordinals.{ordinal_at, relation_in};
ghost use Rattle.mapping.specs.Mapping.{relation_at};
ghost use Rattle.query_eval.specs.Sides.{HaveRelations, is_on, key_at, ordinal_by};
ghost use Rattle.query_ast.specs.Joined.{is_number};
ghost use Rattle.segment_parts.specs.declared.columns.Columns.{Columns};
ghost use Rattle.stored_sources.specs.Roots.{lent_join, root_of};

use join_ordinals::JoinOrdinals;
use mapping::Mapping;
use segment::{JoinValue, Segment};

/// The roots that take part in a join of trees, each by the ordinal of an id.
#[derive(Clone, Copy, Debug, PartialEq, Eq)]
pub enum Side {
    /// Those of a relation, by their own ids.
    Parents(u32),
    /// Those of a relation, by the ids of their parents.
    Children(u32),
    /// Those of each relation that has this one as its parent, by the ids of their parents.
    ChildrenOf(u32),
}

/// The ordinal by which a root of the entry at a place takes part, if it does.
pub fn key_of(
    mapping: &Mapping,
    joins: &JoinOrdinals,
    segment: &Segment,
    place: usize,
    root: u32,
    side: Side,
) -> Option<u32>
    requires { root < length segment.now.roots }
    ensures { result ≡ key_at mapping.now joins.now side segment.now place root }
{
    if takes_part(mapping, segment, root, side) {
        ordinal_by(joins, place, root, side)
    } else {
        None
    }
}

/// The ordinal by which a root of the entry at a place would take part.
pub(crate) fn ordinal_by(joins: &JoinOrdinals, place: usize, root: u32, side: Side) -> Option<u32>
    ensures { result ≡ ordinal_by side (ordinal_at joins.now.own place root) (ordinal_at joins.now.parents place root) }
{
    match side {
        Side::Parents(_) => joins.own(place, root),
        Side::Children(_) => joins.parent(place, root),
        Side::ChildrenOf(_) => joins.parent(place, root),
    }
}

/// The same, by the relation that is kept with the ordinals: no join value is read.
#[tactic(auto, using(crate::proofs::Telling::key_none, crate::proofs::Telling::key_on, crate::proofs::Telling::key_off))]
pub(crate) fn kept_key(
    mapping: &Mapping,
    joins: &JoinOrdinals,
    place: usize,
    root: u32,
    side: Side,
) -> Option<u32>
    ensures { (columns : Columns) → HaveRelations joins.now side columns place → result ≡ key_at mapping.now joins.now side columns place root }
{
    let Some(ordinal) = ordinal_by(joins, place, root, side) else {
        return None;
    };
    if is_kept_on(mapping, joins, place, root, side) {
        Some(ordinal)
    } else {
        None
    }
}

/// Whether a root takes part, by the relation that is kept of it.
pub(crate) fn is_kept_on(
    mapping: &Mapping,
    joins: &JoinOrdinals,
    place: usize,
    root: u32,
    side: Side,
) -> bool
    ensures { result ≡ is_on mapping.now side (ordinal_at joins.now.relations place root) }
{
    is_on(mapping, side, joins.relation(place, root))
}

/// Whether a root takes part, by its relation.
fn takes_part(mapping: &Mapping, segment: &Segment, root: u32, side: Side) -> bool
    requires { root < length segment.now.roots }
    ensures { result ≡ is_on mapping.now side (relation_in (root_of segment.now.roots root).join) }
{
    is_on(mapping, side, relation_in(segment.root_join(root)))
}

/// The relation of a join value.
fn relation_in(join: JoinValue<'_>) -> Option<u32>
    ensures { result ≡ relation_in (lent_join join.entry) }
{
    match join {
        JoinValue::Unjoined => None,
        JoinValue::Named(relation) => Some(relation),
        JoinValue::Child(relation, _) => Some(relation),
    }
}

/// Whether roots of a relation take part.
fn is_on(mapping: &Mapping, side: Side, relation: Option<u32>) -> bool
    ensures { result ≡ is_on mapping.now side relation }
{
    let Some(own) = relation else {
        return false;
    };
    match side {
        Side::Parents(relation) => own == relation,
        Side::Children(relation) => own == relation,
        Side::ChildrenOf(parent) => has_parent(mapping, own, parent),
    }
}

/// Whether a relation has this one as its parent.
#[tactic(auto, using(crate::proofs::Relations::no_parent))]
fn has_parent(mapping: &Mapping, relation: u32, parent: u32) -> bool
    ensures { result ≡ is_number (relation_at mapping.now relation).parent parent }
{
    if relation >= mapping.relation_count() {
        return false;
    }
    match mapping.parent_relation(relation) {
        Some(own) => own == parent,
        None => false,
    }
}
