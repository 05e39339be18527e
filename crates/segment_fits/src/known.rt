//! What a mapping knows of a segment's roots and scopes.
ghost use Rattle.std.specs.Prelude.{◌≡◌, ◌↔◌, ℕ, ◌<◌, ◌≤◌, length, IsTrue};
ghost use Rattle.std.specs.List.{All};
ghost use Rattle.flattener.specs.Fits.{IsJoinOf, IsRelation};
ghost use Rattle.stored_sources.specs.Roots.{root_of, lent_join};
ghost use Rattle.segment_fits.specs.Tested.{AreRootsKnown, AreScopesKnown, IsRootKnown};

use crate::standing::Standing;
use mapping::Mapping;
use segment::Segment;
use stored_sources::JoinValue;

/// No sequence number is greater.
const GREATEST_NUMBER: u64 = 1 << 62;

/// Whether each root has a number that is not too great, a generation of the mapping, and a relation of that generation.
pub(crate) fn are_roots_known(mapping: &Mapping, segment: &Segment) -> bool
    ensures { IsTrue result ↔ AreRootsKnown mapping.now segment.now }
{
    'roots: for root in 0..segment.roots() {
        if !is_root_known(mapping, segment, root) {
            return false;
        }
    }
    true
}

fn is_root_known(mapping: &Mapping, segment: &Segment, root: u32) -> bool
    requires { root < length segment.now.roots }
    ensures { IsTrue result ↔ IsRootKnown mapping.now (root_of segment.now.roots root) }
{
    let generation = segment.root_generation(root);
    if segment.root_number(root) > GREATEST_NUMBER {
        return false;
    }
    if generation == 0 || generation > mapping.generation() {
        return false;
    }
    is_join_known(mapping, generation, segment.root_join(root))
}

fn is_join_known(mapping: &Mapping, generation: u32, join: JoinValue) -> bool
    ensures { IsTrue result ↔ IsJoinOf mapping.now generation (lent_join join.entry) }
{
    match join {
        JoinValue::Unjoined => true,
        JoinValue::Named(relation) => is_relation_known(mapping, generation, relation),
        JoinValue::Child(relation, _) => is_relation_known(mapping, generation, relation),
    }
}

fn is_relation_known(mapping: &Mapping, generation: u32, relation: u32) -> bool
    ensures { IsTrue result ↔ IsRelation mapping.now generation relation }
{
    if relation >= mapping.relation_count() {
        return false;
    }
    mapping.knows_relation(generation, relation)
}

/// Whether the scope of each document is one of the generation of its root.
pub(crate) fn are_scopes_known(mapping: &Mapping, standings: &[Standing]) -> bool
    requires { All (λ (it : Standing). it.scope < length mapping.now.scopes) standings.now }
    ensures { IsTrue result ↔ AreScopesKnown mapping.now standings.now }
{
    'documents: for it in standings {
        if !mapping.knows_scope(it.generation, it.scope) {
            return false;
        }
    }
    true
}
