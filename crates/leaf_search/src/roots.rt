//! The roots that pass a test of their join values.

ghost use Rattle.std.specs.Prelude.{◌≡◌, ◌<◌, length, true, slice_set, if◌then◌else◌, IfOk};
ghost use Rattle.stored_sources.specs.Roots.{lent_join};
ghost use Rattle.stored_sources.specs.Roots.{root_of};
ghost use Rattle.segment.specs.Flat.{flat_root, flats_of, roots_of};
ghost use Rattle.leaf_search.specs.Roots.{root_passes, is_joined, is_child_of};
ghost use Rattle.leaf_search.specs.Sets.{root_marks};

use crate::NoMemory;
use block_bits::BitSet;
use segment::{JoinValue, Segment, scopes_are_of_documents};
use std::alloc::Global;

/// What is asked of a root.
#[derive(Drop)]
pub(crate) enum RootTest<'a> {
    /// It has a join value.
    IsJoined,
    /// Its relation is this child relation, and its parent has this id.
    IsChild(u32, &'a [u8]),
}

/// The documents of the roots that pass. It looks at each root.
pub(crate) fn root_marks(
    alloc: Global,
    segment: &Segment,
    test: &RootTest,
) -> Result<BitSet, NoMemory>
    ensures { IfOk result (λ set. set ≡ root_marks (root_passes test.now) (roots_of segment.now) (flats_of segment.now)) }
{
    scopes_are_of_documents(segment);
    let mut set = BitSet::empty(alloc, segment.docs())?;
    'roots: for root in 0..segment.roots() {
        let doc = segment.root_doc(root);
        let on = passes(segment, root, test);
        set_if(&mut set, doc, on);
    }
    Ok(set)
}

/// Puts a document into a set if it is to be there.
fn set_if(set: &mut BitSet, doc: u32, on: bool)
    requires { doc < length set.old }
    ensures { set.new ≡ if on then slice_set set.old doc true else set.old }
{
    if on {
        set.set(doc);
    }
}

/// Whether a root passes.
fn passes(segment: &Segment, root: u32, test: &RootTest) -> bool
    requires { root < length segment.now.roots }
    ensures { result ≡ root_passes test.now (flat_root (root_of segment.now.roots root)) }
{
    match test {
        RootTest::IsJoined => is_joined(segment.root_join(root)),
        RootTest::IsChild(relation, id) => is_child_of(*relation, id, segment.root_join(root)),
    }
}

fn is_joined(join: JoinValue) -> bool
    ensures { result ≡ is_joined (lent_join join.entry) }
{
    match join {
        JoinValue::Unjoined => false,
        JoinValue::Named(_) => true,
        JoinValue::Child(_, _) => true,
    }
}

fn is_child_of(relation: u32, id: &[u8], join: JoinValue) -> bool
    ensures { result ≡ is_child_of relation id.now (lent_join join.entry) }
{
    match join {
        JoinValue::Unjoined => false,
        JoinValue::Named(_) => false,
        JoinValue::Child(own, parent) => own == relation && parent == id,
    }
}
